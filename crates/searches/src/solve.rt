//! The command `solve`.
ghost use Rattle.std.specs.Prelude.{◌≤◌};
ghost use Rattle.command_files.specs.studio_rules.Solve.{SolveWork};
ghost use Rattle.command_files.specs.studio_rules.Reading.{FileSays};
ghost use Rattle.command_files.specs.studio_rules.Ending.{Ends, Tells};
ghost use Rattle.command_files.specs.studio_rules.Keeps.{Keeps};

use crate::headed::say_headed;
use crate::say_found;
use crate::solves_search::{Solution, search_best};
use command_files::say::say_memory;
use command_files::{Status, problem_of};
use headed_search::{Effort, Graph, Outputs, Problem, Shelf, Sink, Watch, accepted_is_optimal};
use std::alloc::Global;

/// Prints a network of least cost with the tree that proves it, or that no network has flows. Of a
/// search that stopped it prints how far that came.
fn say_solved<K: Sink, E: Sink, W: Watch>(
    alloc: Global,
    out: &mut Outputs<K, E>,
    problem: &Problem,
    effort: Effort<W>,
) -> Status
    requires some { 1 ≤ effort.budget }
    requires few { effort.budget ≤ 1000000 }
    ensures { Ends (Tells (SolveWork effort.budget problem.now)) out.old out.new result }
{
    let Ok(graph) = Graph::of(alloc, problem) else {
        return say_memory(out);
    };
    problem.is_valid();
    accepted_is_optimal();
    let budget = u64::from(effort.budget);
    match search_best(alloc, problem, &graph, effort) {
        Solution::Plain(found) => say_found(alloc, out, problem, found, budget),
        Solution::WithHead(headed) => say_headed(alloc, out, problem, headed),
    }
}

/// Prints a network of least cost for the file's problem with the tree that proves it, or that no
/// network has flows. Of a search that stopped it prints how far that came.
pub fn solve<F: Shelf, K: Sink, E: Sink, W: Watch>(
    alloc: Global,
    file: &str,
    effort: Effort<W>,
    shelf: &mut F,
    out: &mut Outputs<K, E>,
) -> Status
    requires some { 1 ≤ effort.budget }
    requires few { effort.budget ≤ 1000000 }
    ensures ends { Ends
        (FileSays (SolveWork effort.budget) file.now (F.state shelf.old) (F.state shelf.new))
        out.old out.new result }
    ensures keeps { Keeps (F.state shelf.old) (F.state shelf.new) }
{
    match problem_of(alloc, shelf, out, file) {
        Ok(problem) => say_solved(alloc, out, &problem, effort),
        Err(status) => status,
    }
}
