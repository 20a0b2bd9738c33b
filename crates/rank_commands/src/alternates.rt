//! The command `alternatives`.
ghost use Rattle.std.specs.Prelude.{◌≤◌};
ghost use Rattle.searches.specs.studio_rules.Alternates.{AlternatesWork};
ghost use Rattle.searches.specs.studio_rules.Reading.{FileSays};
ghost use Rattle.searches.specs.studio_rules.Ending.{Ends, Tells};
ghost use Rattle.searches.specs.studio_rules.Keeps.{Keeps};

use crate::ranking::say_found;
use rank_text::{
    Effort, Graph, Outputs, Problem, Shelf, Sink, Site, Watch, alternatives_are_right,
};
use searches::say::say_memory;
use searches::{Status, alternatives_watched, problem_of};
use std::alloc::Global;

// Prints the best networks of the problem that differ, with the tree that proves it, or how far the
// search came.
fn say_listed<K: Sink, E: Sink, W: Watch>(
    alloc: Global,
    out: &mut Outputs<K, E>,
    problem: &Problem,
    count: u64,
    effort: Effort<W>,
) -> Status
    requires asked { 1 ≤ count }
    requires within { count ≤ 1000 }
    requires some { 1 ≤ effort.budget }
    requires few { effort.budget ≤ 1000000 }
    ensures { Ends (Tells (AlternatesWork count effort.budget problem.now)) out.old out.new
        result }
{
    let Ok(graph) = Graph::of(alloc, problem) else {
        return say_memory(out);
    };
    problem.is_valid();
    alternatives_are_right();
    let site = Site::of(problem, &graph);
    let budget = u64::from(effort.budget);
    let listed = alternatives_watched(alloc, &site, count as u32, effort);
    say_found(alloc, out, problem, listed, budget)
}

/// Prints the best networks of the file's problem of which none is another with something idle, as
/// many as are asked for, with the tree that proves it. Of a search that stopped it prints how far
/// that came.
pub fn alternatives<F: Shelf, K: Sink, E: Sink, W: Watch>(
    alloc: Global,
    file: &str,
    count: u64,
    effort: Effort<W>,
    shelf: &mut F,
    out: &mut Outputs<K, E>,
) -> Status
    requires asked { 1 ≤ count }
    requires within { count ≤ 1000 }
    requires some { 1 ≤ effort.budget }
    requires few { effort.budget ≤ 1000000 }
    ensures ends { Ends
        (FileSays (AlternatesWork count effort.budget) file.now (F.state shelf.old)
        (F.state shelf.new)) out.old out.new result }
    ensures keeps { Keeps (F.state shelf.old) (F.state shelf.new) }
{
    match problem_of(alloc, shelf, out, file) {
        Ok(problem) => say_listed(alloc, out, &problem, count, effort),
        Err(status) => status,
    }
}
