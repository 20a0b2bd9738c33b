//! The command `expand`.
ghost use Rattle.std.specs.Prelude.{◌≡◌, IfOk};
ghost use Rattle.tree_text.specs.text_rules.Canonical.{canonical};
ghost use Rattle.command_files.specs.plan_rules.Expanded.{expanded};
ghost use Rattle.command_files.specs.plan_rules.Plan.{IsPlan};
ghost use Rattle.command_files.specs.studio_rules.Reading.{TwoFilesSay};
ghost use Rattle.command_files.specs.studio_rules.Plan.{OnPlan};
ghost use Rattle.command_files.specs.studio_rules.Expand.{ExpandWork};
ghost use Rattle.command_files.specs.studio_rules.Ending.{Ends, Says};
ghost use Rattle.command_files.specs.studio_rules.Keeps.{Keeps};

use command_files::say::say_made;
use command_files::{Plan, Status, plan_of, problem_of};
use headed_search::{Outputs, Problem, Shelf, Sink};
use std::alloc::{AllocError, Global};

/// The canonical text of the expanded problem.
fn expanded_text(alloc: Global, problem: &Problem, plan: &Plan) -> Result<Vec<u8>, AllocError>
    requires { IsPlan problem.now plan.now }
    ensures { IfOk result (λ text. text.items ≡ canonical (expanded problem.now plan.now)) }
{
    let whole = command_files::expand(alloc, problem, plan)?;
    whole.canonical_text(alloc)
}

fn say_expanded<F: Shelf, K: Sink, E: Sink>(
    alloc: Global,
    problem: &Problem,
    plan: &str,
    shelf: &mut F,
    out: &mut Outputs<K, E>,
) -> Status
    ensures ends { Ends
        (Says (OnPlan ExpandWork (F.state shelf.old).held plan.now problem.now)
        (λ other. other ≡ plan.now) (F.state shelf.old) (F.state shelf.new)) out.old out.new
        result }
    ensures keeps { Keeps (F.state shelf.old) (F.state shelf.new) }
{
    match plan_of(alloc, shelf, out, plan, problem) {
        Ok(plan) => say_made(out, expanded_text(alloc, problem, &plan)),
        Err(status) => status,
    }
}

/// Prints the canonical text of the file's problem and the plan's periods as one ordinary problem.
pub fn expand<F: Shelf, K: Sink, E: Sink>(
    alloc: Global,
    file: &str,
    plan: &str,
    shelf: &mut F,
    out: &mut Outputs<K, E>,
) -> Status
    ensures ends { Ends
        (TwoFilesSay (OnPlan ExpandWork) file.now plan.now (F.state shelf.old)
        (F.state shelf.new))
        out.old out.new result }
    ensures keeps { Keeps (F.state shelf.old) (F.state shelf.new) }
{
    match problem_of(alloc, shelf, out, file) {
        Ok(problem) => say_expanded(alloc, &problem, plan, shelf, out),
        Err(status) => status,
    }
}
