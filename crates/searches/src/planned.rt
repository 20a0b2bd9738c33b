//! The command `periods`.
ghost use Rattle.std.specs.Prelude.{◌≡◌, ◌≤◌};
ghost use Rattle.command_files.specs.studio_rules.Reading.{TwoFilesSay};
ghost use Rattle.command_files.specs.studio_rules.Plan.{OnPlan};
ghost use Rattle.command_files.specs.studio_rules.Ending.{Ends, Says};
ghost use Rattle.command_files.specs.studio_rules.Keeps.{Keeps};
ghost use Rattle.command_files.specs.studio_rules.Periods.{PeriodsWork};

use crate::least::say_least;
use command_files::{Status, plan_of, problem_of};
use headed_search::{Effort, Outputs, Problem, Shelf, Sink, Watch};
use std::alloc::Global;

fn say_planned<F: Shelf, K: Sink, E: Sink, W: Watch>(
    alloc: Global,
    problem: &Problem,
    plan: &str,
    effort: Effort<W>,
    shelf: &mut F,
    out: &mut Outputs<K, E>,
) -> Status
    requires some { 1 ≤ effort.budget }
    requires few { effort.budget ≤ 1000000 }
    ensures ends { Ends
        (Says (OnPlan (PeriodsWork effort.budget) (F.state shelf.old).held plan.now problem.now)
        (λ other. other ≡ plan.now) (F.state shelf.old) (F.state shelf.new)) out.old out.new
        result }
    ensures keeps { Keeps (F.state shelf.old) (F.state shelf.new) }
{
    match plan_of(alloc, shelf, out, plan, problem) {
        Ok(plan) => say_least(alloc, out, problem, &plan, effort),
        Err(status) => status,
    }
}

/// Prints a design of least cost for the file's problem over the periods of the plan, or that there
/// is none. Of a search of the expanded problem that stopped it prints how far that came.
pub fn periods<F: Shelf, K: Sink, E: Sink, W: Watch>(
    alloc: Global,
    file: &str,
    plan: &str,
    effort: Effort<W>,
    shelf: &mut F,
    out: &mut Outputs<K, E>,
) -> Status
    requires some { 1 ≤ effort.budget }
    requires few { effort.budget ≤ 1000000 }
    ensures ends { Ends
        (TwoFilesSay (OnPlan (PeriodsWork effort.budget)) file.now plan.now (F.state shelf.old)
        (F.state shelf.new)) out.old out.new result }
    ensures keeps { Keeps (F.state shelf.old) (F.state shelf.new) }
{
    match problem_of(alloc, shelf, out, file) {
        Ok(problem) => say_planned(alloc, &problem, plan, effort, shelf, out),
        Err(status) => status,
    }
}
