//! The search of all designs of a plant over its periods.
ghost use Rattle.std.specs.Prelude.{◌≡◌, ◌≤◌, IfOk};
ghost use Rattle.command_files.specs.plan_rules.Expanded.{expanded};
ghost use Rattle.command_files.specs.plan_rules.Plan.{IsPlan};
ghost use Rattle.tree_text.specs.tree_rules.Claim.{IsFeasible};
ghost use Rattle.command_files.specs.plan_rules.Folded.{folded};
ghost use Rattle.command_files.specs.studio_rules.Lines.{text_of};
ghost use Rattle.command_files.specs.studio_rules.Ending.{Ends, Tells};
ghost use Rattle.command_files.specs.studio_rules.DesignText.{design_lines};
ghost use Rattle.command_files.specs.studio_rules.Periods.{PeriodsWork};

use crate::design_text::design_text;
use crate::{say_found, search_all};
use command_files::say::{say, say_made, say_memory};
use command_files::{
    Plan, Status, expand, fold, least_network_is_least_design, no_network_is_no_design,
    plans_are_short,
};
use headed_search::{
    Effort, Found, Graph, Network, Outputs, Problem, Sink, Watch, accepted_is_optimal,
};
use std::alloc::{AllocError, Global};

/// The text of the design that the network stands for.
fn network_text(
    alloc: Global,
    problem: &Problem,
    plan: &Plan,
    network: &Network,
) -> Result<Vec<u8>, AllocError>
    requires plan { IsPlan problem.now plan.now }
    requires feasible { IsFeasible (expanded problem.now plan.now) network.now }
    ensures { IfOk result
        (λ text. text.items
        ≡ text_of (design_lines problem.now (folded problem.now plan.now network.now))) }
{
    problem.is_valid();
    plans_are_short();
    let design = fold(alloc, problem, plan, network)?;
    design_text(alloc, problem, &design)
}

/// Searches the expanded problem, and prints what follows for the plant.
fn say_searched<K: Sink, E: Sink, W: Watch>(
    alloc: Global,
    out: &mut Outputs<K, E>,
    problem: &Problem,
    plan: &Plan,
    whole: &Problem,
    effort: Effort<W>,
) -> Status
    requires plan { IsPlan problem.now plan.now }
    requires whole { whole.now ≡ expanded problem.now plan.now }
    requires some { 1 ≤ effort.budget }
    requires few { effort.budget ≤ 1000000 }
    ensures { Ends (Tells (PeriodsWork effort.budget problem.now plan.now)) out.old out.new result }
{
    let Ok(graph) = Graph::of(alloc, whole) else {
        return say_memory(out);
    };
    problem.is_valid();
    whole.is_valid();
    accepted_is_optimal();
    least_network_is_least_design();
    no_network_is_no_design();
    let budget = u64::from(effort.budget);
    match search_all(alloc, whole, &graph, effort) {
        Found::Solved { network, .. } => say_made(
            out,
            network_text(alloc, problem, plan, &network),
        ),
        Found::Infeasible { .. } => say(out, b"infeasible\n", Status::Done),
        stopped => say_found(alloc, out, whole, stopped, budget),
    }
}

/// Prints a design of least cost, or that the plant has none. Of a search of the expanded problem
/// that stopped it prints how far that came.
pub fn say_least<K: Sink, E: Sink, W: Watch>(
    alloc: Global,
    out: &mut Outputs<K, E>,
    problem: &Problem,
    plan: &Plan,
    effort: Effort<W>,
) -> Status
    requires plan { IsPlan problem.now plan.now }
    requires some { 1 ≤ effort.budget }
    requires few { effort.budget ≤ 1000000 }
    ensures { Ends (Tells (PeriodsWork effort.budget problem.now plan.now)) out.old out.new result }
{
    match expand(alloc, problem, plan) {
        Ok(whole) => say_searched(alloc, out, problem, plan, &whole, effort),
        Err(_) => say_memory(out),
    }
}
