//! A search over the simplex method that starts anew with charges, if it is not small.
ghost use Rattle.std.specs.Prelude.{◌≡◌, ◌≤◌, true};
ghost use Rattle.flow_evaluator.specs.pns_rules.Shape.{shape_of};
ghost use Rattle.flow_evaluator.specs.pns_rules.Ends.{IsSound};
ghost use Rattle.flow_evaluator.specs.pgraph.View.{node_of};
ghost use Rattle.flow_evaluator.specs.neutral_extension.Candidates.{AreMakersOf};
ghost use Rattle.flow_evaluator.specs.tree_rules.Claim.{ClaimPasses};
ghost use Rattle.flow_evaluator.specs.tree_rules.Costs.{HasFallen};
ghost use Rattle.flow_evaluator.specs.node_evaluation.Looks.{cost_of};
ghost use Rattle.flow_evaluator.specs.node_evaluation.Children.{claim_with};
ghost use Rattle.flow_evaluator.specs.Evaluating.{IsFor};
ghost use Rattle.rank_search.specs.abb_search.Answers.{IsAgainst};
ghost use Rattle.rank_search.specs.abb_search.Found.{IsFound};

use crate::workspace::FlowWorkspace;
use flow_evaluator::{Network, Node, Site, UnitSet, cheaper};
use rank_search::{Effort, Found, Watch, look_at_root, run, search_with};

// A search that ends within so many nodes needs no charges, which cost more time than they save.
const FEW_NODES: u32 = 300;

/// The units of the network, if there is one.
fn units_of(network: &Option<Network>) -> UnitSet {
    match network {
        Some(network) => network.units(),
        None => UnitSet::empty(),
    }
}

/// The cheaper one of the best network and one that is guessed at the start, as far as there are
/// any.
fn with_guessed(
    workspace: &mut FlowWorkspace,
    site: &Site<'_>,
    start: &Node,
    best: Option<Network>,
) -> Option<Network>
    requires own { IsFor site.now workspace.old.evaluator }
    requires sound { IsSound (shape_of site.now) (node_of start.now) }
    requires passes { ClaimPasses true site.now (claim_with best) }
    ensures passes { ClaimPasses true site.now (claim_with result) }
    ensures fallen { HasFallen (cost_of best) (cost_of result) }
    ensures own { IsFor site.now workspace.new.evaluator }
    ensures makers { workspace.new.makers ≡ workspace.old.makers }
{
    let node = *start;
    let units = units_of(&best);
    match workspace
        .evaluator
        .guessed_network(workspace.alloc, site, node, units)
    {
        Ok(found) => cheaper(best, found),
        Err(_) => best,
    }
}

/// Searches without charges, with a budget of few nodes.
fn search_few<W: Watch>(
    workspace: &mut FlowWorkspace,
    site: &Site<'_>,
    start: &Node,
    watch: &mut W,
    best: Option<Network>,
) -> Found
    requires own { IsFor site.now workspace.old.evaluator }
    requires makers { AreMakersOf (shape_of site.now) workspace.old.makers.makers }
    requires sound { IsSound (shape_of site.now) (node_of start.now) }
    requires passes { ClaimPasses true site.now (claim_with best) }
    ensures found { IsFound site.now (node_of start.now) 300 result }
    ensures against { IsAgainst best result }
    ensures own { IsFor site.now workspace.new.evaluator }
    ensures makers { workspace.new.makers.makers ≡ workspace.old.makers.makers }
{
    let node = *start;
    workspace.evaluator.pass_first_charges(u32::MAX);
    match look_at_root(workspace, site, node, FEW_NODES, best) {
        Ok(root) => run(workspace, site, root, watch),
        Err(_) => Found::Memory,
    }
}

/// Searches the structures of the family of a node as [`search_with`] does. If the budget is not
/// small, charges are not proposed at first. If the search has not ended after a few hundred nodes,
/// it starts anew: with all of the budget, with the best network so far or a cheaper one, and with
/// charges from the first leaf on.
pub fn search_flows<W: Watch>(
    workspace: &mut FlowWorkspace,
    site: &Site<'_>,
    start: Node,
    effort: Effort<W>,
    best: Option<Network>,
) -> Found
    requires own { IsFor site.now workspace.old.evaluator }
    requires makers { AreMakersOf (shape_of site.now) workspace.old.makers.makers }
    requires sound { IsSound (shape_of site.now) (node_of start) }
    requires some { 1 ≤ effort.budget }
    requires passes { ClaimPasses true site.now (claim_with best) }
    ensures found { IsFound site.now (node_of start) effort.budget result }
    ensures against { IsAgainst best result }
    ensures makers { workspace.new.makers.makers ≡ workspace.old.makers.makers }
{
    let budget = effort.budget;
    if budget <= FEW_NODES {
        return search_with(workspace, site, start, effort, best);
    }
    let mut watch = effort.watch;
    let first = search_few(workspace, site, &start, &mut watch, best);
    match first {
        Found::Spent { best, .. } => {
            workspace.evaluator.pass_first_charges(0);
            let best = with_guessed(workspace, site, &start, best);
            search_with(workspace, site, start, Effort { budget, watch }, best)
        }
        Found::Solved { network, tree } => Found::Solved { network, tree },
        Found::Infeasible { tree } => Found::Infeasible { tree },
        Found::Past {
            best,
            tree,
            node,
            nonbasic,
            place,
        } => Found::Past {
            best,
            tree,
            node,
            nonbasic,
            place,
        },
        Found::Memory => Found::Memory,
    }
}
