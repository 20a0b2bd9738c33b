//! A search over the simplex method that runs to the end.
ghost use Rattle.std.specs.Prelude.{◌≡◌, ◌≤◌, true, Some};
ghost use Rattle.flow_evaluator.specs.pns_rules.Shape.{shape_of};
ghost use Rattle.flow_evaluator.specs.pns_rules.Ends.{IsSound};
ghost use Rattle.flow_evaluator.specs.pgraph.Tables.{shape};
ghost use Rattle.flow_evaluator.specs.pgraph.View.{node_of};
ghost use Rattle.flow_evaluator.specs.tree_rules.Claim.{IsFeasible, ClaimPasses};
ghost use Rattle.flow_evaluator.specs.node_evaluation.Children.{claim_with};
ghost use Rattle.rank_search.specs.abb_search.Answers.{IsAgainst};
ghost use Rattle.rank_search.specs.abb_search.Found.{IsFound};

use crate::anew::search_flows;
use crate::workspace::workspace_of;
use flow_evaluator::{Graph, Network, Node, Problem, Site};
use rank_search::{Effort, Found, NoWatch, Watch};
use std::alloc::Global;

/// Searches the structures of the family of a node as [`search`] does, or as [`search_against`]
/// if there is a network, and reports how far it is.
pub fn search_watched<W: Watch>(
    alloc: Global,
    site: &Site<'_>,
    start: Node,
    effort: Effort<W>,
    best: Option<Network>,
) -> Found
    requires sound { IsSound (shape_of site.now) (node_of start) }
    requires some { 1 ≤ effort.budget }
    requires passes { ClaimPasses true site.now (claim_with best) }
    ensures found { IsFound site.now (node_of start) effort.budget result }
    ensures against { IsAgainst best result }
{
    match workspace_of(alloc, site) {
        Ok(mut workspace) => search_flows(&mut workspace, site, start, effort, best),
        Err(_) => Found::Memory,
    }
}

/// Searches the structures of the family of a node for one whose flows are cheapest: what the turns
/// of a [`Search`] find.
pub fn search(alloc: Global, problem: &Problem, graph: &Graph, start: Node, budget: u32) -> Found
    requires graph { shape graph.now ≡ shape_of problem.now }
    requires sound { IsSound (shape_of problem.now) (node_of start) }
    requires some { 1 ≤ budget }
    ensures found { IsFound problem.now (node_of start) budget result }
{
    let effort = Effort {
        budget,
        watch: NoWatch,
    };
    search_watched(alloc, &Site::of(problem, graph), start, effort, None)
}

/// Searches the structures of the family of a node for one whose flows are cheaper than those of
/// the given network, which passes as a claim. It finds what the turns of a [`Search`] find that is
/// opened against it: that network or a cheaper one.
pub fn search_against(
    alloc: Global,
    problem: &Problem,
    graph: &Graph,
    start: Node,
    budget: u32,
    network: Network,
) -> Found
    requires graph { shape graph.now ≡ shape_of problem.now }
    requires sound { IsSound (shape_of problem.now) (node_of start) }
    requires some { 1 ≤ budget }
    requires passes { IsFeasible problem.now network }
    ensures found { IsFound problem.now (node_of start) budget result }
    ensures against { IsAgainst (Some network) result }
{
    let effort = Effort {
        budget,
        watch: NoWatch,
    };
    search_watched(
        alloc,
        &Site::of(problem, graph),
        start,
        effort,
        Some(network),
    )
}
