//! The best networks, and the best plants that really differ, over the simplex method.
ghost use Rattle.std.specs.Prelude.{◌≡◌, ◌≤◌};
ghost use Rattle.flow_evaluator.specs.pns_rules.Shape.{shape_of};
ghost use Rattle.flow_evaluator.specs.pgraph.Tables.{shape};
ghost use Rattle.rank_search.specs.Ranked.{IsRankedTo};
ghost use Rattle.rank_search.specs.DistinctListed.{IsListedTo};

use crate::workspace::workspace_of;
use flow_evaluator::{Graph, Problem, Site};
use rank_search::{Effort, NoWatch, Ranked, Watch, alternatives_with, rank_with};
use std::alloc::Global;

/// Searches as [`rank`] does, and reports how far it is.
pub fn rank_watched<W: Watch>(
    alloc: Global,
    site: &Site<'_>,
    count: u32,
    effort: Effort<W>,
) -> Ranked
    requires asked { 1 ≤ count }
    requires some { 1 ≤ effort.budget }
    ensures { IsRankedTo site.now count effort.budget result }
{
    match workspace_of(alloc, site) {
        Ok(mut workspace) => rank_with(&mut workspace, site, count, effort),
        Err(_) => Ranked::Memory,
    }
}

/// Searches all structures of the problem for so many networks whose flows are cheapest, within a
/// budget of nodes, each bounded by the simplex method. The graph is that of the problem.
pub fn rank(alloc: Global, problem: &Problem, graph: &Graph, count: u32, budget: u32) -> Ranked
    requires graph { shape graph.now ≡ shape_of problem.now }
    requires asked { 1 ≤ count }
    requires some { 1 ≤ budget }
    ensures { IsRankedTo problem.now count budget result }
{
    let effort = Effort {
        budget,
        watch: NoWatch,
    };
    rank_watched(alloc, &Site::of(problem, graph), count, effort)
}

/// Searches all structures of the site's problem for the best plants that differ, at most so many,
/// within a budget of nodes, each bounded by the simplex method, and reports how far it is.
pub fn alternatives_watched<W: Watch>(
    alloc: Global,
    site: &Site<'_>,
    count: u32,
    effort: Effort<W>,
) -> Ranked
    requires asked { 1 ≤ count }
    requires some { 1 ≤ effort.budget }
    ensures { IsListedTo site.now count effort.budget result }
{
    match workspace_of(alloc, site) {
        Ok(mut workspace) => alternatives_with(&mut workspace, site, count, effort),
        Err(_) => Ranked::Memory,
    }
}
