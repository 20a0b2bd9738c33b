//! A search that looks for a head if it is not small.
ghost use Rattle.std.specs.Prelude.{◌≡◌, ◌≤◌, IfSome};
ghost use Rattle.tree_text.specs.pns_rules.Shape.{shape_of};
ghost use Rattle.tree_text.specs.pgraph.Tables.{shape};
ghost use Rattle.tree_text.specs.tree_rules.Claim.{network};
ghost use Rattle.command_files.specs.studio_rules.Solve.{SolvesBy};
ghost use Rattle.searches.specs.Solution.{IsSolution};

use crate::search_all;
use headed_search::{Effort, Found, Graph, Headed, Network, Problem, Site, Watch, search_headed};
use std::alloc::Global;

// A search that ends within so many nodes needs no head. They are enough for a first network, and
// for a better one after the search has begun to charge its leaves.
const FEW_NODES: u32 = 400;

/// What a search finds.
#[derive(Drop)]
pub enum Solution {
    /// What a search of all structures finds.
    Plain(Found),
    /// A network of least cost, which a head and a tree prove.
    WithHead(Headed),
}

/// A head and a tree that prove a network of least cost, if they are found.
fn head_for<W: Watch>(
    alloc: Global,
    problem: &Problem,
    graph: &Graph,
    effort: Effort<W>,
    best: Network,
) -> Option<Headed>
    requires graph { shape graph.now ≡ shape_of problem.now }
    requires some { 1 ≤ effort.budget }
    ensures { IfSome result (λ h. SolvesBy problem.now (network h.network) h.head h.tree) }
{
    search_headed(alloc, &Site::of(problem, graph), effort, best)
}

/// Looks for a head against the network, if there is one, and else searches all structures.
fn search_large<W: Watch>(
    alloc: Global,
    problem: &Problem,
    graph: &Graph,
    effort: Effort<W>,
    best: Option<Network>,
) -> Solution
    requires graph { shape graph.now ≡ shape_of problem.now }
    requires some { 1 ≤ effort.budget }
    requires few { effort.budget ≤ 1000000 }
    ensures { IsSolution problem.now effort.budget result }
{
    let Some(network) = best else {
        return Solution::Plain(search_all(alloc, problem, graph, effort));
    };
    let budget = effort.budget;
    let mut watch = effort.watch;
    let tried = Effort {
        budget,
        watch: &mut watch,
    };
    match head_for(alloc, problem, graph, tried, network) {
        Some(headed) => Solution::WithHead(headed),
        None => Solution::Plain(search_all(alloc, problem, graph, Effort { budget, watch })),
    }
}

/// Searches all structures of the problem. If a few nodes do not end the search, it looks first for
/// a head and a tree that prove a network of least cost.
pub fn search_best<W: Watch>(
    alloc: Global,
    problem: &Problem,
    graph: &Graph,
    effort: Effort<W>,
) -> Solution
    requires graph { shape graph.now ≡ shape_of problem.now }
    requires some { 1 ≤ effort.budget }
    requires few { effort.budget ≤ 1000000 }
    ensures { IsSolution problem.now effort.budget result }
{
    let budget = effort.budget;
    if budget <= FEW_NODES {
        return Solution::Plain(search_all(alloc, problem, graph, effort));
    }
    let mut watch = effort.watch;
    let few = Effort {
        budget: FEW_NODES,
        watch: &mut watch,
    };
    match search_all(alloc, problem, graph, few) {
        Found::Spent { best, .. } => {
            search_large(alloc, problem, graph, Effort { budget, watch }, best)
        }
        ended => Solution::Plain(ended),
    }
}
