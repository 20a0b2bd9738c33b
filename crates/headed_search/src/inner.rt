//! The search of the plant with smaller units.
ghost use Rattle.std.specs.Prelude.{◌≤◌, true, IfSome};
ghost use Rattle.tree_parts.specs.pns_rules.Shape.{shape_of};
ghost use Rattle.tree_parts.specs.pns_rules.Ends.{IsSound};
ghost use Rattle.tree_parts.specs.tree_rules.Claim as claims;
ghost use Rattle.tree_parts.specs.tree_rules.Proved.{IsProved};
ghost use Rattle.tree_parts.specs.pgraph.View.{node_of};
ghost use Rattle.solver.specs.node_evaluation.Children.{claim_with};
ghost use Rattle.headed_search.specs.Lean.{IsLeanFor};

use crate::room::with_room;
use crate::{capped, recharged};
use solver::{Found, search_watched};
use std::alloc::Global;
use tree_parts::{
    Claim, Effort, Graph, Known, Network, Node, Site, Tree, Watch, capped_claim, capped_shape,
    check_claim, recharged_is_lean, recharged_is_tree, recharged_knows,
};

/// A network, with a tree that may prove that none costs less.
#[derive(Drop)]
pub(crate) struct Candidate {
    pub(crate) network: Network,
    pub(crate) tree: Tree,
}

/// The network, if the plant has it.
fn passing(site: &Site<'_>, network: Network) -> Option<Network>
    ensures { claims.ClaimPasses true site.now (claim_with result) }
{
    let claim = Claim::Network(network);
    match check_claim(site, &claim) {
        Ok(()) => match claim {
            Claim::Network(network) => Some(network),
            _ => None,
        },
        Err(_) => None,
    }
}

/// Searches the structures of the family of a node to the end, against the network if it passes.
fn search_site<W: Watch>(
    alloc: Global,
    site: &Site<'_>,
    start: Node,
    effort: Effort<W>,
    best: Network,
) -> Option<Candidate>
    requires sound { IsSound (shape_of site.now) (node_of start) }
    requires some { 1 ≤ effort.budget }
    ensures { IfSome result
        (λ c. IsProved site.now (node_of start) (claims.network c.network) c.tree) }
{
    let best = passing(site, best);
    match search_watched(alloc, site, start, effort, best) {
        Found::Solved { network, tree } => Some(Candidate { network, tree }),
        _ => None,
    }
}

/// Searches the plant with the sizes that are known, and gives its network and its tree with leaves
/// that charge.
pub(crate) fn search_capped<W: Watch>(
    alloc: Global,
    site: &Site<'_>,
    known: &Known,
    effort: Effort<W>,
    best: Network,
) -> Option<Candidate>
    requires sound { IsSound (shape_of site.now) (node_of known.now.node) }
    requires some { 1 ≤ effort.budget }
    ensures { IfSome result
        (λ c. IsLeanFor site.now (node_of known.now.node) (claims.network c.network) c.tree) }
{
    capped_shape();
    capped_claim();
    recharged_is_lean();
    recharged_knows();
    recharged_is_tree();
    let facts = with_room(&known.facts, &best);
    let Ok(plant) = capped(alloc, site.problem(), &facts) else {
        return None;
    };
    plant.is_valid();
    let Ok(graph) = Graph::of(alloc, &plant) else {
        return None;
    };
    let inner = Site::of(&plant, &graph);
    let Some(found) = search_site(alloc, &inner, known.node, effort, best) else {
        return None;
    };
    let Ok(tree) = recharged(alloc, found.tree) else {
        return None;
    };
    Some(Candidate {
        network: found.network,
        tree,
    })
}
