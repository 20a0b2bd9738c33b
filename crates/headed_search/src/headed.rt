//! Networks with a head and a tree that prove them.
ghost use Rattle.std.specs.Prelude.{◌≤◌, ℕ, Bool, IfSome};
ghost use Rattle.tree_parts.specs.pns_rules.Shape.{shape_of};
ghost use Rattle.tree_parts.specs.pns_rules.Structure.{IsStructure, IsAllowed};
ghost use Rattle.tree_parts.specs.tree_rules.Claim as claims;
ghost use Rattle.tree_parts.specs.tree_rules.Costs.{CostsEnough};
ghost use Rattle.tree_parts.specs.tree_rules.Headed.{head_node};
ghost use Rattle.tree_parts.specs.tree_rules.HeadKnown.{KnowsHead};
ghost use Rattle.tree_parts.specs.tree_rules.HeadedProved.{IsProvedBy};
ghost use Rattle.headed_search.specs.Lean.{IsLeanFor};

use crate::guess_head;
use crate::inner::{Candidate, search_capped};
use crate::numbers::knows_lines;
use std::alloc::Global;
use tree_parts::{
    Claim, CostOver, Effort, Head, Network, Site, Tree, Watch, check_headed, is_sound, judge_head,
};

/// A network of least cost, with the head and the tree that prove it.
#[derive(Drop)]
pub struct Headed {
    pub network: Network,
    pub head: Head,
    pub tree: Tree,
}

/// The network with the head and the tree, if these prove it.
fn checked(alloc: Global, site: &Site<'_>, head: Head, found: Candidate) -> Option<Headed>
    requires known { KnowsHead site.now head }
    requires lean { IsLeanFor site.now (head_node site.now head) (claims.network found.network)
        found.tree }
    ensures proved { IfSome result
        (λ h. IsProvedBy site.now (claims.network h.network) h.head h.tree) }
    ensures least { IfSome result
        (λ h. (s : ℕ → Bool) → IsStructure (shape_of site.now) s → IsAllowed (shape_of site.now) s
        → CostsEnough site.now (claims.claimed_cost (claims.network h.network)) s) }
    ensures feasible { IfSome result (λ h. claims.IsFeasible site.now h.network) }
{
    let claim = Claim::Network(found.network);
    let tree = found.tree;
    match check_headed(alloc, site, &claim, &head, &tree) {
        Ok(()) => match claim {
            Claim::Network(network) => Some(Headed {
                network,
                head,
                tree,
            }),
            _ => None,
        },
        Err(_) => None,
    }
}

/// A network of least cost with a head and a tree that prove it, if they are found. The head is
/// guessed against the cost of a network that is known.
pub fn search_headed<W: Watch>(
    alloc: Global,
    site: &Site<'_>,
    effort: Effort<W>,
    best: Network,
) -> Option<Headed>
    requires some { 1 ≤ effort.budget }
    ensures proved { IfSome result
        (λ h. IsProvedBy site.now (claims.network h.network) h.head h.tree) }
    // With any flows, each clash-free solution structure costs at least as much as the network.
    ensures least { IfSome result
        (λ h. (s : ℕ → Bool) → IsStructure (shape_of site.now) s → IsAllowed (shape_of site.now) s
        → CostsEnough site.now (claims.claimed_cost (claims.network h.network)) s) }
    ensures feasible { IfSome result (λ h. claims.IsFeasible site.now h.network) }
{
    let Ok(lines) = guess_head(alloc, site, &best) else {
        return None;
    };
    // Without a line, a search without a head finds as much.
    if lines.is_empty() {
        return None;
    }
    if !knows_lines(site, &lines) {
        return None;
    }
    let claimed = CostOver {
        cost: best.cost(),
        d: best.d(),
    };
    let Ok(known) = judge_head(site, Some(claimed), &lines) else {
        return None;
    };
    if !is_sound(site.graph(), known.node) {
        return None;
    }
    let Some(found) = search_capped(alloc, site, &known, effort, best) else {
        return None;
    };
    checked(alloc, site, Head::from_vec(lines), found)
}
