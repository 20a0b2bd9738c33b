//! Claims with their trees.
ghost use Rattle.std.specs.Prelude.{◌≡◌, ◌<◌, ◌^◌, ◌∷◌, [], ℕ, Bool, true, false, length, OnOk};
ghost use Rattle.std.specs.Prelude.{IfOk, IfErr};
ghost use Rattle.tree_text_rules.specs.pns_rules.Shape.{shape_of};
ghost use Rattle.tree_text_rules.specs.pns_rules.Structure.{IsStructure, IsAllowed};
ghost use Rattle.tree_text_rules.specs.tree_rules.Tree.{Pass};
ghost use Rattle.tree_text_rules.specs.tree_rules.Claim as rules;
ghost use Rattle.tree_text_rules.specs.tree_rules.Accepted.{first_node, Proves, IsAccepted};
ghost use Rattle.tree_text_rules.specs.tree_rules.Costs.{CostsEnough};
ghost use Rattle.charges.specs.pgraph.View.{node_of};
ghost use Rattle.branch_tree.specs.View.{claim_of};
ghost use Rattle.cert_check.specs.Known.{KnowsInside};
ghost use Rattle.cert_check.specs.Shown.{cost_over};
ghost use Rattle.tree_text_rules.specs.OpenLeaves.{open_leaves};
ghost use Rattle.cert_check.specs.Bare.{BarePasses, BareFails};
ghost use Rattle.cert_check.specs.OpenLeaves.{leaves_at, AreBefore};
ghost use Rattle.cert_check.specs.Refusals.{NamesFault, IsOkOrMemory, NamesClaim, NamesNode};
ghost use Rattle.tree_text_rules.specs.tree_rules.Refusals.{Refuses};

use crate::claim::{cost_of_claim, judge_claim};
use crate::open_leaf::OpenLeaf;
use crate::visit::Judge;
use crate::walk::{Stop, walk, walk_to};
use branch_tree::{Claim, Tree};
use charges::{CostOver, Facts, Node, Site, UnitSet};
use std::alloc::Global;
use tree_laws::{accepted_is_optimal, claim_has_one_fault, tree_has_one_fault};
use tree_text_rules::Refusal;

/// Judges the claim, and then the tree from the start, and gives the open leaves in preorder. In a
/// partial tree leaves may be open, and a claim of nothing passes.
pub fn check_from(
    alloc: Global,
    site: &Site<'_>,
    start: &Node,
    partial: bool,
    claim: &Claim,
    tree: &Tree,
) -> Result<Vec<OpenLeaf>, Refusal>
    requires known { KnowsInside (shape_of site.now) (node_of start.now) }
    requires few { length tree.now < 2 ^ 32 }
    // `Ok` comes only if the tree proves the claim. If it does, the only other answer is that there
    // is no memory.
    ensures proves { OnOk result
        (Proves partial site.now (node_of start.now) (claim_of claim.now) tree.now) }
    ensures accepts { Proves partial site.now (node_of start.now) (claim_of claim.now) tree.now
        → IsOkOrMemory result }
    ensures leaves { IfOk result
        (λ v. leaves_at v.items
        ≡ open_leaves (shape_of site.now) (node_of start.now ∷ []) tree.now 0) }
    // A refusal names the first fault. A first fault is named, unless there is no memory.
    ensures refuses { IfErr result
        (Refuses partial site.now (node_of start.now) (claim_of claim.now) tree.now) }
    ensures names_claim { NamesClaim partial site.now (claim_of claim.now) result }
    ensures names_node { NamesNode partial site.now (node_of start.now) (claim_of claim.now)
        tree.now result }
{
    claim_has_one_fault();
    tree_has_one_fault();
    tree.is_tree();
    let facts = Facts::own(site.problem());
    match judge_claim(site, claim, partial) {
        Ok(()) => {
            let judge = Judge {
                site,
                claimed: cost_of_claim(claim),
                facts: &facts,
                partial,
                bounds: true,
            };
            walk(alloc, &judge, start, tree.nodes())
        }
        Err(why) => Err(Refusal::Claim(why)),
    }
}

/// Judges the nodes of the tree in preorder from the start, against the cost that is to be
/// undercut, if there is one. Leaves may be open, and their bounds are not judged. What is given
/// are the open leaves in preorder; if a node fails, those before it.
pub fn check_nodes(
    alloc: Global,
    site: &Site<'_>,
    start: &Node,
    undercut: Option<CostOver>,
    tree: &Tree,
) -> Result<Vec<OpenLeaf>, Stop>
    requires known { KnowsInside (shape_of site.now) (node_of start.now) }
    requires few { length tree.now < 2 ^ 32 }
    ensures passes { OnOk result
        (Pass (shape_of site.now) (BarePasses site.now (cost_over undercut))
        (node_of start.now ∷ []) tree.now) }
    ensures leaves { IfOk result
        (λ v. leaves_at v.items
        ≡ open_leaves (shape_of site.now) (node_of start.now ∷ []) tree.now 0) }
    ensures fault { IfErr result
        (λ stop. NamesFault (shape_of site.now) (BarePasses site.now (cost_over undercut))
        (BareFails site.now (cost_over undercut)) (node_of start.now ∷ []) tree.now stop.refusal) }
    ensures before { IfErr result
        (λ stop. AreBefore (shape_of site.now) (node_of start.now ∷ []) tree.now stop.refusal
        (leaves_at stop.leaves.items)) }
{
    tree.is_tree();
    let facts = Facts::own(site.problem());
    let judge = Judge {
        site,
        claimed: undercut,
        facts: &facts,
        partial: true,
        bounds: false,
    };
    walk_to(alloc, &judge, start, tree.nodes())
}

/// Judges the claim, and then the nodes of the tree in preorder, at each its steps and then its
/// end.
pub fn check_tree(alloc: Global, site: &Site<'_>, claim: &Claim, tree: &Tree) -> Result<(), Refusal>
    requires few { length tree.now < 2 ^ 32 }
    // `Ok` comes only if the tree proves the claim. If it does, the only other answer is that there
    // is no memory.
    ensures accepted { OnOk result (IsAccepted site.now first_node (claim_of claim.now) tree.now) }
    ensures accepts { IsAccepted site.now first_node (claim_of claim.now) tree.now
        → IsOkOrMemory result }
    // A refusal names the first fault. A first fault is named, unless there is no memory.
    ensures refused { IfErr result
        (Refuses false site.now first_node (claim_of claim.now) tree.now) }
    ensures names_claim { NamesClaim false site.now (claim_of claim.now) result }
    ensures names_node { NamesNode false site.now first_node (claim_of claim.now) tree.now result }
    // With any flows, each clash-free solution structure costs at least what is claimed. If the
    // claim has no network, none has flows.
    ensures least { OnOk result
        ((s : ℕ → Bool) → IsStructure (shape_of site.now) s → IsAllowed (shape_of site.now) s
        → CostsEnough site.now (rules.claimed_cost (claim_of claim.now)) s) }
    // The network of a claim is clash-free and has flows of the claimed cost.
    ensures feasible { OnOk result
        ((w : rules.Network) → claim_of claim.now ≡ rules.network w → rules.IsFeasible site.now w) }
{
    site.problem();
    accepted_is_optimal();
    let start = Node {
        inside: UnitSet::empty(),
        outside: UnitSet::empty(),
    };
    match check_from(alloc, site, &start, false, claim, tree) {
        Ok(_) => Ok(()),
        Err(refusal) => Err(refusal),
    }
}
