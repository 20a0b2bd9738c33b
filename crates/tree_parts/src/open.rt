//! The open leaves of a tree.
ghost use Rattle.std.specs.Prelude.{◌≡◌, ◌<◌, ◌^◌, ◌∷◌, [], true, length, OnOk, IfOk, IfErr};
ghost use Rattle.tree_text_laws.specs.pns_rules.Shape.{shape_of};
ghost use Rattle.tree_text_laws.specs.tree_rules.Accepted.{first_node, IsPartial};
ghost use Rattle.tree_text_laws.specs.branch_tree.View.{claim_of};
ghost use Rattle.cert_check.specs.Known.{KnowsInside};
ghost use Rattle.tree_text_laws.specs.tree_text_rules.OpenLeaves.{open_leaves};
ghost use Rattle.cert_check.specs.OpenLeaves.{leaves_at};
ghost use Rattle.tree_text_laws.specs.tree_rules.Refusals.{Refuses};
ghost use Rattle.cert_check.specs.Refusals.{IsOkOrMemory, NamesClaim, NamesNode};
ghost use Rattle.tree_text_laws.specs.tree_text_rules.Part.{start_of};

use crate::part::Part;
use cert_check::{OpenLeaf, check_from};
use std::alloc::Global;
use tree_text_laws::{Claim, Node, Refusal, Site, Tree, UnitSet};

/// The open leaves of the tree in preorder, each with the node that its steps leave. Unless there
/// is no memory, `Ok` comes if and only if the tree proves its claim but for them. Else the refusal
/// names the first fault. If nothing is claimed, a bounded leaf is a fault.
pub fn open_leaves(
    alloc: Global,
    site: &Site<'_>,
    claim: &Claim,
    tree: &Tree,
) -> Result<Vec<OpenLeaf>, Refusal>
    requires few { length tree.now < 2 ^ 32 }
    ensures partial { OnOk result (IsPartial site.now first_node (claim_of claim.now) tree.now) }
    ensures opens { IsPartial site.now first_node (claim_of claim.now) tree.now
        → IsOkOrMemory result }
    ensures leaves { IfOk result
        (λ v. leaves_at v.items ≡ open_leaves (shape_of site.now) (first_node ∷ []) tree.now 0) }
    // A refusal names the first fault. A first fault is named, unless there is no memory.
    ensures refused { IfErr result
        (Refuses true site.now first_node (claim_of claim.now) tree.now) }
    ensures names_claim { NamesClaim true site.now (claim_of claim.now) result }
    ensures names_node { NamesNode true site.now first_node (claim_of claim.now) tree.now result }
{
    let start = Node {
        inside: UnitSet::empty(),
        outside: UnitSet::empty(),
    };
    check_from(alloc, site, &start, true, claim, tree)
}

/// Judges a part as `open_leaves` judges a tree, but from the node at which its run began.
pub fn check_part(alloc: Global, site: &Site<'_>, part: &Part) -> Result<(), Refusal>
    requires known { KnowsInside (shape_of site.now) (start_of part.now) }
    requires few { length part.now.tree < 2 ^ 32 }
    ensures partial { OnOk result
        (IsPartial site.now (start_of part.now) part.now.claim part.now.tree) }
    ensures passes { IsPartial site.now (start_of part.now) part.now.claim part.now.tree
        → IsOkOrMemory result }
    // A refusal names the first fault. A first fault is named, unless there is no memory.
    ensures refused { IfErr result
        (Refuses true site.now (start_of part.now) part.now.claim part.now.tree) }
    ensures names_claim { NamesClaim true site.now part.now.claim result }
    ensures names_node { NamesNode true site.now (start_of part.now) part.now.claim part.now.tree
        result }
{
    let start = part.start();
    match check_from(alloc, site, &start, true, part.claim(), part.tree()) {
        Ok(_) => Ok(()),
        Err(refusal) => Err(refusal),
    }
}
