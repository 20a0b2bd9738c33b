//! The lower bound of a tree, judged for it alone.
ghost use Rattle.std.specs.Prelude.{◌≡◌, ◌<◌, ◌^◌, ◌∷◌, [], length, IfOk, OnOk};
ghost use Rattle.report_rules.specs.pns_rules.Shape.{shape_of};
ghost use Rattle.tree_parts.specs.branch_tree.View.{claim_of};
ghost use Rattle.report_rules.specs.tree_rules.Accepted.{first_node, IsPartial};
ghost use Rattle.report_rules.specs.tree_text_rules.OpenLeaves.{open_leaves};
ghost use Rattle.tree_parts.specs.cert_check.OpenLeaves.{leaves_at};
ghost use Rattle.tree_parts.specs.cert_check.Refusals.{IsOkOrMemory};
ghost use Rattle.report_rules.specs.RankLow.{IsLowerBound, AllCostEnough};

use crate::lower::lower_bound;
use report_rules::{LowerBound, Refusal};
use std::alloc::{AllocError, Global};
use tree_parts::{Claim, Node, OpenLeaf, Site, Tree, UnitSet, check_from, lower_bound_holds};

/// Judges the claim, and then the tree, whose leaves may be open, and gives the open leaves.
fn walked(
    alloc: Global,
    site: &Site<'_>,
    claim: &Claim,
    tree: &Tree,
) -> Result<Vec<OpenLeaf>, Refusal>
    requires few { length tree.now < 2 ^ 32 }
    ensures partial { OnOk result (IsPartial site.now first_node (claim_of claim.now) tree.now) }
    ensures leaves { IfOk result
        (λ v. leaves_at v.items
        ≡ open_leaves (shape_of site.now) (first_node ∷ []) tree.now 0) }
    ensures accepts { IsPartial site.now first_node (claim_of claim.now) tree.now
        → IsOkOrMemory result }
{
    let start = Node {
        inside: UnitSet::empty(),
        outside: UnitSet::empty(),
    };
    check_from(alloc, site, &start, true, claim, tree)
}

/// The lower bound of the tree, if the claim and all nodes pass but for open leaves, and if each of
/// these has a bound. `Err` comes only if there is no memory for the walk through the tree.
pub fn low_of(
    alloc: Global,
    site: &Site<'_>,
    claim: &Claim,
    tree: &Tree,
) -> Result<Option<LowerBound>, AllocError>
    requires few { length tree.now < 2 ^ 32 }
    ensures low { IfOk result (IsLowerBound site.now (claim_of claim.now) tree.now) }
    // No network costs less.
    ensures enough { IfOk result (AllCostEnough site.now) }
{
    site.problem();
    lower_bound_holds();
    match walked(alloc, site, claim, tree) {
        Ok(leaves) => Ok(lower_bound(site, claim, tree, &leaves)),
        Err(Refusal::Memory) => Err(AllocError),
        Err(Refusal::Claim(_) | Refusal::Node { .. }) => Ok(None),
    }
}
