//! The lower bound of a tree with open leaves.
ghost use Rattle.std.specs.Prelude.{◌≡◌, ℕ, ◌∷◌, [], ◌<◌, IfSome, Some, length};
ghost use Rattle.report_rules.specs.pns_rules.Shape.{shape_of};
ghost use Rattle.tree_parts.specs.pgraph.View.{node_of};
ghost use Rattle.tree_parts.specs.branch_tree.View.{claim_of};
ghost use Rattle.report_rules.specs.tree_rules.Accepted.{first_node, IsPartial};
ghost use Rattle.report_rules.specs.tree_rules.Claim.{claimed_cost};
ghost use Rattle.report_rules.specs.tree_rules.Leaf.{IsLow, untried};
ghost use Rattle.report_rules.specs.tree_rules.Lower.{leaf_low, bound_over, least, lower_bound};
ghost use Rattle.tree_parts.specs.cert_check.Known.{KnowsInside};
ghost use Rattle.tree_parts.specs.cert_check.OpenLeaves.{leaf_at, leaves_at};
ghost use Rattle.report_rules.specs.tree_text_rules.OpenLeaves.{open_leaves};
ghost use Rattle.report_rules.specs.Verdict.{cost_of, known_cost};
ghost use Rattle.verdicts.specs.Lower.{as_low, low_at, IsFormedAt};

use report_rules::LowerBound;
use tree_parts::{Claim, CostOver, End, Node, OpenLeaf, Scaled, Site, Tree, bound_of};

/// The bound of a leaf by these multipliers.
fn bound_by(site: &Site<'_>, node: Node, low: &Scaled) -> LowerBound
    requires known { KnowsInside (shape_of site.now) (node_of node) }
    requires formed { IsLow site.now (node_of node) low.now }
    ensures { as_low (Some result) ≡ Some (Some (bound_over site.now (node_of node) low.now)) }
{
    low.are_in_range();
    let d = low.d();
    match bound_of(site.problem(), site.graph(), node, d, low.ys()) {
        Ok(cost) => LowerBound { cost, d },
        Err(_) => unreachable!(),
    }
}

/// The bound of an open leaf, if it has one.
fn leaf_bound(site: &Site<'_>, node: Node, low: &Option<Scaled>) -> Option<LowerBound>
    requires known { KnowsInside (shape_of site.now) (node_of node) }
    requires formed { IfSome low.now (IsLow site.now (node_of node)) }
    ensures { as_low result ≡ leaf_low site.now (node_of node) (untried low.now) }
{
    match low {
        None => None,
        Some(low) => Some(bound_by(site, node, low)),
    }
}

/// The bound of an open leaf of the tree, if it has one.
fn open_bound(site: &Site<'_>, tree: &Tree, leaf: &OpenLeaf) -> Option<LowerBound>
    requires { IsFormedAt site.now tree.now (leaf_at leaf.now) }
    ensures { as_low result ≡ low_at site.now tree.now (leaf_at leaf.now) }
{
    match tree.nodes().get(leaf.number as usize) {
        Some(node) => match &node.end {
            End::Open(low) => leaf_bound(site, leaf.node, low),
            _ => None,
        },
        None => None,
    }
}

fn cost_over(bound: &LowerBound) -> CostOver
    ensures cost { result.cost ≡ bound.now.cost }
    ensures d { result.d ≡ bound.now.d }
{
    CostOver {
        cost: bound.cost,
        d: bound.d,
    }
}

/// The lesser of two bounds, if both are known, whatever the size of their cross products.
fn least(first: Option<LowerBound>, second: Option<LowerBound>) -> Option<LowerBound>
    ensures { cost_of result ≡ least (cost_of first) (cost_of second) }
{
    let Some(first) = first else {
        return second;
    };
    let Some(second) = second else {
        return Some(first);
    };
    if cost_over(&first).is_no_more(&cost_over(&second)) {
        Some(first)
    } else {
        Some(second)
    }
}

/// The claimed cost, if the claim has a network.
fn claimed(claim: &Claim) -> Option<LowerBound>
    ensures { cost_of result ≡ claimed_cost (claim_of claim.now) }
{
    match claim {
        Claim::Network(network) => {
            network.is_sized();
            Some(LowerBound {
                cost: network.cost(),
                d: network.d(),
            })
        }
        Claim::Infeasible | Claim::Unknown => None,
    }
}

/// The lower bound of the tree, if all of its open leaves, which these are, have bounds: the least
/// of these and of the claimed cost. There is none either if no leaf is open and no cost is
/// claimed.
pub(crate) fn lower_bound(
    site: &Site<'_>,
    claim: &Claim,
    tree: &Tree,
    leaves: &[OpenLeaf],
) -> Option<LowerBound>
    requires partial { IsPartial site.now first_node (claim_of claim.now) tree.now }
    requires leaves { leaves_at leaves.now
        ≡ open_leaves (shape_of site.now) (first_node ∷ []) tree.now 0 }
    ensures { cost_of result
        ≡ known_cost (lower_bound site.now first_node (claim_of claim.now) tree.now) }
{
    let mut low = None;
    let mut at = leaves.len();
    'leaves: while at > 0 {
        at -= 1;
        let next = open_bound(site, tree, &leaves[at])?;
        low = least(Some(next), low);
    }
    least(claimed(claim), low)
}
