//! The open leaves of the tree, each judged by its mark.
ghost use Rattle.std.specs.Prelude.{◌≡◌, false, map, drop, Option, None, OnOk, IfErr};
ghost use Rattle.rank_laws.specs.tree_rules.Claim as rules;
ghost use Rattle.rank_laws.specs.pns_rules.Shape.{shape_of};
ghost use Rattle.cert_check.specs.pgraph.View.{node_of};
ghost use Rattle.cert_check.specs.Known.{KnowsInside};
ghost use Rattle.cert_check.specs.OpenLeaves.{leaves_at};
ghost use Rattle.rank_laws.specs.rank_rules.Leaf.{LeafPasses, LeafFails};
ghost use Rattle.rank_laws.specs.rank_rules.Marked.{marked_leaf, first_mark};
ghost use Rattle.rank_check.specs.View.{mark_of};
ghost use Rattle.rank_check.specs.Marks.{MarkFails, AreKnown, AllMarksPass, MarkIsFault};

use crate::Mark;
use crate::leaf::judge_numbered;
use cert_check::{Network, Node, OpenLeaf, Site};
use rank_laws::{RankWhy, Why};

/// Judges an open leaf at the node by its mark.
fn judge_mark(
    site: &Site<'_>,
    distinct: bool,
    networks: &[Network],
    node: &Node,
    mark: &Mark,
) -> Result<(), RankWhy>
    requires known { KnowsInside (shape_of site.now) (node_of node.now) }
    ensures passes { OnOk result
        ((undercut : Option rules.CostOver)
        → LeafPasses distinct false site.now networks.now undercut (node_of node.now)
        (marked_leaf None (mark_of mark.now))) }
    ensures fails { IfErr result
        (λ why. (undercut : Option rules.CostOver)
        → MarkFails (LeafFails distinct false site.now networks.now undercut) (node_of node.now)
        (mark_of mark.now) why) }
{
    match mark {
        Mark::Open => Err(RankWhy::Plain(Why::Open)),
        Mark::Named(name) => judge_numbered(site, distinct, networks, node, name),
    }
}

/// Judges an open leaf at the node by the mark at the place. A leaf without a mark is open.
fn judge_mark_at(
    site: &Site<'_>,
    distinct: bool,
    networks: &[Network],
    node: &Node,
    marks: &[Mark],
    at: usize,
) -> Result<(), RankWhy>
    requires known { KnowsInside (shape_of site.now) (node_of node.now) }
    ensures passes { OnOk result
        ((undercut : Option rules.CostOver)
        → LeafPasses distinct false site.now networks.now undercut (node_of node.now)
        (marked_leaf None (first_mark (drop at (map mark_of marks.now))))) }
    ensures fails { IfErr result
        (λ why. (undercut : Option rules.CostOver)
        → MarkFails (LeafFails distinct false site.now networks.now undercut) (node_of node.now)
        (first_mark (drop at (map mark_of marks.now))) why) }
{
    if at < marks.len() {
        let mark = &marks[at];
        judge_mark(site, distinct, networks, node, mark)
    } else {
        Err(RankWhy::Plain(Why::Open))
    }
}

/// Judges open leaves in turn, each by the mark at its place. If one fails, the number of its node
/// and the cause are given.
pub(crate) fn judge_marks(
    site: &Site<'_>,
    distinct: bool,
    networks: &[Network],
    leaves: &[OpenLeaf],
    marks: &[Mark],
) -> Result<(), (u32, RankWhy)>
    requires known { AreKnown site.now (leaves_at leaves.now) }
    ensures passes { OnOk result
        (AllMarksPass distinct site.now networks.now (leaves_at leaves.now)
        (map mark_of marks.now)) }
    ensures fails { IfErr result
        (λ found. MarkIsFault distinct site.now networks.now (leaves_at leaves.now)
        (map mark_of marks.now) found.0 found.1) }
{
    'judging: for i in 0..leaves.len() {
        let leaf = leaves[i];
        match judge_mark_at(site, distinct, networks, &leaf.node, marks, i) {
            Ok(()) => {}
            Err(why) => return Err((leaf.number, why)),
        }
    }
    Ok(())
}
