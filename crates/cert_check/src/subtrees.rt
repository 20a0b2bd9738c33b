//! The ends of subtrees, so that the children of a node are found without a walk through what is
//! between them.
ghost use Rattle.std.specs.Prelude.{◌≡◌, ◌≤◌, length, drop, IfOk, OnOk};
ghost use Rattle.tree_text_rules.specs.tree_rules.Tree as trees;
ghost use Rattle.cert_check.specs.Subtrees.{AreEnds};

use branch_tree::TreeNode;
use charges::UnitSet;
use std::alloc::{AllocError, Global};

/// What follows a node: the list of the tree's nodes from a place on, and the end of the subtree of
/// each node.
#[derive(Clone, Copy)]
pub struct Behind<'a> {
    pub nodes: &'a [TreeNode],
    pub ends: &'a [usize],
    pub from: usize,
}

/// The place after this many subtrees.
fn past(nodes: &[TreeNode], ends: &[usize], from: usize, count: u32) -> usize
    requires same { length ends.now ≡ length nodes.now }
    requires within { from ≤ length nodes.now }
    requires are { AreEnds nodes.now ends.now from }
    ensures behind { drop result nodes.now ≡ trees.skip count (drop from nodes.now) }
    ensures within { result ≤ length nodes.now }
    ensures later { from ≤ result }
{
    let mut at = from;
    let mut left = count;
    'over: while left > 0 && at < nodes.len() {
        at = ends[at];
        left -= 1;
    }
    at
}

/// The end of the subtree of each node. It is filled from the last node on, and each end is skipped
/// once, so the time is linear.
pub(crate) fn ends_of(alloc: Global, nodes: &[TreeNode]) -> Result<Vec<usize>, AllocError>
    ensures same { IfOk result (λ v. length v.items ≡ length nodes.now) }
    ensures ends { IfOk result (λ v. AreEnds nodes.now v.items 0) }
{
    let mut ends = vec![in alloc; 0usize; nodes.len()]?;
    let mut i = nodes.len();
    'back: while i > 0 {
        i -= 1;
        let node = &nodes[i];
        let end = past(nodes, &ends, i + 1, node.end.children());
        ends[i] = end;
    }
    Ok(ends)
}

/// Puts the options of the roots of the first subtrees from a place on into `found`, in place of
/// what was in it.
pub(crate) fn roots(
    nodes: &[TreeNode],
    ends: &[usize],
    from: usize,
    count: u32,
    found: &mut Vec<UnitSet>,
) -> Result<(), AllocError>
    requires same { length ends.now ≡ length nodes.now }
    requires within { from ≤ length nodes.now }
    requires are { AreEnds nodes.now ends.now 0 }
    ensures { OnOk result (found.new.items ≡ trees.roots count (drop from nodes.now)) }
{
    found.clear();
    let mut at = from;
    let mut left = count;
    'over: while left > 0 && at < nodes.len() {
        let node = &nodes[at];
        found.push(node.option)?;
        at = ends[at];
        left -= 1;
    }
    Ok(())
}
