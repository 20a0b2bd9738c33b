//! The walk over a tree.
ghost use Rattle.std.specs.Prelude.{◌≡◌, ◌<◌, ◌^◌, ◌∷◌, [], length, OnOk, IfOk, IfErr};
ghost use Rattle.tree_text_rules.specs.pns_rules.Shape.{shape_of};
ghost use Rattle.tree_text_rules.specs.tree_rules.declared.refusal.Refusal.TheVariants as refusals;
ghost use Rattle.tree_text_rules.specs.tree_rules.Tree.{IsForest, Pass};
ghost use Rattle.charges.specs.pgraph.View.{node_of};
ghost use Rattle.cert_check.specs.Known.{KnowsInside};
ghost use Rattle.tree_text_rules.specs.OpenLeaves.{open_leaves};
ghost use Rattle.cert_check.specs.OpenLeaves.{leaves_at, AreBefore};
ghost use Rattle.cert_check.specs.Refusals.{NamesFault};
ghost use Rattle.cert_check.specs.Visits.{leaf_passes, leaf_fails, refusal_at};

use crate::open_leaf::{OpenLeaf, note_end};
use crate::subtrees::{Behind, ends_of};
use crate::visit::{Halt, Judge, visit};
use branch_tree::TreeNode;
use charges::Node;
use std::alloc::Global;
use tree_text_rules::Refusal;

/// A walk that stopped early: why, and the open leaves before that.
#[derive(Drop)]
pub struct Stop {
    pub refusal: Refusal,
    pub leaves: Vec<OpenLeaf>,
}

impl Stop {
    /// A walk that is out of memory.
    fn memory(leaves: Vec<OpenLeaf>) -> Stop
        ensures { result ≡ record { refusal = refusals.Memory; leaves = leaves } }
    {
        Stop {
            refusal: Refusal::Memory,
            leaves,
        }
    }

    /// A walk that halts at the node of this number.
    fn at(node: u32, halt: Halt, leaves: Vec<OpenLeaf>) -> Stop
        ensures { result ≡ record { refusal = refusal_at node halt; leaves = leaves } }
    {
        match halt {
            Halt::Memory => Stop::memory(leaves),
            Halt::Fails(why) => Stop {
                refusal: Refusal::Node { node, why },
                leaves,
            },
        }
    }
}

/// The number of a node.
fn number(i: usize) -> u32
    requires { i < 2 ^ 32 }
    ensures { result ≡ i }
{
    i as u32
}

/// Walks the tree in preorder from the node `start`, and stops at the first node that fails. It
/// gives the open leaves; if the walk stops, those before that.
pub(crate) fn walk_to(
    alloc: Global,
    judge: &Judge<'_>,
    start: &Node,
    nodes: &[TreeNode],
) -> Result<Vec<OpenLeaf>, Stop>
    requires known { KnowsInside (shape_of judge.now.site.now) (node_of start.now) }
    requires forest { IsForest 1 nodes.now }
    requires few { length nodes.now < 2 ^ 32 }
    ensures passes { OnOk result
        (Pass (shape_of judge.now.site.now) (leaf_passes judge.now) (node_of start.now ∷ [])
        nodes.now) }
    ensures leaves { IfOk result
        (λ v. leaves_at v.items
        ≡ open_leaves (shape_of judge.now.site.now) (node_of start.now ∷ []) nodes.now 0) }
    ensures fault { IfErr result
        (λ stop. NamesFault (shape_of judge.now.site.now) (leaf_passes judge.now)
        (leaf_fails judge.now) (node_of start.now ∷ []) nodes.now stop.refusal) }
    ensures before { IfErr result
        (λ stop. AreBefore (shape_of judge.now.site.now) (node_of start.now ∷ []) nodes.now
        stop.refusal (leaves_at stop.leaves.items)) }
{
    let mut leaves = Vec::new(alloc);
    let Ok(ends) = ends_of(alloc, nodes) else {
        return Err(Stop::memory(leaves));
    };
    let mut found = Vec::new(alloc);
    let mut stack = Vec::new(alloc);
    let Ok(()) = stack.push(*start) else {
        return Err(Stop::memory(leaves));
    };
    'walk: for i in 0..nodes.len() {
        let Some(node) = stack.pop() else {
            return Ok(leaves);
        };
        let item = &nodes[i];
        let behind = Behind {
            nodes,
            ends: &ends,
            from: i + 1,
        };
        let reached = match visit(judge, &node, item, &behind, &mut found, &mut stack) {
            Ok(reached) => reached,
            Err(halt) => return Err(Stop::at(number(i), halt, leaves)),
        };
        let Ok(()) = note_end(&mut leaves, number(i), reached, &item.end) else {
            return Err(Stop::memory(leaves));
        };
    }
    Ok(leaves)
}

/// The same. Of a walk that stops it only gives why.
pub(crate) fn walk(
    alloc: Global,
    judge: &Judge<'_>,
    start: &Node,
    nodes: &[TreeNode],
) -> Result<Vec<OpenLeaf>, Refusal>
    requires known { KnowsInside (shape_of judge.now.site.now) (node_of start.now) }
    requires forest { IsForest 1 nodes.now }
    requires few { length nodes.now < 2 ^ 32 }
    ensures passes { OnOk result
        (Pass (shape_of judge.now.site.now) (leaf_passes judge.now) (node_of start.now ∷ [])
        nodes.now) }
    ensures leaves { IfOk result
        (λ v. leaves_at v.items
        ≡ open_leaves (shape_of judge.now.site.now) (node_of start.now ∷ []) nodes.now 0) }
    ensures fault { IfErr result
        (NamesFault (shape_of judge.now.site.now) (leaf_passes judge.now) (leaf_fails judge.now)
        (node_of start.now ∷ []) nodes.now) }
{
    match walk_to(alloc, judge, start, nodes) {
        Ok(leaves) => Ok(leaves),
        Err(stop) => Err(stop.refusal),
    }
}
