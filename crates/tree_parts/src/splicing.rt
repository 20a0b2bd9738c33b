//! Parts that are put in the places of their leaves, all in one pass.
ghost use Rattle.std.specs.Prelude.{◌≡◌, ◌≤◌, ◌<◌, ◌+◌, ◌++◌, length, reverse, IfOk, OnOk};
ghost use Rattle.tree_text_laws.specs.tree_text_rules.Graft as grafts;
ghost use Rattle.tree_parts.specs.Splices.{AreRising, spliced};
ghost use Rattle.tree_parts.specs.Waiting.{splices_of, AreWithin};

use crate::copies::grafted;
use crate::waiting::Waiting;
use std::alloc::{AllocError, Global};
use tree_text_laws::TreeNode;

// Moves the nodes after the first `keep` from the end of the one list to the other, the last first.
fn lay_back(
    nodes: &mut Vec<TreeNode>,
    back: &mut Vec<TreeNode>,
    keep: usize,
) -> Result<(), AllocError>
    requires { keep ≤ length nodes.old.items }
    ensures whole { OnOk result
        (nodes.new.items ++ reverse back.new.items ≡ nodes.old.items ++ reverse back.old.items) }
    ensures kept { OnOk result (length nodes.new.items ≡ keep) }
{
    'laying: while keep < nodes.len() {
        let Some(node) = nodes.pop() else {
            return Err(AllocError);
        };
        back.push(node)?;
    }
    Ok(())
}

// Moves all nodes that were laid back to the end of the list again.
fn give_back(nodes: &mut Vec<TreeNode>, back: Vec<TreeNode>) -> Result<(), AllocError>
    ensures { OnOk result (nodes.new.items ≡ nodes.old.items ++ reverse back.items) }
{
    let mut left = back;
    'giving: while let Some(node) = left.pop() {
        nodes.push(node)?;
    }
    Ok(())
}

// Puts the part in the place of its leaf. The nodes after the leaf are laid back.
fn put_in(
    alloc: Global,
    nodes: &mut Vec<TreeNode>,
    back: &mut Vec<TreeNode>,
    part: Waiting,
) -> Result<(), AllocError>
    requires within { part.place < length nodes.old.items }
    requires some { 0 < length part.nodes.items }
    ensures whole { OnOk result
        (nodes.new.items ++ reverse back.new.items
        ≡ grafts.graft_at part.place (nodes.old.items ++ reverse back.old.items) part.nodes.items) }
    ensures kept { OnOk result (length nodes.new.items ≡ part.place) }
{
    let mut other = part.nodes;
    lay_back(nodes, back, part.place as usize + 1)?;
    lay_back(&mut other, back, 1)?;
    let Some(leaf) = nodes.pop() else {
        return Err(AllocError);
    };
    let Some(root) = other.pop() else {
        return Err(AllocError);
    };
    let joined = grafted(alloc, &leaf, &root)?;
    back.push(joined)?;
    Ok(())
}

/// The nodes of the tree with all parts in the places of their leaves. Each node is moved at most
/// twice.
pub fn splice(
    alloc: Global,
    tree: Vec<TreeNode>,
    waiting: Vec<Waiting>,
) -> Result<Vec<TreeNode>, AllocError>
    requires rising { AreRising (splices_of waiting.items) }
    requires within { AreWithin (length tree.items) (splices_of waiting.items) }
    ensures { IfOk result (λ nodes. nodes.items ≡ spliced (splices_of waiting.items) tree.items) }
{
    let mut nodes = tree;
    let mut back = Vec::new(alloc);
    let mut left = waiting;
    'splicing: while let Some(part) = left.pop() {
        put_in(alloc, &mut nodes, &mut back, part)?;
    }
    give_back(&mut nodes, back)?;
    Ok(nodes)
}
