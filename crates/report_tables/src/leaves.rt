//! The refuted leaves of a tree.
ghost use Rattle.std.specs.Prelude.{◌≡◌, ◌<◌, ◌^◌, ◌∷◌, [], map, length, flat_map, slice_get};
ghost use Rattle.std.specs.Prelude.{◌++◌, IfOk, OnOk};
ghost use Rattle.cert_check.specs.pns_rules.Shape.{shape_of};
ghost use Rattle.cert_check.specs.tree_rules.Accepted.{first_node};
ghost use Rattle.cert_check.specs.tree_text_rules.OpenLeaves.{open_leaves};
ghost use Rattle.cert_check.specs.OpenLeaves.{leaf_at, leaves_at};
ghost use Rattle.report_amounts.specs.report_rules.Clash.{refuted_leaves};
ghost use Rattle.report_tables.specs.Opened.{opened_node, is_refuted, ys_in, refuted_at};
ghost use Rattle.report_tables.specs.View.{leaves_of};

use crate::opened::opened;
use cert_check::{End, Node, OpenLeaf, Site, Tree, TreeNode, UnitSet, check_nodes};
use std::alloc::{AllocError, Global};

/// All leaves with their nodes. Of an accepted tree the checker refuses no copy, so there is an
/// error only if there is no memory.
fn all_leaves(alloc: Global, site: &Site<'_>, tree: &Tree) -> Result<Vec<OpenLeaf>, AllocError>
    requires few { length tree.now < 2 ^ 32 }
    ensures { IfOk result
        (λ v. leaves_at v.items
        ≡ open_leaves (shape_of site.now) (first_node ∷ []) (map opened_node tree.now) 0) }
{
    let start = Node {
        inside: UnitSet::empty(),
        outside: UnitSet::empty(),
    };
    let copy = opened(alloc, tree)?;
    match check_nodes(alloc, site, &start, None, &copy) {
        Ok(leaves) => Ok(leaves),
        Err(_) => Err(AllocError),
    }
}

/// The multipliers of the node of this number, if it ends in a refuted leaf, else none.
pub(crate) fn multipliers_at(nodes: &[TreeNode], number: u32) -> &[i128]
    ensures { result.now ≡ ys_in (slice_get nodes.now number) }
{
    match nodes.get(number as usize) {
        Some(node) => match &node.end {
            End::Refuted(ys) => ys.numbers(),
            _ => &[],
        },
        None => &[],
    }
}

/// Whether the leaf is refuted.
fn is_refuted(nodes: &[TreeNode], leaf: &OpenLeaf) -> bool
    ensures { result ≡ is_refuted (slice_get nodes.now leaf.now.number) }
{
    match nodes.get(leaf.number as usize) {
        Some(node) => matches!(node.end, End::Refuted(_)),
        None => false,
    }
}

/// Appends the leaf if it is refuted.
fn push_refuted(
    found: &mut Vec<OpenLeaf>,
    nodes: &[TreeNode],
    leaf: &OpenLeaf,
) -> Result<(), AllocError>
    ensures { OnOk result
        (leaves_of nodes.now found.new.items
        ≡ leaves_of nodes.now found.old.items ++ refuted_at nodes.now (leaf_at leaf.now)) }
{
    if !is_refuted(nodes, leaf) {
        return Ok(());
    }
    found.push(*leaf)?;
    Ok(())
}

fn refuted_among(
    alloc: Global,
    nodes: &[TreeNode],
    leaves: &[OpenLeaf],
) -> Result<Vec<OpenLeaf>, AllocError>
    ensures { IfOk result
        (λ v. leaves_of nodes.now v.items
        ≡ flat_map (refuted_at nodes.now) (leaves_at leaves.now)) }
{
    let mut found = Vec::new(alloc);
    'leaves: for leaf in leaves {
        push_refuted(&mut found, nodes, leaf)?;
    }
    Ok(found)
}

/// The refuted leaves in preorder: the number of each among all nodes, and the node that its steps
/// leave.
pub(crate) fn refuted_leaves(
    alloc: Global,
    site: &Site<'_>,
    tree: &Tree,
) -> Result<Vec<OpenLeaf>, AllocError>
    requires few { length tree.now < 2 ^ 32 }
    ensures { IfOk result
        (λ v. leaves_of tree.now v.items
        ≡ refuted_leaves (shape_of site.now) (first_node ∷ []) tree.now 0) }
{
    let leaves = all_leaves(alloc, site, tree)?;
    refuted_among(alloc, tree.nodes(), &leaves)
}
