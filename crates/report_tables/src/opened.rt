//! A copy of a tree in which each leaf is open.
ghost use Rattle.std.specs.Prelude.{◌≡◌, map, IfOk};
ghost use Rattle.cert_check.specs.branch_tree.View.{end_of};
ghost use Rattle.report_tables.specs.Opened.{opened_end, opened_node};

use cert_check::{End, Steps, Tree, TreeNode};
use std::alloc::{AllocError, Global};

fn opened_end(end: &End) -> End
    ensures { end_of result ≡ opened_end (end_of end.now) }
{
    match end {
        End::Branch { material, children } => End::Branch {
            material: *material,
            children: *children,
        },
        End::Either(unit) => End::Either(*unit),
        End::Dead(_)
        | End::Clash(_)
        | End::Refuted(_)
        | End::Bound(_)
        | End::Charge { .. }
        | End::Open(_) => End::Open(None),
    }
}

fn opened_node(alloc: Global, node: &TreeNode) -> Result<TreeNode, AllocError>
    ensures { IfOk result (λ t. t ≡ opened_node node.now) }
{
    let steps = node.steps.steps().to_vec(alloc)?;
    Ok(TreeNode {
        option: node.option,
        steps: Steps::from_vec(steps),
        end: opened_end(&node.end),
    })
}

fn opened_nodes(alloc: Global, nodes: &[TreeNode]) -> Result<Vec<TreeNode>, AllocError>
    ensures { IfOk result (λ v. v.items ≡ map opened_node nodes.now) }
{
    let mut copies = Vec::new(alloc);
    'copying: for node in nodes {
        let copy = opened_node(alloc, node)?;
        copies.push(copy)?;
    }
    Ok(copies)
}

/// The tree, but each of its leaves is open.
pub(crate) fn opened(alloc: Global, tree: &Tree) -> Result<Tree, AllocError>
    ensures { IfOk result (λ t. t ≡ map opened_node tree.now) }
{
    tree.is_tree();
    let nodes = opened_nodes(alloc, tree.nodes())?;
    Ok(Tree::from_nodes(nodes))
}
