//! Open leaves.
ghost use Rattle.std.specs.Prelude.{◌≡◌, ◌++◌, OnOk};
ghost use Rattle.charges.specs.pgraph.View.{node_of};
ghost use Rattle.branch_tree.specs.View.{end_of};
ghost use Rattle.tree_text_rules.specs.OpenLeaves.{open_here};
ghost use Rattle.cert_check.specs.OpenLeaves.{leaves_at};

use branch_tree::End;
use charges::Node;
use std::alloc::AllocError;

/// An open leaf of a tree: its number among all nodes, counted from 0 in preorder, and the node
/// that its steps leave.
#[derive(Clone, Copy, Debug, PartialEq, Eq)]
pub struct OpenLeaf {
    pub number: u32,
    pub node: Node,
}

/// Adds the node to the open leaves, if it ends in one.
pub(crate) fn note_end(
    leaves: &mut Vec<OpenLeaf>,
    number: u32,
    node: Node,
    end: &End,
) -> Result<(), AllocError>
    ensures { OnOk result
        (leaves_at leaves.new.items ≡ leaves_at leaves.old.items
        ++ open_here number (node_of node) (end_of end.now)) }
{
    match end {
        End::Open(_) => {
            leaves.push(OpenLeaf { number, node })?;
            Ok(())
        }
        _ => Ok(()),
    }
}
