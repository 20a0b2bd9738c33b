//! Whole trees.
ghost use Rattle.std.specs.Prelude.{◌≡◌};
ghost use Rattle.tree_rules.specs.Tree.{IsTree};

use crate::node::TreeNode;
use std::marker::Model;

/// The nodes of a branch tree in preorder. The root has no option. After each node that is branched
/// come as many subtrees as it has children, at least one.
#[derive(Drop)]
pub struct Tree {
    nodes: Vec<TreeNode>,
}

impl Model for Tree {
    ghost use Rattle.tree_rules.specs.Tree.{IsTree};
    ghost use Rattle.tree_rules.specs.Accepted as rules;

    ghost Value = { rules.Tree };

    ghost view = { λ t. t.nodes.items };

    ghost invariant = { λ t. IsTree t.nodes.items };
}

impl Tree {
    /// The tree of these nodes.
    pub fn from_nodes(nodes: Vec<TreeNode>) -> Tree
        requires tree { IsTree nodes.items }
        ensures { result ≡ nodes.items }
    {
        Tree { nodes }
    }

    /// The nodes in preorder.
    pub fn nodes(&self) -> &[TreeNode]
        ensures { result.now ≡ self.now }
    {
        &self.nodes
    }

    /// The nodes, given back.
    pub fn into_nodes(self) -> Vec<TreeNode>
        ensures { result.items ≡ self }
    {
        self.nodes
    }

    /// The nodes are one whole tree. A call gives this to a proof, and does nothing.
    pub fn is_tree(&self)
        ensures { IsTree self.now }
    {
        let _count = self.nodes.len();
    }
}
