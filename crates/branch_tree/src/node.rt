//! The nodes of a tree.
use crate::end::End;
use crate::steps::Steps;
use pgraph::UnitSet;
use std::marker::Model;

/// A node: the units that are taken in as one option of the parent's branch, the steps that follow
/// from them, and the end.
#[derive(Drop)]
pub struct TreeNode {
    pub option: UnitSet,
    pub steps: Steps,
    pub end: End,
}

impl Model for TreeNode {
    ghost use Rattle.tree_rules.specs.Tree as rules;
    ghost use Rattle.tree_rules.specs.Leaf.{Leaf};
    ghost use Rattle.branch_tree.specs.View.{end_of};

    ghost Value = { rules.TreeNode Leaf };

    ghost view = { λ t. record { option = t.option; steps = t.steps; end = end_of t.end } };
}
