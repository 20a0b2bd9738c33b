//! A node of a tree that grows.
use branch_tree::{End, Node, Steps, UnitSet};
use std::marker::Model;

/// A node of a tree that grows.
#[derive(Drop)]
pub struct Cell {
    /// The units that are taken in as one option of the parent's material.
    pub option: UnitSet,
    /// The steps that follow from them.
    pub steps: Steps,
    /// The node after the steps.
    pub node: Node,
    /// The number of the first child, if the node is branched.
    pub first: u32,
    /// How the node ends.
    pub end: End,
    /// The key under which a search stores the data of an open leaf.
    pub key: usize,
}

impl Model for Cell {
    ghost use Rattle.branch_tree.specs.View.{end_of};
    ghost use Rattle.search_tree.specs.Cells as rules;

    ghost Value = { rules.Cell };

    ghost view = { λ c. record {
      option = c.option;
      steps = c.steps;
      node = c.node;
      first =
          c.first;
      end = end_of c.end;
      key = c.key;
    } };
}
