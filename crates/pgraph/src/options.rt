//! The makers among which a node may choose.
ghost use Rattle.std.specs.Prelude.{◌≡◌, ◌<◌};
ghost use Rattle.flow_rules.specs.number_sets.Sets.{has, Avoids};
ghost use Rattle.flow_rules.specs.pns_rules.Nodes.{base_makers, free_makers};
ghost use Rattle.pgraph.specs.Tables.{shape};
ghost use Rattle.pgraph.specs.View.{node_of};

use crate::graph::Graph;
use unit_sets::{Node, UnitSet};

impl Graph {
    /// The base and the free makers of the material: those that the node has taken in, and those
    /// that it has neither taken in nor left out. The options of the material are the non-empty
    /// sets between the base and both together.
    pub fn options(&self, node: Node, x: u32) -> (UnitSet, UnitSet)
        requires { x < (shape self.now).materials }
        ensures base { result.0 ≡ base_makers (shape self.now) (node_of node) x }
        ensures free { result.1 ≡ free_makers (shape self.now) (node_of node) x }
        ensures apart { Avoids (has result.0) (has result.1) }
    {
        self.is_proper();
        let makers = self.producers(x);
        let base = makers.meet(node.inside);
        let free = makers.minus(node.inside).minus(node.outside);
        base.rises();
        free.rises();
        (base, free)
    }
}
