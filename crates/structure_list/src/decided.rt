//! The materials whose makers are decided.
ghost use Rattle.std.specs.Prelude.{◌≡◌, ◌<◌, ℕ, true, []};
ghost use Rattle.pgraph.specs.number_sets.Sets.{has, with_number, Avoids};
ghost use Rattle.pgraph.specs.pns_rules.Trace.{least_below};
ghost use Rattle.pgraph.specs.pns_rules.Nodes.{base_makers, free_makers, child};
ghost use Rattle.pgraph.specs.Tables.{shape};
ghost use Rattle.pgraph.specs.View.{node_of};
ghost use Rattle.structure_list.specs.Due.{is_due};

use pgraph::{Graph, MatSet, Node, UnitSet};

/// A node, and the materials whose makers are decided at it.
#[derive(Clone, Copy, Debug, PartialEq, Eq)]
pub struct Decided {
    pub node: Node,
    pub done: MatSet,
}

impl Decided {
    /// Nothing taken in, left out or done.
    pub fn start() -> Decided
        ensures inside { result.node.inside ≡ [] }
        ensures outside { result.node.outside ≡ [] }
        ensures done { result.done ≡ [] }
    {
        Decided {
            node: Node {
                inside: UnitSet::empty(),
                outside: UnitSet::empty(),
            },
            done: MatSet::empty(),
        }
    }

    /// The least needed material that is not done; `None` exactly if all needed materials are done.
    pub fn first_needed(&self, graph: &Graph) -> Option<u32>
        requires { (u : ℕ) → has self.now.node.inside u ≡ true → u < (shape graph.now).units }
        ensures { result ≡ least_below (shape graph.now).materials
            (is_due (shape graph.now) (has self.now.node.inside) (has self.now.done)) }
    {
        graph.is_proper();
        let due = graph.needed(self.node.inside).minus(self.done);
        due.rises();
        due.least()
    }

    /// The base and the free makers of the material: those that are taken in, and those that are
    /// neither taken in nor left out. Its options are the non-empty sets between the base and both
    /// together.
    pub fn options(&self, graph: &Graph, x: u32) -> (UnitSet, UnitSet)
        requires { x < (shape graph.now).materials }
        ensures base { result.0 ≡ base_makers (shape graph.now) (node_of self.now.node) x }
        ensures free { result.1 ≡ free_makers (shape graph.now) (node_of self.now.node) x }
        ensures apart { Avoids (has result.0) (has result.1) }
    {
        graph.options(self.node, x)
    }

    /// The child in which the set, an option of the material, is its makers: they are taken in, its
    /// other makers are left out, and it is done.
    pub fn decide(&self, graph: &Graph, x: u32, set: UnitSet) -> Decided
        requires { x < (shape graph.now).materials }
        ensures child { node_of result.node
            ≡ child (shape graph.now) (node_of self.now.node) x set }
        ensures done { result.done ≡ with_number x self.now.done }
    {
        graph.is_proper();
        Decided {
            node: Node {
                inside: self.node.inside.union(set),
                outside: self.node.outside.union(graph.producers(x).minus(set)),
            },
            done: self.done.with(x),
        }
    }
}
