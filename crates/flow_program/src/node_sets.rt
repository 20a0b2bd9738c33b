//! The sets of a node's program.
ghost use Rattle.std.specs.Prelude.{◌≡◌, ◌<◌, ℕ, true};
ghost use Rattle.pgraph.specs.number_sets.Sets.{has};
ghost use Rattle.pgraph.specs.Tables.{shape};
ghost use Rattle.pgraph.specs.View.{node_of};
ghost use Rattle.flow_program.specs.NodeSets.{AreSetsOf};

use pgraph::{Graph, MatSet, Node, UnitSet};

/// The units of the program, its rows, and the materials that have to be there: the products and
/// the materials of the units that are taken in.
#[derive(Clone, Copy)]
pub struct NodeSets {
    pub units: UnitSet,
    pub rows: MatSet,
    pub needed: MatSet,
}

/// The sets of a node's program.
pub fn sets_of(graph: &Graph, node: &Node) -> NodeSets
    requires { (u : ℕ) → has node.now.inside u ≡ true → u < (shape graph.now).units }
    ensures { AreSetsOf (shape graph.now) (node_of node.now) result.units result.rows
        result.needed }
{
    graph.is_proper();
    let units = UnitSet::below(graph.unit_count()).minus(node.outside);
    units.rises();
    let rows = graph.materials(units);
    rows.rises();
    let needed = graph.products().union(graph.materials(node.inside));
    NodeSets {
        units,
        rows,
        needed,
    }
}
