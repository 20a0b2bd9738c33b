//! Tests of sets, and the sets of a node.
ghost use Rattle.std.specs.Prelude.{◌≡◌, ◌<◌, ◌↔◌, ℕ, true, false, IsTrue};
ghost use Rattle.tree_text_rules.specs.number_sets.Sets.{has, Avoids};
ghost use Rattle.tree_text_rules.specs.pns_rules.Nodes.{is_free};
ghost use Rattle.charges.specs.pgraph.Tables.{shape};
ghost use Rattle.charges.specs.pgraph.View.{node_of};

use charges::{Graph, MatSet, Node, UnitSet};

/// Whether no material is in both.
pub(crate) fn are_apart(a: MatSet, b: MatSet) -> bool
    ensures { IsTrue result ↔ Avoids (has a) (has b) }
{
    a.meet(b).is_empty()
}

/// Whether some material is in both.
pub(crate) fn have_common(a: MatSet, b: MatSet) -> bool
    ensures { IsTrue result ↔ ((x : ℕ) × (has a x ≡ true) × (has b x ≡ true)) }
{
    !a.meet(b).is_empty()
}

/// Whether the first set has a unit, and none that is in the second.
pub(crate) fn is_some_apart(a: UnitSet, b: UnitSet) -> bool
    ensures { IsTrue result ↔ (((u : ℕ) × (has a u ≡ true)) × Avoids (has a) (has b)) }
{
    !a.is_empty() && a.meet(b).is_empty()
}

/// Whether the unit is in the set, alone.
pub(crate) fn is_alone(set: UnitSet, u: u32) -> bool
    requires { u < 128 }
    ensures { IsTrue result ↔ ((has set u ≡ true) × ((v : ℕ) → has set v ≡ true → v ≡ u)) }
{
    set.rises();
    set == UnitSet::empty().with(u)
}

/// The units of the graph that are not left out.
pub(crate) fn units_left(graph: &Graph, node: &Node) -> UnitSet
    ensures { (u : ℕ) → (has result u ≡ true)
        ↔ ((u < (shape graph.now).units) × (has node.now.outside u ≡ false)) }
{
    graph.is_proper();
    UnitSet::below(graph.unit_count()).minus(node.outside)
}

/// The units of the graph that are neither taken in nor left out.
pub(crate) fn free_units(graph: &Graph, node: &Node) -> UnitSet
    ensures { (u : ℕ) → (has result u ≡ true)
        ↔ ((u < (shape graph.now).units)
        × (is_free (shape graph.now) (node_of node.now) u ≡ true)) }
{
    units_left(graph, node).minus(node.inside)
}
