//! What a node needs, and which units are left to make and to use it.
ghost use Rattle.std.specs.Prelude.{◌≡◌, ◌<◌, ◌↔◌, ℕ, true, false, IsTrue};
ghost use Rattle.tree_text_rules.specs.number_sets.Sets.{has};
ghost use Rattle.tree_text_rules.specs.pns_rules.Structure.{is_needed};
ghost use Rattle.tree_text_rules.specs.pns_rules.Ends.{IsDead};
ghost use Rattle.charges.specs.pgraph.Tables.{shape};
ghost use Rattle.charges.specs.pgraph.View.{node_of};

use charges::{Graph, Node, UnitSet};

/// Whether the material is a product, or an input of a unit of the set and not raw.
pub(crate) fn is_needed(graph: &Graph, set: UnitSet, x: u32) -> bool
    ensures { result ≡ is_needed (shape graph.now) (has set) x }
{
    graph.is_proper();
    x < graph.material_count()
        && (graph.products().has(x) || (!graph.raws().has(x) && graph.is_used(set, x)))
}

/// The units that make the material and are not left out.
pub(crate) fn makers_left(graph: &Graph, node: &Node, x: u32) -> UnitSet
    requires { x < (shape graph.now).materials }
    ensures { (u : ℕ) → (has result u ≡ true)
        ↔ (((shape graph.now).makes u x ≡ true) × (has node.now.outside u ≡ false)) }
{
    graph.producers(x).minus(node.outside)
}

/// The units that use the material and are not left out.
pub(crate) fn users_left(graph: &Graph, node: &Node, x: u32) -> UnitSet
    requires { x < (shape graph.now).materials }
    ensures { (u : ℕ) → (has result u ≡ true)
        ↔ (((shape graph.now).uses u x ≡ true) × (has node.now.outside u ≡ false)) }
{
    graph.consumers(x).minus(node.outside)
}

/// Whether the material is needed at the node and each of its makers is left out.
pub(crate) fn is_dead(graph: &Graph, node: &Node, x: u32) -> bool
    ensures { IsTrue result ↔ IsDead (shape graph.now) (node_of node.now) x }
{
    graph.is_proper();
    is_needed(graph, node.inside, x) && makers_left(graph, node, x).is_empty()
}
