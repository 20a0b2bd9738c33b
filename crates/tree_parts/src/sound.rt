//! Sound nodes.
ghost use Rattle.std.specs.Prelude.{◌≡◌, ◌<◌, ◌↔◌, ℕ, true, IsTrue};
ghost use Rattle.tree_text_laws.specs.number_sets.Sets.{has, Avoids};
ghost use Rattle.tree_text_laws.specs.pns_rules.Structure.{HasPath};
ghost use Rattle.tree_text_laws.specs.pns_rules.Ends.{IsSound};
ghost use Rattle.tree_text_laws.specs.pgraph.Tables.{shape};
ghost use Rattle.tree_text_laws.specs.pgraph.View.{node_of};

use tree_text_laws::{Graph, Node, UnitSet};

fn are_units(graph: &Graph, set: UnitSet) -> bool
    ensures { IsTrue result ↔ ((u : ℕ) → has set u ≡ true → u < (shape graph.now).units) }
{
    graph.is_proper();
    set.rises();
    set.within(UnitSet::below(graph.unit_count()))
}

fn are_apart(a: UnitSet, b: UnitSet) -> bool
    ensures { IsTrue result ↔ Avoids (has a) (has b) }
{
    a.meet(b).is_empty()
}

fn make_no_raw(graph: &Graph, set: UnitSet) -> bool
    requires { (u : ℕ) → has set u ≡ true → u < (shape graph.now).units }
    ensures { IsTrue result
        ↔ ((u x : ℕ) → has set u ≡ true → (shape graph.now).makes u x ≡ true
        → (shape graph.now).raw x ≡ true → ⊥) }
{
    graph.made(set).meet(graph.raws()).is_empty()
}

fn lead_to_products(graph: &Graph, set: UnitSet) -> bool
    ensures { IsTrue result ↔ ((u : ℕ) → has set u ≡ true → HasPath (shape graph.now) (has set) u) }
{
    set.within(graph.reaching(set))
}

/// Whether the node is sound. No unit is both taken in and left out. Those taken in are units of
/// the problem, none of them makes a raw material, and each has a path to a product through them.
/// It takes no memory.
pub fn is_sound(graph: &Graph, node: Node) -> bool
    ensures { IsTrue result ↔ IsSound (shape graph.now) (node_of node) }
{
    if !are_units(graph, node.inside) {
        return false;
    }
    if !are_apart(node.inside, node.outside) {
        return false;
    }
    if !make_no_raw(graph, node.inside) {
        return false;
    }
    lead_to_products(graph, node.inside)
}
