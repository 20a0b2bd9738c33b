//! Sets of units of which each structure of a node has one.
ghost use Rattle.std.specs.Prelude.{◌≡◌, ◌<◌, ◌↔◌, ◌||◌, ℕ, Bool, true, false, IsTrue, IfSome};
ghost use Rattle.structure_list.specs.number_sets.Sets.{has};
ghost use Rattle.structure_list.specs.pns_rules.Structure.{IsBetween};
ghost use Rattle.structure_list.specs.pgraph.Tables.{shape};
ghost use Rattle.structure_list.specs.pgraph.View.{node_of};
ghost use Rattle.structure_list.specs.flow_rules.Cover.{Covers, IsCover, IsFree, is_beside};
ghost use Rattle.structure_list.specs.pgraph.CoversView.{cover_of};

use structure_list::{Cover, Graph, Node, UnitSet, maximal};

/// Whether no solution structure, clash-free or not, contains `inside` and avoids `outside`.
fn none_between(graph: &Graph, inside: UnitSet, outside: UnitSet) -> bool
    ensures { IsTrue result
        ↔ ((o : ℕ → Bool) → IsBetween (shape graph.now) (has inside) (has outside) o → ⊥) }
{
    match maximal(graph, outside) {
        Some(set) => !inside.within(set),
        None => true,
    }
}

/// The set with a unit beside it.
fn with_beside(set: UnitSet, beside: Option<u32>) -> UnitSet
    requires { IfSome beside (λ u. u < 128) }
    ensures { (u : ℕ) → has result u ≡ (is_beside beside u || has set u) }
{
    match beside {
        Some(u) => set.with(u),
        None => set,
    }
}

/// Whether each solution structure of the node, clash-free or not, that has the unit beside the set
/// has a unit of the set. It takes no memory.
pub fn covers_node(graph: &Graph, node: &Node, cover: &Cover) -> bool
    requires { IfSome cover.now.beside (λ u. u < 128) }
    ensures { IsTrue result ↔ Covers (shape graph.now) (node_of node.now) (cover_of cover.now) }
{
    none_between(
        graph,
        with_beside(node.inside, cover.beside),
        node.outside.union(cover.units),
    )
}

/// Whether the node has the unit, and it is neither taken in nor left out.
pub fn is_free(graph: &Graph, node: &Node, u: u32) -> bool
    ensures { IsTrue result ↔ IsFree (shape graph.now) (node_of node.now) u }
{
    graph.is_proper();
    u < graph.unit_count() && !node.inside.has(u) && !node.outside.has(u)
}

/// Whether each unit of the set is free at the node.
fn are_free(graph: &Graph, node: &Node, units: UnitSet) -> bool
    ensures { IsTrue result
        ↔ ((u : ℕ) → has units u ≡ true → IsFree (shape graph.now) (node_of node.now) u) }
{
    graph.is_proper();
    let free = UnitSet::below(graph.unit_count())
        .minus(node.inside)
        .minus(node.outside);
    units.within(free)
}

/// Whether a unit beside the set is free at the node and not in it.
fn is_apart(graph: &Graph, node: &Node, cover: &Cover) -> bool
    ensures { IsTrue result
        ↔ (IfSome cover.now.beside (IsFree (shape graph.now) (node_of node.now))
        × IfSome cover.now.beside (λ u. has cover.now.units u ≡ false)) }
{
    graph.is_proper();
    match cover.beside {
        Some(u) => is_free(graph, node, u) && !cover.units.has(u),
        None => true,
    }
}

/// Whether the set and the unit beside it have the form of a cover: they are free units of the
/// node, the set is not empty, and the unit beside it is not one of it.
pub fn is_cover(graph: &Graph, node: &Node, cover: &Cover) -> bool
    ensures { IsTrue result ↔ IsCover (shape graph.now) (node_of node.now) (cover_of cover.now) }
{
    cover.units.rises();
    !cover.units.is_empty() && are_free(graph, node, cover.units) && is_apart(graph, node, cover)
}
