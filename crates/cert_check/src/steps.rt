//! Which steps are possible at a node.
ghost use Rattle.std.specs.Prelude.{◌≡◌, ◌<◌, ◌↔◌, ℕ, true, false, IsTrue};
ghost use Rattle.tree_text_rules.specs.number_sets.Sets.{has, IsWithin};
ghost use Rattle.tree_text_rules.specs.pns_rules.Nodes.{is_free, raw, rival, starve, loose, sole};
ghost use Rattle.tree_text_rules.specs.pns_rules.Nodes.{IsPossible};
ghost use Rattle.charges.specs.pgraph.Tables.{shape};
ghost use Rattle.charges.specs.pgraph.View.{node_of, step_of};

use crate::materials::{is_needed, makers_left, users_left};
use crate::sets::{are_apart, free_units, have_common, is_alone, is_some_apart, units_left};
use charges::{Graph, Node, Step, UnitSet};

/// Whether the unit is one of the graph, neither taken in nor left out.
pub(crate) fn is_free(graph: &Graph, node: &Node, u: u32) -> bool
    ensures { IsTrue result
        ↔ ((u < (shape graph.now).units)
        × (is_free (shape graph.now) (node_of node.now) u ≡ true)) }
{
    graph.is_proper();
    u < graph.unit_count() && !node.inside.has(u) && !node.outside.has(u)
}

/// Whether the unit, which is free, makes a raw material.
fn raw_is_possible(graph: &Graph, node: &Node, u: u32) -> bool
    ensures { IsTrue result ↔ IsPossible (shape graph.now) (node_of node.now) (raw u) }
{
    graph.is_proper();
    is_free(graph, node, u) && have_common(graph.outputs(u), graph.raws())
}

/// Whether the unit, which is free, shares an exclusion with one that is taken in.
fn rival_is_possible(graph: &Graph, node: &Node, u: u32) -> bool
    ensures { IsTrue result ↔ IsPossible (shape graph.now) (node_of node.now) (rival u) }
{
    graph.is_proper();
    is_free(graph, node, u) && graph.rivals(node.inside).has(u)
}

/// Whether the material is not raw, none of its makers is left, and some of its users are, none of
/// them taken in.
fn starve_is_possible(graph: &Graph, node: &Node, x: u32) -> bool
    ensures { IsTrue result ↔ IsPossible (shape graph.now) (node_of node.now) (starve x) }
{
    graph.is_proper();
    if x >= graph.material_count() {
        return false;
    }
    if graph.raws().has(x) {
        return false;
    }
    if !makers_left(graph, node, x).is_empty() {
        return false;
    }
    is_some_apart(users_left(graph, node, x), node.inside)
}

/// Whether the units are free, and none makes a product, or an input of another unit that is left.
fn loose_is_possible(graph: &Graph, node: &Node, set: UnitSet) -> bool
    ensures { IsTrue result ↔ IsPossible (shape graph.now) (node_of node.now) (loose set) }
{
    graph.is_proper();
    if set.is_empty() {
        return false;
    }
    if !set.within(free_units(graph, node)) {
        return false;
    }
    let others = units_left(graph, node).minus(set);
    let wanted = graph.products().union(graph.used(others));
    are_apart(graph.made(set), wanted)
}

/// Whether the material is needed, and the unit is the one maker that is left, and is not taken in.
fn sole_is_possible(graph: &Graph, node: &Node, x: u32, u: u32) -> bool
    ensures { IsTrue result ↔ IsPossible (shape graph.now) (node_of node.now) (sole x u) }
{
    graph.is_proper();
    if !is_free(graph, node, u) {
        return false;
    }
    if !is_needed(graph, node.inside, x) {
        return false;
    }
    is_alone(makers_left(graph, node, x), u)
}

/// Whether the step is possible at the node.
pub(crate) fn is_possible(graph: &Graph, node: &Node, step: &Step) -> bool
    ensures { IsTrue result ↔ IsPossible (shape graph.now) (node_of node.now) (step_of step.now) }
{
    match *step {
        Step::Raw(u) => raw_is_possible(graph, node, u),
        Step::Rival(u) => rival_is_possible(graph, node, u),
        Step::Starve(x) => starve_is_possible(graph, node, x),
        Step::Loose(set) => loose_is_possible(graph, node, set),
        Step::Sole { material, unit } => sole_is_possible(graph, node, material, unit),
    }
}
