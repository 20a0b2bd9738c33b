//! Branching in two at one unit: it goes in, or it goes out.
ghost use Rattle.std.specs.Prelude.{◌≡◌, ◌<◌, ◌↔◌, [], ◌∷◌, IsTrue};
ghost use Rattle.tree_text_rules.specs.pns_rules.Shape.{Shape};
ghost use Rattle.tree_text_rules.specs.tree_rules.Ways.{either, MayBranch, options_at, child_at};
ghost use Rattle.charges.specs.pgraph.Tables.{shape};
ghost use Rattle.charges.specs.pgraph.View.{node_of};

use crate::steps::is_free;
use charges::{Graph, Node, UnitSet};

/// Whether these are the two options of a unit: the unit alone, and nothing.
fn are_in_and_out(u: u32, found: &[UnitSet]) -> bool
    requires { u < 128 }
    ensures { IsTrue result ↔ (found.now ≡ (u ∷ []) ∷ [] ∷ []) }
{
    if found.len() != 2 {
        return false;
    }
    if found[0] != UnitSet::empty().with(u) {
        return false;
    }
    found[1].is_empty()
}

/// Whether the unit is one of the graph, neither taken in nor left out, and these are the options
/// of branching at it.
pub fn are_options_of_unit(graph: &Graph, node: &Node, u: u32, found: &[UnitSet]) -> bool
    ensures { IsTrue result
        ↔ (MayBranch (shape graph.now) (node_of node.now) (either u)
        × (found.now ≡ options_at (shape graph.now) (node_of node.now) (either u))) }
{
    graph.is_proper();
    if !is_free(graph, node, u) {
        return false;
    }
    are_in_and_out(u, found)
}

/// The child in which the unit is taken in.
pub fn with_unit(node: &Node, u: u32) -> Node
    requires { u < 128 }
    ensures { (g : Shape) → node_of result ≡ child_at g (node_of node.now) (either u) (u ∷ []) }
{
    Node {
        inside: node.inside.with(u),
        outside: node.outside,
    }
}

/// The child in which the unit is left out.
pub fn without_unit(node: &Node, u: u32) -> Node
    requires { u < 128 }
    ensures { (g : Shape) → node_of result ≡ child_at g (node_of node.now) (either u) [] }
{
    Node {
        inside: node.inside,
        outside: node.outside.with(u),
    }
}
