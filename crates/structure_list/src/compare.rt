//! The order of solution structures.
ghost use Rattle.std.specs.Prelude.{◌≡◌, ◌<◌, ◌↔◌, ℕ};
ghost use Rattle.pgraph.specs.number_sets.Sets.{has};
ghost use Rattle.pgraph.specs.pns_rules.Structure.{IsStructure};
ghost use Rattle.pgraph.specs.pns_rules.Trace.{IsBefore};
ghost use Rattle.pgraph.specs.Tables.{shape};
ghost use Rattle.structure_list.specs.Position.{IsPosition, IsWithinNode};

use crate::position::Position;
use pgraph::{Graph, UnitSet};
use std::cmp::Ordering;

/// Compares two solution structures by their traces. They are equal exactly if their units are.
pub fn compare_traces(graph: &Graph, a: UnitSet, b: UnitSet) -> Ordering
    requires a { IsStructure (shape graph.now) (has a) }
    requires b { IsStructure (shape graph.now) (has b) }
    ensures less { (result ≡ Ordering.Less) ↔ IsBefore (shape graph.now) (has a) (has b) }
    ensures greater { (result ≡ Ordering.Greater) ↔ IsBefore (shape graph.now) (has b) (has a) }
    ensures equal { (result ≡ Ordering.Equal) ↔ (a ≡ b) }
{
    a.rises();
    b.rises();
    compare_from(graph, Position::start(graph, UnitSet::empty()), a, b)
}

/// Compares two structures that agree on what is decided.
fn compare_from(graph: &Graph, position: Position, a: UnitSet, b: UnitSet) -> Ordering
    requires position { IsPosition (shape graph.now) position }
    requires a { IsWithinNode (shape graph.now) position.decided.node (has a) }
    requires b { IsWithinNode (shape graph.now) position.decided.node (has b) }
    ensures less { result ≡ Ordering.Less → IsBefore (shape graph.now) (has a) (has b) }
    ensures greater { result ≡ Ordering.Greater → IsBefore (shape graph.now) (has b) (has a) }
    ensures equal { result ≡ Ordering.Equal → (u : ℕ) → has a u ≡ has b u }
{
    graph.is_proper();
    let Some(turn) = position.turn(graph) else {
        return Ordering::Equal;
    };
    if a.has(turn.unit) {
        if b.has(turn.unit) {
            compare_from(graph, turn.taking(graph), a, b)
        } else {
            Ordering::Greater
        }
    } else if b.has(turn.unit) {
        Ordering::Less
    } else {
        compare_from(graph, turn.leaving(graph), a, b)
    }
}
