//! The decision on one unit.
ghost use Rattle.std.specs.Prelude.{◌≡◌, ◌<◌};
ghost use Rattle.pgraph.specs.Tables.{shape};
ghost use Rattle.structure_list.specs.Position.{IsPosition, IsTurn, with_unit, without_unit};
ghost use Rattle.structure_list.specs.Position.{free_count};

use crate::decided::Decided;
use crate::position::Position;
use pgraph::{Graph, Node};

/// A unit that is to be decided, and the position at which it is.
#[derive(Clone, Copy, Debug, PartialEq, Eq)]
pub struct Turn {
    pub position: Position,
    pub unit: u32,
}

impl Turn {
    /// The position in which the unit is left out. Its structures come before those of `taking`.
    pub fn leaving(&self, graph: &Graph) -> Position
        requires { IsTurn (shape graph.now) self.now }
        ensures position { IsPosition (shape graph.now) result }
        ensures node { result.decided.node
            ≡ without_unit self.now.unit self.now.position.decided.node }
        ensures fewer { free_count (shape graph.now) result.decided.node
            < free_count (shape graph.now) self.now.position.decided.node }
    {
        graph.is_proper();
        let Position {
            decided,
            wanted,
            at,
        } = self.position;
        let node = Node {
            inside: decided.node.inside,
            outside: decided.node.outside.with(self.unit),
        };
        Position {
            decided: Decided {
                node,
                done: decided.done,
            },
            wanted,
            at,
        }
    }

    /// The position in which the unit is taken in.
    pub fn taking(&self, graph: &Graph) -> Position
        requires { IsTurn (shape graph.now) self.now }
        ensures position { IsPosition (shape graph.now) result }
        ensures node { result.decided.node
            ≡ with_unit self.now.unit self.now.position.decided.node }
        ensures fewer { free_count (shape graph.now) result.decided.node
            < free_count (shape graph.now) self.now.position.decided.node }
    {
        graph.is_proper();
        let Position {
            decided,
            wanted,
            at,
        } = self.position;
        let node = Node {
            inside: decided.node.inside.with(self.unit),
            outside: decided.node.outside,
        };
        let inputs = graph.inputs(self.unit).minus(graph.raws());
        Position {
            decided: Decided {
                node,
                done: decided.done,
            },
            wanted: wanted.union(inputs),
            at,
        }
    }
}
