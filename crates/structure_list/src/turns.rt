//! The positions after a turn.
ghost use Rattle.std.specs.Prelude.{◌≡◌, ◌+◌, true, false, IfSome, IfNone};
ghost use Rattle.pgraph.specs.number_sets.Sets.{has};
ghost use Rattle.pgraph.specs.pns_rules.Structure.{is_needed};
ghost use Rattle.pgraph.specs.Tables.{shape};
ghost use Rattle.structure_list.specs.MaxRest.{IsRest};
ghost use Rattle.structure_list.specs.Position.{IsTurn};
ghost use Rattle.structure_list.specs.Tight.{kept_units, IsTight, IsSide, IsForced};

use crate::{Decided, Position, Steps, Turn, left_out, without_unit};
use pgraph::{Graph, Node, UnitSet};
use std::sync::ledger::Ledger;

/// The units that the node does not leave out.
fn kept_at(graph: &Graph, node: Node) -> UnitSet
    ensures { has result ≡ kept_units (shape graph.now) node }
{
    graph.is_proper();
    UnitSet::below(graph.unit_count()).minus(node.outside)
}

/// The position at which the unit of the turn is left out, and with it all that is not kept without
/// it.
fn left_with(graph: &Graph, turn: &Turn, kept: UnitSet, rest: UnitSet) -> Position
    requires turn { IsTurn (shape graph.now) turn.now }
    requires tight { IsTight (shape graph.now) turn.now.position.decided.node }
    requires kept { has kept ≡ kept_units (shape graph.now) turn.now.position.decided.node }
    requires rest { IsRest (shape graph.now)
        (is_needed (shape graph.now) (has turn.now.position.decided.node.inside)) (has kept)
        turn.now.unit (has rest) }
    ensures side { IsSide (shape graph.now) turn.now false result }
    ensures inside { result.decided.node.inside ≡ turn.now.position.decided.node.inside }
{
    graph.is_proper();
    let Position {
        decided,
        wanted,
        at,
    } = turn.position;
    let gone = kept.minus(rest);
    let node = Node {
        inside: decided.node.inside,
        outside: decided.node.outside.union(gone),
    };
    Position {
        decided: Decided {
            node,
            done: decided.done,
        },
        wanted,
        at,
    }
}

/// The position at which the unit of the turn is left out; `None` exactly if there is no structure
/// without it.
pub(crate) fn leaving(graph: &Graph, turn: &Turn) -> Option<Position>
    requires turn { IsTurn (shape graph.now) turn.now }
    requires tight { IsTight (shape graph.now) turn.now.position.decided.node }
    ensures side { IfSome result (IsSide (shape graph.now) turn.now false) }
    ensures inside { IfSome result
        (λ p. p.decided.node.inside ≡ turn.now.position.decided.node.inside) }
    ensures forced { IfNone result (IsForced (shape graph.now) turn.now) }
{
    graph.is_proper();
    let kept = kept_at(graph, turn.position.decided.node);
    let Some(rest) = without_unit(graph, kept, turn.position.wanted, turn.unit) else {
        return None;
    };
    Some(left_with(graph, turn, kept, rest))
}

/// What `leaving` answers. It counts one step.
pub(crate) fn leaving_counted<L: Ledger>(
    graph: &Graph,
    turn: &Turn,
    steps: &mut Steps<L>,
) -> Option<Position>
    requires turn { IsTurn (shape graph.now) turn.now }
    requires tight { IsTight (shape graph.now) turn.now.position.decided.node }
    ensures side { IfSome result (IsSide (shape graph.now) turn.now false) }
    ensures inside { IfSome result
        (λ p. p.decided.node.inside ≡ turn.now.position.decided.node.inside) }
    ensures forced { IfNone result (IsForced (shape graph.now) turn.now) }
    ensures counted { steps.new ≡ steps.old + 1 }
{
    graph.is_proper();
    let kept = kept_at(graph, turn.position.decided.node);
    let Some(rest) = left_out(graph, kept, turn.position.wanted, turn.unit, steps) else {
        return None;
    };
    Some(left_with(graph, turn, kept, rest))
}

/// The position at which the unit of the turn is taken in. It has some structure, clash-free or
/// not, so it needs no test.
pub(crate) fn taking(graph: &Graph, turn: &Turn) -> Position
    requires turn { IsTurn (shape graph.now) turn.now }
    requires tight { IsTight (shape graph.now) turn.now.position.decided.node }
    ensures side { IsSide (shape graph.now) turn.now true result }
{
    graph.is_proper();
    turn.taking(graph)
}
