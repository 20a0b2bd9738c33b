//! The search for the next clash-free structure.
ghost use Rattle.std.specs.Prelude.{◌≡◌, ◌+◌, ◌<◌, ◌≤◌, ◌++◌, ◌∷◌, ◌↔◌, [], ℕ, List, false, length};
ghost use Rattle.std.specs.Prelude.{IsTrue, IfSome, IfNone};
ghost use Rattle.pgraph.specs.number_sets.Sets.{has, IsRising};
ghost use Rattle.pgraph.specs.pns_rules.Structure.{IsStructure, IsAllowed, IsUnion};
ghost use Rattle.pgraph.specs.Tables.{shape};
ghost use Rattle.structure_list.specs.Position.{IsTurn, free_count, IsWithinNode};
ghost use Rattle.structure_list.specs.Rest.{IsUnderWay};
ghost use Rattle.structure_list.specs.Stack.{IsStack, Finds, weight};
ghost use Rattle.structure_list.specs.Start.{StartsAt, IsStart};

use crate::stack::Stack;
use crate::turns::{leaving, leaving_counted, taking};
use crate::{Position, Steps, maximal};
use pgraph::{Graph, UnitSet};
use std::sync::ledger::Ledger;

/// The position at which the units outside the maximal structure are left out. `None` exactly if
/// there is no structure.
fn start(graph: &Graph) -> Option<Position>
    ensures { StartsAt (shape graph.now) result }
{
    let Some(most) = maximal(graph, UnitSet::empty()) else {
        return None;
    };
    graph.is_proper();
    most.rises();
    let others = UnitSet::below(graph.unit_count()).minus(most);
    Some(Position::start(graph, others))
}

/// The turns not taken on the way to a structure, or the position of all structures.
pub(crate) fn stack_after(graph: &Graph, after: &Option<UnitSet>) -> Stack
    requires { IfSome after.now (λ s. IsStructure (shape graph.now) (has s)) }
    ensures { IsUnderWay (shape graph.now) result after.now }
{
    let Some(position) = start(graph) else {
        return Stack::new(Position::start(graph, UnitSet::empty()));
    };
    let mut stack = Stack::new(position);
    match after {
        None => stack.push(&position),
        Some(set) => follow(graph, &mut stack, &position, *set),
    }
    stack
}

/// Follows the turns of the structure. If the structure does not have the unit of a turn, the
/// position that takes it in goes on the stack.
fn follow(graph: &Graph, stack: &mut Stack, position: &Position, set: UnitSet)
    requires none { stack.old ≡ [] }
    requires start { IsStart (shape graph.now) position.now }
    requires structure { IsStructure (shape graph.now) (has set) }
    ensures { IsUnderWay (shape graph.now) stack.new (Some set) }
{
    graph.is_proper();
    let mut here = *position;
    'follow: loop {
        let Some(turn) = here.turn(graph) else {
            return;
        };
        if set.has(turn.unit) {
            here = taking(graph, &turn);
        } else {
            let Some(left) = leaving(graph, &turn) else {
                return;
            };
            let other = taking(graph, &turn);
            stack.push(&other);
            here = left;
        }
    }
}

/// The first clash-free structure of the positions of the stack, which is then left with the
/// others.
pub(crate) fn next_structure<L: Ledger>(
    graph: &Graph,
    stack: &mut Stack,
    steps: &mut Steps<L>,
) -> Option<UnitSet>
    requires stack { IsStack (shape graph.now) stack.old }
    ensures stack { IsStack (shape graph.now) stack.new }
    ensures finds { Finds (shape graph.now) stack.old result stack.new }
    ensures end { IfNone result (stack.new ≡ []) }
    ensures few_tests { (shape graph.now).exclusions ≡ 0 → (m : List ℕ) → IsRising m
        → IsUnion (shape graph.now) (λ _. false) (has m) → steps.new ≤ steps.old + length m }
{
    'pop: loop {
        let Some(position) = stack.pop() else {
            return None;
        };
        if is_allowed(graph, &position) {
            if let Some(set) = first_in(graph, stack, &position, steps) {
                return Some(set);
            }
        }
    }
}

/// The first clash-free structure of the position, which goes with the turns not taken on the
/// stack.
fn first_in<L: Ledger>(
    graph: &Graph,
    stack: &mut Stack,
    position: &Position,
    steps: &mut Steps<L>,
) -> Option<UnitSet>
    requires stack { IsStack (shape graph.now) (stack.old ++ position.now ∷ []) }
    requires allowed { IsAllowed (shape graph.now) (has position.now.decided.node.inside) }
    ensures stack { IsStack (shape graph.now) stack.new }
    ensures finds { Finds (shape graph.now) (stack.old ++ position.now ∷ []) result stack.new }
    ensures smaller { IfNone result
        (weight (shape graph.now) stack.new
        < weight (shape graph.now) (stack.old ++ position.now ∷ [])) }
    ensures surely { IfNone result ((shape graph.now).exclusions ≡ 0 → ⊥) }
    ensures few_tests { (shape graph.now).exclusions ≡ 0
        → steps.new ≤ steps.old + free_count (shape graph.now) position.now.decided.node }
{
    graph.is_proper();
    let mut here = *position;
    'descend: loop {
        let Some(turn) = here.turn(graph) else {
            return Some(here.decided.node.inside);
        };
        let taken = taking(graph, &turn);
        match leaving_counted(graph, &turn, steps) {
            Some(left) => {
                stack.push(&taken);
                here = left;
            }
            None => {
                // Each structure that is left has the unit.
                if !is_allowed(graph, &taken) {
                    return None;
                }
                here = taken;
            }
        }
    }
}

/// Whether no exclusion has two of the units that are taken in.
fn is_allowed(graph: &Graph, position: &Position) -> bool
    ensures { IsTrue result ↔ IsAllowed (shape graph.now) (has position.now.decided.node.inside) }
{
    match graph.clash(position.decided.node.inside) {
        None => true,
        Some(_) => false,
    }
}
