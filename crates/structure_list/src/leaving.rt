//! Leaving one unit out of a set in which S2 is broken nowhere.
ghost use Rattle.std.specs.Prelude.{◌≡◌, ◌<◌, ◌+◌, ℕ, true, false, IfSome, IfNone};
ghost use Rattle.pgraph.specs.number_sets.Sets.{has};
ghost use Rattle.pgraph.specs.pns_rules.Structure.{is_made};
ghost use Rattle.pgraph.specs.Tables.{shape};
ghost use Rattle.structure_list.specs.MaxRest.{IsKept, IsRest, HasNoRest, IsStarved};

use crate::steps::Steps;
use pgraph::{Graph, MatSet, UnitSet};
use std::sync::ledger::Ledger;

/// The units of the set that go if the material has no maker in it; none if it has one. `None` if
/// it is wanted and has none.
fn starved(graph: &Graph, left: UnitSet, wanted: MatSet, x: u32) -> Option<UnitSet>
    requires { x < (shape graph.now).materials }
    ensures starved { IfSome result
        (λ gone. IsStarved (shape graph.now) (has wanted) (has left) x (has gone)) }
    ensures wanted { IfNone result (has wanted x ≡ true) }
    ensures lost { IfNone result (is_made (shape graph.now) (has left) x ≡ false) }
{
    graph.is_proper();
    if graph.is_made(left, x) {
        Some(UnitSet::empty())
    } else if wanted.has(x) {
        None
    } else {
        Some(left.meet(graph.consumers(x)))
    }
}

/// The greatest set within `kept` and without `u` in which each material that is used and not raw
/// has a maker, if all that is wanted has one. `None` exactly if no solution structure within
/// `kept` and without `u` makes all that is wanted. Only the outputs of a unit that goes can lose
/// their last maker, so it looks at these alone. It ends as soon as one that is wanted has lost it.
/// It takes no memory.
pub fn without_unit(graph: &Graph, kept: UnitSet, wanted: MatSet, u: u32) -> Option<UnitSet>
    requires known { (v : ℕ) → has kept v ≡ true → v < (shape graph.now).units }
    requires there { has kept u ≡ true }
    requires kept { IsKept (shape graph.now) (has wanted) (has kept) }
    ensures rest { IfSome result (λ s. IsRest (shape graph.now) (has wanted) (has kept) u (has s)) }
    ensures none { IfNone result (HasNoRest (shape graph.now) (has wanted) (has kept) u) }
{
    graph.is_proper();
    let mut left = kept.without(u);
    let mut waiting = graph.outputs(u);
    'leave: loop {
        let Some(x) = waiting.least() else {
            return Some(left);
        };
        let Some(gone) = starved(graph, left, wanted, x) else {
            return None;
        };
        let next = left.minus(gone);
        let more = waiting.without(x).union(graph.made(gone));
        left.rises();
        next.rises();
        waiting.rises();
        more.rises();
        left = next;
        waiting = more;
    }
}

/// What `without_unit` answers. It counts one step.
pub fn left_out<L: Ledger>(
    graph: &Graph,
    kept: UnitSet,
    wanted: MatSet,
    u: u32,
    steps: &mut Steps<L>,
) -> Option<UnitSet>
    requires known { (v : ℕ) → has kept v ≡ true → v < (shape graph.now).units }
    requires there { has kept u ≡ true }
    requires kept { IsKept (shape graph.now) (has wanted) (has kept) }
    ensures rest { IfSome result (λ s. IsRest (shape graph.now) (has wanted) (has kept) u (has s)) }
    ensures none { IfNone result (HasNoRest (shape graph.now) (has wanted) (has kept) u) }
    ensures counted { steps.new ≡ steps.old + 1 }
{
    steps.tick();
    without_unit(graph, kept, wanted, u)
}
