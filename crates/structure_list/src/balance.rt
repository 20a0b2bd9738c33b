//! Leaving out the units that no solution structure can have, until a material has a maker exactly
//! if it is not raw.
ghost use Rattle.std.specs.Prelude.{◌≡◌, ◌<◌, ◌↔◌, ◌&&◌, ℕ, Bool, true, not, IsTrue};
ghost use Rattle.pgraph.specs.number_sets.Sets.{has, IsWithin, Avoids};
ghost use Rattle.pgraph.specs.pns_rules.Structure.{Meets};
ghost use Rattle.pgraph.specs.pns_rules.Ends.{IsNever};
ghost use Rattle.pgraph.specs.Tables.{shape};
ghost use Rattle.pgraph.specs.pns_rules.Breaks.{BreaksS2};
ghost use Rattle.structure_list.specs.Balance.{is_to_blame};

use pgraph::{Graph, UnitSet};

fn is_broken(graph: &Graph, set: UnitSet, x: u32) -> bool
    requires { x < (shape graph.now).materials }
    ensures { IsTrue result ↔ BreaksS2 (shape graph.now) (has set) x }
{
    graph.is_proper();
    let is_made = graph.is_made(set, x);
    if graph.raws().has(x) {
        is_made
    } else {
        !is_made && graph.is_used(set, x)
    }
}

/// The units that no solution structure has if S2 is broken at the material, in a set that contains
/// all structures.
fn to_blame(graph: &Graph, x: u32) -> UnitSet
    requires { x < (shape graph.now).materials }
    ensures { has result ≡ is_to_blame (shape graph.now) x }
{
    graph.is_proper();
    if graph.raws().has(x) {
        graph.producers(x)
    } else {
        graph.consumers(x)
    }
}

/// The units of the set without which S2 is not broken at the material. There are none if it is not
/// broken.
fn to_leave_out(graph: &Graph, set: UnitSet, x: u32) -> UnitSet
    requires { x < (shape graph.now).materials }
    ensures within { IsWithin (has result) (has set) }
    ensures keeps { (m o : ℕ → Bool) → Meets (shape graph.now) m o → IsWithin o (has set)
        → Avoids o (has result) }
    ensures settles { (rest : ℕ → Bool) → ((u : ℕ) → rest u ≡ (has set u && not (has result u)))
        → BreaksS2 (shape graph.now) rest x → ⊥ }
{
    if is_broken(graph, set, x) {
        set.meet(to_blame(graph, x))
    } else {
        UnitSet::empty()
    }
}

/// The units of the set that are left when the units to blame have gone, material by material,
/// until S2 is broken nowhere. A unit that goes can break S2 at its outputs alone. So each material
/// is looked at once, and once more for each of its makers that goes.
pub fn balanced(graph: &Graph, set: UnitSet) -> UnitSet
    requires { (u : ℕ) → has set u ≡ true → u < (shape graph.now).units }
    ensures within { IsWithin (has result) (has set) }
    ensures balanced { IsNever (BreaksS2 (shape graph.now) (has result)) }
    ensures keeps { (m o : ℕ → Bool) → Meets (shape graph.now) m o → IsWithin o (has set)
        → IsWithin o (has result) }
{
    graph.is_proper();
    let mut left = set;
    let mut waiting = graph.breaking_s2(set);
    'leave: loop {
        let Some(x) = waiting.least() else {
            return left;
        };
        let gone = to_leave_out(graph, left, x);
        let next = left.minus(gone);
        let more = waiting.without(x).union(graph.made(gone));
        left.rises();
        next.rises();
        waiting.rises();
        more.rises();
        left = next;
        waiting = more;
    }
}
