//! The union of all solution structures, after the maximal structure generation of Friedler,
//! Tarjan, Huang and Fan (1993), and viability.
ghost use Rattle.std.specs.Prelude.{◌≡◌, ◌+◌, ◌↔◌, ℕ, Bool, false, IsTrue, IfSome, IfNone};
ghost use Rattle.pgraph.specs.number_sets.Sets.{has, Avoids};
ghost use Rattle.pgraph.specs.pns_rules.Structure.{Meets, IsBetween, IsUnion};
ghost use Rattle.pgraph.specs.Tables.{shape};

use crate::balance::balanced;
use crate::steps::Steps;
use pgraph::{Graph, UnitSet};
use std::sync::ledger::Ledger;

/// The union of all solution structures, clash-free or not, that avoid `without`; it is one of
/// them. `None` exactly if there is none. It takes no memory.
pub fn maximal(graph: &Graph, without: UnitSet) -> Option<UnitSet>
    ensures union { IfSome result (λ s. IsUnion (shape graph.now) (has without) (has s)) }
    ensures structure { IfSome result
        (λ s. IsBetween (shape graph.now) (λ _. false) (has without) (has s)) }
    ensures none { IfNone result
        ((m o : ℕ → Bool) → Meets (shape graph.now) m o → Avoids o (has without) → ⊥) }
{
    graph.is_proper();
    let all = UnitSet::below(graph.unit_count()).minus(without);
    let kept = balanced(graph, all);
    let set = graph.reaching(kept);
    if graph.breaking_s1(set).is_empty() {
        Some(set)
    } else {
        None
    }
}

/// Whether some solution structure, clash-free or not, contains `inside` and avoids `outside`. It
/// counts one step, and takes no memory.
pub fn viable<L: Ledger>(
    graph: &Graph,
    inside: UnitSet,
    outside: UnitSet,
    steps: &mut Steps<L>,
) -> bool
    ensures viable { IsTrue result
        ↔ ((o : ℕ → Bool) × IsBetween (shape graph.now) (has inside) (has outside) o) }
    ensures counted { steps.new ≡ steps.old + 1 }
{
    steps.tick();
    match maximal(graph, outside) {
        Some(set) => inside.within(set),
        None => false,
    }
}
