//! The value at which two networks cost the same, as a guess: nothing is promised of it, so a
//! search looks there.
ghost use Rattle.std.specs.Prelude.{◌≡◌, ◌<◌, ℕ, true};
ghost use Rattle.stability_laws.specs.number_sets.Sets.{has};
ghost use Rattle.stability_laws.specs.pns_rules.Shape.{shape_of};
ghost use Rattle.solver.specs.pgraph.Tables.{shape};
ghost use Rattle.stability_laws.specs.report_rules.Spot.{value_at, value_on, IsAllowedValue};
ghost use Rattle.stability.specs.Desk.{IsDesk};

use crate::case::Case;
use crate::costs::cost_in;
use crate::desk::Desk;
use solver::{Graph, Network, Problem, Watch, checked_difference, checked_product, lowest_terms};
use stability_laws::{Side, structures_stay};

/// How much more the second network costs in the problem than the first, over a common denominator.
fn lead(problem: &Problem, graph: &Graph, network: &Network, other: &Network) -> Option<i128>
    requires graph { shape graph.now ≡ shape_of problem.now }
    requires known { (u : ℕ) → has network.now.units u ≡ true → u < (shape graph.now).units }
    requires other_known { (u : ℕ) → has other.now.units u ≡ true → u < (shape graph.now).units }
{
    network.is_sized();
    other.is_sized();
    let (d, other_d) = lowest_terms(network.d(), other.d());
    let Ok(cost) = cost_in(problem, graph, network) else {
        return None;
    };
    let Ok(other_cost) = cost_in(problem, graph, other) else {
        return None;
    };
    match (
        checked_product(other_cost, d),
        checked_product(cost, other_d),
    ) {
        (Some(theirs), Some(ours)) => checked_difference(theirs, ours),
        _ => None,
    }
}

/// How often the lead can fall so far before it is below 0.
fn steps_of(lead: i128, next: i128) -> Option<u64> {
    let Some(fall) = checked_difference(lead, next) else {
        return None;
    };
    if lead < 0 || fall <= 0 {
        return None;
    }
    let steps = lead / fall;
    if steps <= 4_000_000_000_000_000 {
        Some(steps as u64)
    } else {
        None
    }
}

impl<'a> Case<'a> {
    /// How far away the other network is still no cheaper, on a side on which it is cheaper in the
    /// end.
    pub(crate) fn meeting<W: Watch>(
        &self,
        desk: &mut Desk<W>,
        side: Side,
        other: &Network,
    ) -> Option<u64>
        requires desk { IsDesk self.now desk.old }
        requires known { (u : ℕ) → has other.now.units u ≡ true
            → u < (shape_of self.now.problem).units }
        requires allowed { IsAllowedValue self.now.spot
            (value_on side (value_at self.now.problem self.now.spot) 1) }
        ensures { IsDesk self.now desk.new }
    {
        structures_stay();
        let Some(now) = lead(self.problem, self.graph, self.network, other) else {
            return None;
        };
        desk.set(self, self.value(side, 1));
        match lead(desk.problem(), self.graph, self.network, other) {
            Some(next) => steps_of(now, next),
            None => None,
        }
    }
}
