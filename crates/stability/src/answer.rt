//! The range.
ghost use Rattle.std.specs.Prelude.{◌≡◌, ◌≤◌, IfOk, IfErr};
ghost use Rattle.stability_laws.specs.tree_rules.Claim.{IsFeasible};
ghost use Rattle.stability_laws.specs.report_rules.Spot.{KnowsSpot, value_at};
ghost use Rattle.stability_laws.specs.report_rules.Range.{IsBestAt, IsRange};
ghost use Rattle.stability.specs.Desk.{IsDesk};
ghost use Rattle.stability.specs.Refusal.{IsRefusal};

use crate::case::Case;
use crate::desk::Desk;
use crate::outcome::{Range, RangeFault};
use solver::{Effort, Network, Site, Watch};
use stability_laws::{Side, Spot, best_between, present_stays};
use std::alloc::Global;

impl<'a> Case<'a> {
    /// The range of a network that is optimal now.
    fn both_sides<W: Watch>(&self, desk: &mut Desk<W>) -> Result<Range, RangeFault>
        requires desk { IsDesk self.now desk.old }
        requires best { IsBestAt self.now.problem self.now.spot self.now.network
            (value_at self.now.problem self.now.spot) }
        ensures range { IfOk result
            (λ r. IsRange self.now.problem self.now.spot self.now.network r.from r.to r.below
            r.above) }
        ensures refusal { IfErr result
            (IsRefusal self.now.problem self.now.spot self.now.network self.now.budget) }
    {
        best_between();
        self.is_known();
        let below = self.end(desk, Side::Below)?;
        let above = self.end(desk, Side::Above)?;
        Ok(Range {
            from: self.value(Side::Below, below.away),
            to: self.value(Side::Above, above.away),
            below: below.beyond,
            above: above.beyond,
        })
    }

    /// The range, or why there is none, over a desk with the present value.
    fn range<W: Watch>(&self, desk: &mut Desk<W>) -> Result<Range, RangeFault>
        requires problem { desk.old.problem ≡ self.now.problem }
        requires desk { IsDesk self.now desk.old }
        ensures range { IfOk result
            (λ r. IsRange self.now.problem self.now.spot self.now.network r.from r.to r.below
            r.above) }
        ensures refusal { IfErr result
            (IsRefusal self.now.problem self.now.spot self.now.network self.now.budget) }
    {
        self.is_known();
        present_stays();
        match self.probe_now(desk)? {
            None => self.both_sides(desk),
            Some(cheaper) => Err(RangeFault::NotBest(cheaper)),
        }
    }
}

/// The largest interval of allowed values of the spot, round the present one, at which the network
/// with its flows is optimal among the clash-free ones. Prices and proportional costs go from
/// -10^15 to 10^15 millionths, fixed costs from 0. The network passes as a claim. Each search has
/// the whole budget of nodes. `NotBest` comes with a network of least cost that is cheaper now.
/// `Spent` and `Past` come if a search stops at their value, which is the present one or far away.
/// `PastCost` comes if the network's cost overflows at a value far away. At a value far away the
/// network is known to be optimal half the way there.
/// to be optimal half the way there.
pub fn range<W: Watch>(
    alloc: Global,
    site: &Site<'_>,
    network: &Network,
    spot: Spot,
    effort: Effort<W>,
) -> Result<Range, RangeFault>
    requires passes { IsFeasible site.now network.now }
    requires known { KnowsSpot site.now spot }
    requires some { 1 ≤ effort.budget }
    ensures range { IfOk result
        (λ r. IsRange site.now spot network.now r.from r.to r.below r.above) }
    ensures refusal { IfErr result (IsRefusal site.now spot network.now effort.budget) }
{
    let case = Case::of(alloc, site, network, spot, effort.budget);
    let Ok(mut desk) = Desk::of(&case, effort.watch) else {
        return Err(RangeFault::Memory);
    };
    case.range(&mut desk)
}
