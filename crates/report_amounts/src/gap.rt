//! The gap between the cost of a network and a lower bound.
ghost use Rattle.std.specs.Prelude.{◌≡◌, ◌++◌, pos, neg_ℤ, unsigned_abs, OnOk, string_bytes};
ghost use Rattle.report_rules.specs.integer_laws.Range.{InRange};
ghost use Rattle.report_rules.specs.Amounts.{quotient};
ghost use Rattle.report_rules.specs.Number.{times};
ghost use Rattle.report_rules.specs.Lower.{side, gap, gap_text};

use crate::amounts::quotient;
use crate::number::Number;
use flow_evaluator::Network;
use report_rules::LowerBound;
use std::alloc::AllocError;

/// A cost that is not 0 over its own size.
fn side(cost: i128) -> i128
    ensures value { result ≡ side cost }
    ensures in_range { InRange result }
{
    if cost < 0 { -1 } else { 1 }
}

/// The cost without its sign.
fn size_of(cost: i128) -> i128
    requires { InRange cost }
    ensures value { result ≡ pos (unsigned_abs cost) }
    ensures in_range { InRange result }
{
    if cost < 0 { -cost } else { cost }
}

/// What the network's sizes are over, turned below 0.
fn turned_d(network: &Network) -> i128
    ensures value { result ≡ neg_ℤ network.now.d }
    ensures in_range { InRange result }
{
    network.is_sized();
    -network.d()
}

/// The lower bound over the size of the network's cost, to be taken away.
fn low_part(network: &Network, low: &LowerBound) -> Number
    requires { network.now.cost ≡ pos 0 → ⊥ }
    ensures { result ≡ times (quotient low.now.cost low.now.d)
        (quotient (neg_ℤ network.now.d) (pos (unsigned_abs network.now.cost))) }
{
    network.is_sized();
    let size = size_of(network.cost());
    quotient(low.cost, low.d).times(&quotient(turned_d(network), size))
}

/// How far the network's cost is above the lower bound, over the size of that cost.
pub fn gap_above(network: &Network, low: &LowerBound) -> Number
    requires { network.now.cost ≡ pos 0 → ⊥ }
    ensures { result ≡ gap network.now low.now }
{
    quotient(side(network.cost()), 1).plus(&low_part(network, low))
}

/// Appends the gap in per cent, rounded up. Nothing is appended if the cost is 0, or if a number
/// that is formed for the gap has more than 127 bits.
#[tactic(auto, unfolding(report_rules::specs::Lower::gap_text))]
pub fn push_gap(text: &mut String, network: &Network, low: &LowerBound) -> Result<(), AllocError>
    ensures { OnOk result
        (string_bytes text.new ≡ string_bytes text.old ++ gap_text network.now low.now) }
{
    if network.cost() == 0 {
        return Ok(());
    }
    let thousandths = gap_above(network, low).times(&quotient(1000, 1));
    thousandths.push_gap(text)
}
