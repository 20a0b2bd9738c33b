//! What a network makes of a material less what it uses of it.
ghost use Rattle.std.specs.Prelude.{◌≡◌, ◌≢◌, ◌<◌, ◌+ℤ◌, ◌*ℤ◌, ℕ, pos, true, length};
ghost use Rattle.report_rules.specs.integer_laws.Range.{InRange};
ghost use Rattle.report_rules.specs.number_sets.Sets.{has};
ghost use Rattle.report_rules.specs.flow_rules.Net.{net_of};
ghost use Rattle.report_rules.specs.flow_rules.Flows.{balance};
ghost use Rattle.report_rules.specs.flow_rules.Steps.{AreInRange};
ghost use Rattle.report_rules.specs.flow_rules.FeasibleSteps.{units_at, balance_steps};
ghost use Rattle.report_rules.specs.tree_rules.Claim.{size_in};

use crate::sizes::size_at;
use flow_evaluator::{Network, Problem, rate_at};

/// What a unit of the size moves at the rate.
pub fn moved_at(rate: i64, size: i128) -> i128
    requires { rate ≢ pos 0 → InRange (rate *ℤ size) }
    ensures value { result ≡ rate *ℤ size }
    ensures in_range { InRange result }
{
    if rate == 0 { 0 } else { rate as i128 * size }
}

/// The sum with what a unit of the size moves at the rate.
fn with_unit(made: i128, rate: i64, size: i128) -> i128
    requires moved { rate ≢ pos 0 → InRange (rate *ℤ size) }
    requires total { rate ≢ pos 0 → InRange (made +ℤ rate *ℤ size) }
    ensures { result ≡ made +ℤ rate *ℤ size }
{
    if rate == 0 {
        made
    } else {
        made + moved_at(rate, size)
    }
}

/// What the network makes of the material less what it uses of it, in 10^-12 over its `d`. All sums
/// are in range if they were when its flows were judged.
pub fn flow_of(problem: &Problem, network: &Network, j: u32) -> i128
    requires known { (u : ℕ) → has network.now.units u ≡ true → u < length problem.now.units }
    requires steps { AreInRange
        (balance_steps (net_of problem.now) (size_in network.now) j
        (units_at (net_of problem.now) (has network.now.units) j) (pos 0)) }
    ensures value { result ≡ balance (net_of problem.now) (has network.now.units)
        (size_in network.now) j }
    ensures in_range { InRange result }
{
    let mut made = 0;
    for u in network.units() {
        made = with_unit(made, rate_at(problem, j, u), size_at(network, u));
    }
    made
}
