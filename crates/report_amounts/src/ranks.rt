//! The place of a network in a ranking, and what it costs more than the first.
ghost use Rattle.std.specs.Prelude.{◌≡◌, ◌<◌, ◌+◌, ◌^◌, ◌*ℤ◌, pos, neg_ℤ, unsigned_abs};
ghost use Rattle.report_rules.specs.integer_laws.Range.{InRange};
ghost use Rattle.report_rules.specs.Amounts.{quotient};
ghost use Rattle.report_rules.specs.Ranked.{more_than, above_first, share_above};

use crate::amounts::quotient;
use crate::number::Number;
use flow_evaluator::{Network, Problem};

/// The place of the network of this number, counted from 0.
pub fn place_of(at: usize) -> u32
    requires { at + 1 < 2 ^ 32 }
    ensures { result ≡ at + 1 }
{
    at as u32 + 1
}

/// The cost, turned into an income or the other way round.
fn turned_cost(network: &Network) -> i128
    ensures value { result ≡ neg_ℤ network.now.cost }
    ensures in_range { InRange result }
{
    network.is_sized();
    -network.cost()
}

/// What it costs more, in 10^-18, and not yet divided by the payout period.
fn more_than(first: &Network, network: &Network) -> Number
    ensures { result ≡ more_than first.now network.now }
{
    first.is_sized();
    network.is_sized();
    let cost = quotient(network.cost(), network.d());
    cost.plus(&quotient(turned_cost(first), first.d()))
}

/// 1 over 10^18 and the payout period.
fn yearly(problem: &Problem) -> Number
    ensures { result ≡ quotient (pos 1) (pos 1000000000000000000 *ℤ problem.now.payout) }
{
    problem.is_valid();
    let scale = 1_000_000_000_000_000_000 * i128::from(problem.payout());
    quotient(1, scale)
}

/// What the network costs more than the first, in one year.
pub fn above_first(problem: &Problem, first: &Network, network: &Network) -> Number
    ensures { result ≡ above_first problem.now first.now network.now }
{
    more_than(first, network).times(&yearly(problem))
}

/// The same as a share of what the first costs, which is not 0.
pub fn share_above(first: &Network, network: &Network) -> Number
    requires { first.now.cost ≡ pos 0 → ⊥ }
    ensures { result ≡ share_above first.now network.now }
{
    first.is_sized();
    let size = first.cost().unsigned_abs() as i128;
    more_than(first, network).times(&quotient(first.d(), size))
}
