//! The numbers of a network's units, and their sums.
ghost use Rattle.std.specs.Prelude.{◌≡◌, ◌<◌, ◌<ℤ◌, ℕ, pos, true, length};
ghost use Rattle.report_rules.specs.integer_laws.Range.{InRange};
ghost use Rattle.report_rules.specs.number_sets.Sets.{has};
ghost use Rattle.report_rules.specs.problem_rules.Problem.{unit_at};
ghost use Rattle.report_rules.specs.flow_rules.Net.{million};
ghost use Rattle.report_rules.specs.Number.{sum_of};
ghost use Rattle.report_rules.specs.Amounts.{quotient, sized, size, fixed, proportional, once};
ghost use Rattle.report_rules.specs.Amounts.{investment, unit_total, made_rate, used_rate, made_by};
ghost use Rattle.report_rules.specs.Amounts.{used_by, amount, unit_sum};

use crate::number::Number;
use crate::size_at;
use flow_evaluator::{Network, OperatingUnit, Problem, rate_at};
use report_rules::UnitAmount;

pub fn unit_of(problem: &Problem, u: u32) -> &OperatingUnit
    requires { u < length problem.now.units }
    ensures { result.now ≡ unit_at problem.now u }
{
    &problem.units()[u as usize]
}

/// num / den.
#[tactic(auto, unfolding(report_rules::specs::Amounts::quotient))]
pub(crate) fn quotient(num: i128, den: i128) -> Number
    requires num_in_range { InRange num }
    requires den_in_range { InRange den }
    requires positive { pos 0 <ℤ den }
    ensures { result ≡ quotient num den }
{
    Number::of(num, den)
}

/// The integer size of the unit over the network's `d`, times num / den.
fn sized(network: &Network, u: u32, num: i128, den: i128) -> Number
    requires num_in_range { InRange num }
    requires den_in_range { InRange den }
    requires positive { pos 0 <ℤ den }
    ensures { result ≡ sized network.now u num den }
{
    network.is_sized();
    let size = quotient(size_at(network, u), network.d());
    size.times(&quotient(num, den))
}

/// The size of the unit.
pub fn size(network: &Network, u: u32) -> Number
    ensures { result ≡ size network.now u }
{
    sized(network, u, 1, 1_000_000)
}

/// The size of the unit as a share of this bound, which is in millionths and above 0.
pub fn share_of(network: &Network, u: u32, upper: i64) -> Number
    requires { pos 0 <ℤ upper }
    ensures { result ≡ sized network.now u (pos 1) upper }
{
    sized(network, u, 1, i128::from(upper))
}

/// A number of millionths.
pub(crate) fn millionths(value: i64) -> Number
    ensures { result ≡ quotient value million }
{
    quotient(i128::from(value), 1_000_000)
}

fn fixed(problem: &Problem, u: u32) -> Number
    requires { u < length problem.now.units }
    ensures { result ≡ fixed problem.now u }
{
    millionths(unit_of(problem, u).fix)
}

fn proportional(problem: &Problem, network: &Network, u: u32) -> Number
    requires { u < length problem.now.units }
    ensures { result ≡ proportional problem.now network.now u }
{
    let rate = i128::from(unit_of(problem, u).proportional);
    sized(network, u, rate, 1_000_000_000_000)
}

fn once(problem: &Problem, network: &Network, u: u32) -> Number
    requires { u < length problem.now.units }
    ensures { result ≡ once problem.now network.now u }
{
    let unit = unit_of(problem, u);
    let rate = i128::from(unit.investment_proportional);
    let part = sized(network, u, rate, 1_000_000_000_000);
    millionths(unit.investment_fix).plus(&part)
}

/// 1 over the payout period.
pub(crate) fn year(problem: &Problem) -> Number
    ensures { result ≡ quotient (pos 1) problem.now.payout }
{
    problem.is_valid();
    quotient(1, i128::from(problem.payout()))
}

fn investment(problem: &Problem, network: &Network, u: u32) -> Number
    requires { u < length problem.now.units }
    ensures { result ≡ investment problem.now network.now u }
{
    once(problem, network, u).times(&year(problem))
}

fn unit_total(problem: &Problem, network: &Network, u: u32) -> Number
    requires { u < length problem.now.units }
    ensures { result ≡ unit_total problem.now network.now u }
{
    let yearly = fixed(problem, u).plus(&proportional(problem, network, u));
    yearly.plus(&investment(problem, network, u))
}

/// The rate if it is above 0, else 0.
fn made_rate(rate: i64) -> i128
    ensures value { result ≡ made_rate rate }
    ensures in_range { InRange result }
{
    if rate < 0 { 0 } else { i128::from(rate) }
}

/// The rate without its sign if it is below 0, else 0.
fn used_rate(rate: i64) -> i128
    ensures value { result ≡ used_rate rate }
    ensures in_range { InRange result }
{
    if rate < 0 { -i128::from(rate) } else { 0 }
}

fn made_by(problem: &Problem, network: &Network, j: u32, u: u32) -> Number
    requires { u < length problem.now.units }
    ensures { result ≡ made_by problem.now network.now j u }
{
    let rate = made_rate(rate_at(problem, j, u));
    sized(network, u, rate, 1_000_000_000_000)
}

fn used_by(problem: &Problem, network: &Network, j: u32, u: u32) -> Number
    requires { u < length problem.now.units }
    ensures { result ≡ used_by problem.now network.now j u }
{
    let rate = used_rate(rate_at(problem, j, u));
    sized(network, u, rate, 1_000_000_000_000)
}

/// The number of the unit.
pub fn amount(what: UnitAmount, problem: &Problem, network: &Network, u: u32) -> Number
    requires { u < length problem.now.units }
    ensures { result ≡ amount what problem.now network.now u }
{
    match what {
        UnitAmount::Fixed => fixed(problem, u),
        UnitAmount::Proportional => proportional(problem, network, u),
        UnitAmount::Investment => investment(problem, network, u),
        UnitAmount::Total => unit_total(problem, network, u),
        UnitAmount::Once => once(problem, network, u),
        UnitAmount::Made(j) => made_by(problem, network, j, u),
        UnitAmount::Used(j) => used_by(problem, network, j, u),
    }
}

/// The sum of the number over the network's units.
pub fn unit_sum(what: UnitAmount, problem: &Problem, network: &Network) -> Number
    requires { (u : ℕ) → has network.now.units u ≡ true → u < length problem.now.units }
    ensures { result ≡ unit_sum what problem.now network.now }
{
    let mut sum = Number::nothing();
    for u in network.units() {
        sum = sum.plus(&amount(what, problem, network, u));
    }
    sum
}
