//! What units cost over the payout period. None of these numbers can leave the range.
ghost use Rattle.std.specs.Prelude.{◌≡◌, ◌<◌, ◌≤◌, ◌^◌, ◌*◌, ◌*ℤ◌, ◌+ℤ◌, pos, cond, int_div};
ghost use Rattle.std.specs.Prelude.{length, unsigned_abs, ℕ, true};
ghost use Rattle.std.specs.Ordering.{int_eq};
ghost use Rattle.exact_numbers.specs.integer_laws.Total.{total};
ghost use Rattle.pgraph.specs.number_sets.Sets.{has};
ghost use Rattle.pgraph.specs.problem_rules.WellFormed.{IsInRange};
ghost use Rattle.pgraph.specs.flow_rules.Net.{net_of, million, trillion, size_cost};
ghost use Rattle.flow_program.specs.Rates.{AreRates};

use pgraph::{MatSet, Problem, UnitSet};

/// A yearly amount, over so many years.
fn over_years(years: i64, yearly: i64) -> i128
    requires years { unsigned_abs years ≤ 100 }
    requires yearly { IsInRange yearly }
    ensures value { result ≡ years *ℤ yearly }
    ensures small { unsigned_abs result ≤ 10 ^ 17 }
{
    years as i128 * yearly as i128
}

/// A yearly amount over so many years, and an amount that comes once.
fn with_once(years: i64, yearly: i64, once: i64) -> i128
    requires years { unsigned_abs years ≤ 100 }
    requires yearly { IsInRange yearly }
    requires once { IsInRange once }
    ensures value { result ≡ years *ℤ yearly +ℤ once }
    ensures small { unsigned_abs result ≤ 2 * 10 ^ 17 }
{
    over_years(years, yearly) + once as i128
}

/// An amount at this rate.
fn at_rate(amount: i128, rate: i64) -> i128
    requires amount { unsigned_abs amount ≤ 10 ^ 17 }
    requires rate { IsInRange rate }
    ensures value { result ≡ amount *ℤ rate }
    ensures small { unsigned_abs result ≤ 10 ^ 32 }
{
    amount * rate as i128
}

/// An amount a million times.
fn millionfold(amount: i128) -> i128
    requires { unsigned_abs amount ≤ 2 * 10 ^ 17 }
    ensures value { result ≡ amount *ℤ million }
    ensures small { unsigned_abs result ≤ 2 * 10 ^ 23 }
{
    amount * 1_000_000
}

/// An amount a trillion times.
pub(crate) fn trillionfold(amount: i128) -> i128
    requires { unsigned_abs amount ≤ 10 ^ 20 }
    ensures value { result ≡ amount *ℤ trillion }
    ensures small { unsigned_abs result ≤ 10 ^ 32 }
{
    amount * 1_000_000_000_000
}

/// What the unit costs to be there.
pub(crate) fn fixed_cost(problem: &Problem, u: u32) -> i128
    requires { u < length problem.now.units }
    ensures value { result ≡ (net_of problem.now).fix u }
    ensures small { unsigned_abs result ≤ 2 * 10 ^ 17 }
{
    problem.is_valid();
    let unit = &problem.units()[u as usize];
    with_once(problem.payout(), unit.fix, unit.investment_fix)
}

/// What each part of its size costs.
fn proportional_cost(problem: &Problem, u: u32) -> i128
    requires { u < length problem.now.units }
    ensures value { result ≡ (net_of problem.now).proportional u }
    ensures small { unsigned_abs result ≤ 2 * 10 ^ 17 }
{
    problem.is_valid();
    let unit = &problem.units()[u as usize];
    with_once(
        problem.payout(),
        unit.proportional,
        unit.investment_proportional,
    )
}

/// The price of the material at this rate.
fn worth(problem: &Problem, j: u32, rate: i64) -> i128
    requires known { j < length problem.now.materials }
    requires rate { IsInRange rate }
    ensures value { result ≡ (net_of problem.now).price j *ℤ rate }
    ensures small { unsigned_abs result ≤ 10 ^ 32 }
{
    problem.is_valid();
    let material = &problem.materials()[j as usize];
    at_rate(over_years(problem.payout(), material.price), rate)
}

/// What a unit of size 1 costs without its fixed cost.
pub(crate) fn size_cost(problem: &Problem, u: u32, materials: MatSet, rates: &[i64]) -> i128
    requires unit { u < length problem.now.units }
    requires rates { AreRates problem.now u materials rates.now }
    ensures value { result ≡ size_cost (net_of problem.now) u }
    ensures small { unsigned_abs result ≤ 10 ^ 35 }
{
    let mut cost = millionfold(proportional_cost(problem, u));
    for j in materials {
        cost -= worth(problem, j, rates[j as usize]);
    }
    cost
}

/// The slope by which a free unit pays for its fixed cost.
pub(crate) fn slope(fixed: i128, upper: i64) -> i128
    requires fixed { unsigned_abs fixed ≤ 2 * 10 ^ 17 }
    ensures value { result ≡ cond (int_eq upper (pos 0)) (pos 0)
        (int_div (fixed *ℤ million) upper) }
    ensures small { unsigned_abs result ≤ 2 * 10 ^ 23 }
{
    if upper == 0 {
        0
    } else {
        millionfold(fixed) / upper as i128
    }
}

/// The fixed costs of the units of a set.
pub fn fixed_costs(problem: &Problem, set: UnitSet) -> i128
    requires { (u : ℕ) → has set u ≡ true → u < length problem.now.units }
    ensures value { result ≡ trillion *ℤ total (net_of problem.now).fix set }
    ensures small { unsigned_abs result ≤ 10 ^ 32 }
{
    let mut sum = 0;
    for u in set {
        sum += fixed_cost(problem, u);
    }
    trillionfold(sum)
}
