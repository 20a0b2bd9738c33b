//! The ranges of what materials leave over.
ghost use Rattle.std.specs.Prelude.{◌≡◌, ◌<◌, ◌≤◌, ◌^◌, ◌*ℤ◌, neg_ℤ, length, unsigned_abs};
ghost use Rattle.pgraph.specs.problem_rules.WellFormed.{IsInRange};
ghost use Rattle.pgraph.specs.flow_rules.Net.{net_of, million, low_end, high_end};

use pgraph::{Kind, Problem};

/// The ends of a range.
#[derive(Clone, Copy)]
pub struct Range {
    pub low: i128,
    pub high: i128,
}

/// An amount a million times.
fn millionfold(amount: i64) -> i128
    requires { IsInRange amount }
    ensures value { result ≡ million *ℤ amount }
    ensures small { unsigned_abs result ≤ 10 ^ 21 }
{
    1_000_000 * amount as i128
}

/// An amount a million times, below 0.
fn negated_millionfold(amount: i64) -> i128
    requires { IsInRange amount }
    ensures value { result ≡ million *ℤ neg_ℤ amount }
    ensures small { unsigned_abs result ≤ 10 ^ 21 }
{
    millionfold(-amount)
}

/// The range of a material with this lower bound.
pub(crate) fn range_of(problem: &Problem, j: u32, lower: i64) -> Range
    requires known { j < length problem.now.materials }
    requires lower { IsInRange lower }
    ensures low { result.low ≡ low_end (net_of problem.now) j lower }
    ensures high { result.high ≡ high_end (net_of problem.now) j lower }
    ensures low_small { unsigned_abs result.low ≤ 10 ^ 21 }
    ensures high_small { unsigned_abs result.high ≤ 10 ^ 21 }
{
    problem.is_valid();
    let material = &problem.materials()[j as usize];
    match material.kind {
        Kind::RawMaterial => Range {
            low: negated_millionfold(material.upper),
            high: negated_millionfold(lower),
        },
        Kind::Intermediate => Range {
            low: millionfold(lower),
            high: millionfold(material.upper),
        },
        Kind::Product => Range {
            low: millionfold(lower),
            high: millionfold(material.upper),
        },
    }
}
