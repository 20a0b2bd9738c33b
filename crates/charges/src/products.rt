//! Products of numbers that are mostly short, and the lesser of two.
ghost use Rattle.std.specs.Prelude.{◌≡◌, ◌<◌, ◌≤◌, ◌+◌, ◌-◌, ◌^◌, ◌+ℤ◌, ◌*ℤ◌, ◌≤ℤ◌, IfOk, IfErr};
ghost use Rattle.std.specs.Prelude.{OnOk};
ghost use Rattle.std.specs.Option.{SomeIff};
ghost use Rattle.structure_list.specs.integer_laws.Range.{InRange};
ghost use Rattle.structure_list.specs.flow_rules.Steps.{AreInRange, IsFirstPast};
ghost use Rattle.structure_list.specs.flow_rules.BoundSteps.{least_steps};
ghost use Rattle.flow_program.specs.Columns.{least_of};

use crate::running::Running;
use flow_program::{PastSum, checked_product, checked_sum};

/// The product of two short numbers, which is in range.
fn short_product(a: i64, b: i64) -> i128
    ensures value { result ≡ a *ℤ b }
    ensures in_range { InRange (a *ℤ b) }
{
    a as i128 * b as i128
}

/// The product, or `None` exactly if it overflows. If both numbers are short there is nothing to
/// check.
pub(crate) fn quick_product(a: i128, b: i128) -> Option<i128>
    ensures { SomeIff result (InRange (a *ℤ b)) (a *ℤ b) }
{
    match i64::try_from(a) {
        Ok(short_a) => match i64::try_from(b) {
            Ok(short_b) => Some(short_product(short_a, short_b)),
            Err(_) => checked_product(a, b),
        },
        Err(_) => checked_product(a, b),
    }
}

/// The lesser of `factor * low` and `factor * high`, or `None` exactly if it overflows. As `low` is
/// at most `high`, the greater is not formed.
fn ordered_product(factor: i128, low: i128, high: i128) -> Option<i128>
    requires { low ≤ℤ high }
    ensures { SomeIff result (InRange (least_of factor low high)) (least_of factor low high) }
{
    if factor < 0 {
        quick_product(factor, high)
    } else {
        quick_product(factor, low)
    }
}

/// The lesser of `factor * low` and `factor * high`, or `None` exactly if it overflows. The greater
/// is not formed.
fn lesser_product(factor: i128, low: i128, high: i128) -> Option<i128>
    ensures { SomeIff result (InRange (least_of factor low high)) (least_of factor low high) }
{
    if low <= high {
        ordered_product(factor, low, high)
    } else {
        ordered_product(factor, high, low)
    }
}

/// The sum with the lesser of `factor * low` and `factor * high`.
pub(crate) fn with_least(
    from: Running,
    factor: i128,
    low: i128,
    high: i128,
) -> Result<Running, PastSum>
    requires room { from.at + 2 < 2 ^ 32 }
    ensures value { IfOk result (λ to. to.sum ≡ from.sum +ℤ least_of factor low high) }
    ensures in_range { OnOk result (AreInRange (least_steps factor low high from.sum)) }
    ensures count { IfOk result (λ to. to.at ≡ from.at + 2) }
    ensures from_start { IfErr result (λ e. from.at ≤ e.at) }
    ensures past { IfErr result (λ e. IsFirstPast
        (least_steps factor low high from.sum) (e.at - from.at)) }
{
    let Some(least) = lesser_product(factor, low, high) else {
        return Err(PastSum { at: from.at });
    };
    match checked_sum(from.sum, least) {
        Some(sum) => Ok(Running {
            sum,
            at: from.at + 2,
        }),
        None => Err(PastSum { at: from.at + 1 }),
    }
}
