//! Whether a number over `d` is at the place that its price needs.
ghost use Rattle.std.specs.Prelude.{◌≡◌, ◌≤ℤ◌, ◌<ℤ◌, ◌*ℤ◌, ◌↔◌, pos, IsTrue, int_div};
ghost use Rattle.scaled_flows.specs.Settled.{IsSettled};

use flow_program::{Range, is_within};

/// The whole part of a rate over its divisor. There is no remainder.
pub(crate) fn scaled_rate(rate: i64, divisor: i64) -> i128
    requires { pos 1 ≤ℤ divisor }
    ensures { result ≡ int_div rate divisor }
{
    (rate / divisor) as i128
}

/// A number over its divisor. There is no remainder.
pub(crate) fn scaled(number: i128, divisor: i128) -> i128
    requires { pos 1 ≤ℤ divisor }
    ensures { result ≡ int_div number divisor }
{
    number / divisor
}

/// Whether the number over `d` is just `end`.
fn is_at(number: i128, d: i128, end: i128) -> bool
    ensures { IsTrue result ↔ (number ≡ end *ℤ d) }
{
    end.checked_mul(d) == Some(number)
}

/// Whether the number over `d` is in the range: at the low end if its price is above 0, and at the
/// high end if it is below 0.
pub(crate) fn is_settled(number: i128, d: i128, range: Range, price: i128) -> bool
    requires positive { pos 1 ≤ℤ d }
    requires ordered { range.low ≤ℤ range.high }
    ensures { IsTrue result ↔ IsSettled range.low range.high d number price }
{
    if price > 0 {
        is_at(number, d, range.low)
    } else if price < 0 {
        is_at(number, d, range.high)
    } else {
        is_within(number, d, range)
    }
}
