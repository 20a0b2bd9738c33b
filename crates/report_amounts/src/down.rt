//! Six digits of a number that is rounded down.
ghost use Rattle.std.specs.Prelude.{◌≡◌, ◌≤ℤ◌, ◌<◌, ◌++◌, ◌*◌, ◌/◌, ◌%◌, ◌^◌, ◌==◌, ◌&&◌, ◌≤◌, pos};
ghost use Rattle.std.specs.Prelude.{◌+◌, not, if◌then◌else◌, unsigned_abs, OnOk, string_bytes};
ghost use Rattle.report_rules.specs.Decimal.{six_digits_down};

use crate::signed::push_signed;
use crate::six::{places_behind, scale_of, whole_part};
use std::alloc::AllocError;

/// 2 * half * rest.
fn unit_of(half: u64, rest: u64) -> u128
    requires half { 0 < half }
    requires some { 0 < rest }
    requires few { rest ≤ 1000000 }
    ensures value { result ≡ 2 * (half * rest) }
    ensures positive { 0 < result }
{
    2 * (u128::from(half) * u128::from(rest))
}

/// Whether d divides the number, and the unit the quotient.
fn divides(number: u128, d: u128, unit: u128) -> bool
    requires d { 0 < d }
    requires unit { 0 < unit }
    ensures { result ≡ (number % d == 0 && (number / d) % unit == 0) }
{
    if number % d != 0 {
        return false;
    }
    number / d % unit == 0
}

/// The whole number, or the next one for a number below 0 that is not exact.
fn next_down(whole: u128, negative: bool, exact: bool) -> u128
    requires { whole < 2 ^ 127 + 1 }
    ensures { result ≡ whole + (if negative && not exact then 1 else 0) }
{
    if negative && !exact { whole + 1 } else { whole }
}

/// Appends number / (2 * 10^6 * half * d), rounded down to six digits if it has more, and with all
/// digits of its whole part. It forms no number above 128 bits.
pub fn push_six_digits_down(
    text: &mut String,
    half: u64,
    number: i128,
    d: i128,
) -> Result<(), AllocError>
    requires half { 0 < half }
    requires d { pos 1 ≤ℤ d }
    ensures { OnOk result
        (string_bytes text.new ≡ string_bytes text.old
        ++ six_digits_down number (2 * 10 ^ 6 * half * unsigned_abs d)) }
{
    let size = number.unsigned_abs();
    let over = d.unsigned_abs();
    let places = places_behind(6, whole_part(size / over, half));
    let rest = scale_of(6 - places);
    let scale = scale_of(places);
    let unit = unit_of(half, rest);
    let exact = divides(size, over, unit);
    let down = next_down(size / over / unit, number < 0, exact);
    push_signed(text, places, scale, number < 0, down)
}
