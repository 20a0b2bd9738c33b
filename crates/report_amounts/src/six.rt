//! Six digits.
ghost use Rattle.std.specs.Prelude.{◌≡◌, ◌≤◌, ◌≤ℤ◌, ◌<◌, ◌++◌, ◌+◌, ◌*◌, ◌/◌, ◌^◌, pos};
ghost use Rattle.std.specs.Prelude.{unsigned_abs, OnOk, string_bytes};
ghost use Rattle.report_rules.specs.Decimal.{places_behind, six_digits};

use crate::signed::push_signed;
use std::alloc::AllocError;

/// `count` places, less one for each digit of the whole number.
pub fn places_behind(count: u32, whole: u128) -> u32
    ensures value { result ≡ places_behind count whole }
    ensures few { result ≤ count }
{
    if count == 0 || whole == 0 {
        count
    } else {
        places_behind(count - 1, whole / 10)
    }
}

/// 10^places.
pub fn scale_of(places: u32) -> u64
    requires { places ≤ 6 }
    ensures power { result ≡ 10 ^ places }
    ensures some { 0 < result }
    ensures few { result ≤ 1000000 }
{
    match places {
        0 => 1,
        1 => 10,
        2 => 100,
        3 => 1000,
        4 => 10_000,
        5 => 100_000,
        _ => 1_000_000,
    }
}

/// The whole part of a quotient over 2 * 10^6 * half.
pub(crate) fn whole_part(quotient: u128, half: u64) -> u128
    requires { 0 < half }
    ensures { result ≡ quotient / (2000000 * half) }
{
    quotient / (2_000_000 * u128::from(half))
}

/// The quotient, rounded.
fn nearest(quotient: u128, half: u64, rest: u64) -> u128
    requires half { 0 < half }
    requires some { 0 < rest }
    requires few { rest ≤ 1000000 }
    requires room { quotient < 2 ^ 127 + 1 }
    ensures { result ≡ (quotient + half * rest) / (2 * (half * rest)) }
{
    let half = u128::from(half) * u128::from(rest);
    (quotient + half) / (2 * half)
}

/// Appends number / (2 * 10^6 * half * d), rounded to six digits if it has more, and with all
/// digits of its whole part. It forms no number above 128 bits.
pub fn push_six_digits(
    text: &mut String,
    half: u64,
    number: i128,
    d: i128,
) -> Result<(), AllocError>
    requires half { 0 < half }
    requires d { pos 1 ≤ℤ d }
    ensures { OnOk result
        (string_bytes text.new ≡ string_bytes text.old
        ++ six_digits number (2 * 10 ^ 6 * half * unsigned_abs d)) }
{
    let size = number.unsigned_abs();
    let over = d.unsigned_abs();
    let places = places_behind(6, whole_part(size / over, half));
    let rest = scale_of(6 - places);
    let scale = scale_of(places);
    let rounded = nearest(size / over, half, rest);
    push_signed(text, places, scale, number < 0, rounded)
}
