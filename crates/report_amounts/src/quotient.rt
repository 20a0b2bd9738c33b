//! A quotient whose divisor is a product.
ghost use Rattle.std.specs.Prelude.{◌≡◌, ◌≤ℤ◌, ◌<◌, ◌++◌, ◌*◌, ◌^◌, ◌==◌, ◌&&◌, ◌+◌, ◌/◌, ◌%◌, pos};
ghost use Rattle.std.specs.Prelude.{unsigned_abs, OnOk, string_bytes};
ghost use Rattle.report_rules.specs.Decimal.{decimal_text, rounded, is_exact};

use crate::signed::push_rounded;
use std::alloc::AllocError;

/// The quotient, rounded.
fn nearest(quotient: u128, half: u64) -> u128
    requires half { 0 < half }
    requires room { quotient < 2 ^ 127 + 1 }
    ensures { result ≡ (quotient + half) / (2 * half) }
{
    let half = u128::from(half);
    (quotient + half) / (2 * half)
}

/// Whether d divides the number, and 2 * half the quotient.
fn divides(number: u128, d: u128, half: u64) -> bool
    requires d { 0 < d }
    requires half { 0 < half }
    ensures { result ≡ (number % d == 0 && (number / d) % (2 * half) == 0) }
{
    let half = u128::from(half);
    if number % d != 0 {
        return false;
    }
    number / d % (2 * half) == 0
}

/// Appends number / (2 * 10^places * half * d) with this many places; the scale is 10^places. It
/// forms no number above 128 bits.
pub fn push_quotient(
    text: &mut String,
    places: u32,
    scale: u64,
    half: u64,
    number: i128,
    d: i128,
) -> Result<(), AllocError>
    requires scale { scale ≡ 10 ^ places }
    requires half { 0 < half }
    requires d { pos 1 ≤ℤ d }
    ensures { OnOk result
        (string_bytes text.new ≡ string_bytes text.old
        ++ decimal_text places number (2 * 10 ^ places * half * unsigned_abs d)) }
{
    let size = number.unsigned_abs();
    let over = d.unsigned_abs();
    let exact = divides(size, over, half);
    let rounded = nearest(size / over, half);
    push_rounded(text, places, scale, exact, number < 0, rounded)
}
