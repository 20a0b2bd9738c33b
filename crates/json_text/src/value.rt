//! A fraction as text.
ghost use Rattle.std.specs.Prelude.{◌≡◌, ◌++◌, ◌∷◌, [], ◌^◌, ◌/◌, ◌%◌, ◌<◌, pos, unsigned_abs};
ghost use Rattle.std.specs.Prelude.{int_lt, IfOk, OnOk, string_bytes, if◌then◌else◌};
ghost use Rattle.report_rules.specs.Decimal.{scaled_text};
ghost use Rattle.report_rules.specs.Value.{value_text};

use crate::digits::decimal_of;
use report_tables::{Frac, push_places};
use std::alloc::{AllocError, Global};

/// A number over a power of ten, as a whole and what is left of it.
#[derive(Clone, Copy, Debug, PartialEq, Eq)]
struct Parts {
    whole: u128,
    rest: u128,
}

/// The number over the power of ten. It forms no power above 128 bits.
fn parts_of(number: u128, places: u32) -> Parts
    ensures whole { result.whole ≡ number / 10 ^ places }
    ensures rest { result.rest ≡ number % 10 ^ places }
{
    if places > 38 {
        return Parts {
            whole: 0,
            rest: number,
        };
    }
    let scale = 10u128.pow(places);
    Parts {
        whole: number / scale,
        rest: number % scale,
    }
}

fn push_scaled(text: &mut String, places: u32, number: u128) -> Result<(), AllocError>
    ensures { OnOk result
        (string_bytes text.new ≡ string_bytes text.old ++ scaled_text places number) }
{
    let parts = parts_of(number, places);
    write!(text, "{}", parts.whole)?;
    if parts.rest != 0 {
        text.push('.')?;
        push_places(text, places, parts.rest)?;
    }
    Ok(())
}

/// The numerator without its sign.
fn size_of(fraction: &Frac) -> u128
    ensures value { result ≡ unsigned_abs fraction.now.num }
    ensures room { result < 2 ^ 127 }
{
    fraction.num().unsigned_abs()
}

fn divisor_of(fraction: &Frac) -> u128
    ensures value { result ≡ unsigned_abs fraction.now.den }
    ensures positive { 0 < result }
{
    fraction.den().unsigned_abs()
}

fn is_negative(fraction: &Frac) -> bool
    ensures { result ≡ int_lt fraction.now.num (pos 0) }
{
    fraction.num() < 0
}

fn push_sign(text: &mut String, negative: bool) -> Result<(), AllocError>
    ensures { OnOk result
        (string_bytes text.new ≡ string_bytes text.old ++ (if negative then 45 ∷ [] else [])) }
{
    if negative {
        text.push('-')?;
    }
    Ok(())
}

/// The fraction in decimal with 17 digits.
pub(crate) fn value_text(alloc: Global, fraction: &Frac) -> Result<String, AllocError>
    ensures { IfOk result
        (λ text. string_bytes text
        ≡ value_text (record { num = fraction.now.num; den = fraction.now.den })) }
{
    let mut text = String::new(alloc);
    push_sign(&mut text, is_negative(fraction))?;
    let decimal = decimal_of(size_of(fraction), divisor_of(fraction));
    push_scaled(&mut text, decimal.places, decimal.number)?;
    Ok(text)
}
