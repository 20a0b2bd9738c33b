//! Fractions, or none if a number overflows.
ghost use Rattle.std.specs.Prelude.{◌≡◌, ◌++◌, ◌∷◌, [], ◌<ℤ◌, ◌*ℤ◌, ◌≤◌, ◌^◌, ◌*◌, ◌+◌, ◌/◌, ◌%◌};
ghost use Rattle.std.specs.Prelude.{None, Some, pos, decimal, OnOk, option_map, string_bytes};
ghost use Rattle.report_rules.specs.integer_laws.Range.{InRange};
ghost use Rattle.report_rules.specs.Number.{of, nothing, lowest, kept, times, plus, above, below};
ghost use Rattle.report_rules.specs.Number.{half_of, doubled_text, number_with, places_of};
ghost use Rattle.report_rules.specs.Number.{number_text, thousandths_text, share_text};
ghost use Rattle.report_rules.specs.Lower.{rounded_up, tenths_text, gap_words};

use crate::{places_behind, push_signed, scale_of};
use flow_evaluator::Frac;
use std::alloc::AllocError;
use std::marker::Model;

/// A fraction, or none if a number that had to be formed for it has more than 127 bits.
#[derive(Drop)]
pub struct Number {
    fraction: Option<Frac>,
}

impl Model for Number {
    ghost use Rattle.std.specs.Prelude.{option_map};
    ghost use Rattle.report_rules.specs.Number as rules;

    ghost Value = { rules.Number };

    ghost view = { λ n. option_map (λ f. record { num = f.num; den = f.den }) n.fraction };
}

impl Number {
    /// num / den, with a den of at least 1.
    pub fn of(num: i128, den: i128) -> Number
        requires num_in_range { InRange num }
        requires den_in_range { InRange den }
        requires positive { pos 0 <ℤ den }
        ensures { result ≡ of num den }
    {
        Number {
            fraction: Some(Frac::of(num, den)),
        }
    }

    /// 0.
    pub fn nothing() -> Number
        ensures { result ≡ nothing }
    {
        Number::of(0, 1)
    }

    pub(crate) fn past() -> Number
        ensures { result ≡ None }
    {
        Number { fraction: None }
    }

    /// The fraction, if there is one.
    pub fn fraction(&self) -> Option<Frac>
        ensures { option_map (λ f. record { num = f.num; den = f.den }) result ≡ self.now }
    {
        self.fraction
    }

    /// The product.
    pub fn times(&self, other: &Number) -> Number
        ensures { result ≡ times self.now other.now }
    {
        match self.fraction {
            None => Number::past(),
            Some(left) => match other.fraction {
                None => Number::past(),
                Some(right) => product(&left, &right),
            },
        }
    }

    /// The sum.
    pub fn plus(&self, other: &Number) -> Number
        ensures { result ≡ plus self.now other.now }
    {
        match self.fraction {
            None => Number::past(),
            Some(left) => match other.fraction {
                None => Number::past(),
                Some(right) => sum(&left, &right),
            },
        }
    }

    /// The number itself if it is above 0, else 0.
    pub fn above(self) -> Number
        ensures { result ≡ above self }
    {
        match self.fraction {
            None => Number::past(),
            Some(fraction) => part_above(&fraction),
        }
    }

    /// The number itself if it is below 0, else 0.
    pub fn below(self) -> Number
        ensures { result ≡ below self }
    {
        match self.fraction {
            None => Number::past(),
            Some(fraction) => part_below(&fraction),
        }
    }

    fn push_doubled(&self, text: &mut String, places: u32, scale: u64) -> Result<(), AllocError>
        requires { scale ≡ 10 ^ places }
        ensures { OnOk result
            (string_bytes text.new ≡ string_bytes text.old ++ doubled_text places self.now) }
    {
        match self.fraction {
            None => text.push_str("past"),
            Some(fraction) => push_fraction(text, places, scale, &fraction),
        }
    }

    /// Appends the number with this many places, or `past` if there is none. The scale is
    /// 10^places.
    fn push_with(&self, text: &mut String, places: u32, scale: u64) -> Result<(), AllocError>
        requires { scale ≡ 10 ^ places }
        ensures { OnOk result
            (string_bytes text.new ≡ string_bytes text.old ++ number_with places self.now) }
    {
        let doubled = self.times(&Number::of(2 * i128::from(scale), 1));
        doubled.push_doubled(text, places, scale)
    }

    /// Appends the number with six digits if it has more, or `past` if there is none.
    pub fn push(&self, text: &mut String) -> Result<(), AllocError>
        ensures { OnOk result
            (string_bytes text.new ≡ string_bytes text.old ++ number_text self.now) }
    {
        match self.fraction {
            None => text.push_str("past"),
            Some(fraction) => {
                let places = places_of(&fraction);
                self.push_with(text, places, scale_of(places))
            }
        }
    }

    fn push_thousandths(&self, text: &mut String) -> Result<(), AllocError>
        ensures { OnOk result
            (string_bytes text.new ≡ string_bytes text.old ++ thousandths_text self.now) }
    {
        match self.fraction {
            None => text.push_str("past"),
            Some(fraction) => push_tenths(text, half_of(&fraction)),
        }
    }

    /// Appends a gap, of which this is the thousandths, in per cent. It is rounded up. Nothing is
    /// appended if there is no number.
    pub fn push_gap(&self, text: &mut String) -> Result<(), AllocError>
        ensures { OnOk result
            (string_bytes text.new ≡ string_bytes text.old ++ gap_words self.now) }
    {
        match self.fraction {
            None => Ok(()),
            Some(fraction) => push_gap_of(text, &fraction),
        }
    }

    /// Appends the share in per cent, or `past` if there is none.
    pub fn push_share(&self, text: &mut String) -> Result<(), AllocError>
        ensures { OnOk result
            (string_bytes text.new ≡ string_bytes text.old ++ share_text self.now) }
    {
        let doubled = self.times(&Number::of(2000, 1));
        doubled.push_thousandths(text)
    }
}

/// A fraction of at least 0, rounded up.
fn rounded_up(fraction: &Frac) -> u128
    ensures { result ≡ rounded_up (record { num = fraction.now.num; den = fraction.now.den }) }
{
    let num = fraction.num().unsigned_abs();
    let den = fraction.den().unsigned_abs();
    let whole = num / den;
    if num % den == 0 { whole } else { whole + 1 }
}

fn push_gap_of(text: &mut String, fraction: &Frac) -> Result<(), AllocError>
    ensures { OnOk result
        (string_bytes text.new ≡ string_bytes text.old
        ++ gap_words (Some (record { num = fraction.now.num; den = fraction.now.den }))) }
{
    text.push_str(" (gap ")?;
    push_tenths(text, rounded_up(fraction))?;
    text.push_str(" %)")?;
    Ok(())
}

fn product(left: &Frac, right: &Frac) -> Number
    ensures { result
        ≡ kept (lowest (left.now.num *ℤ right.now.num) (left.now.den *ℤ right.now.den)) }
{
    match left.mul(right) {
        Ok(product) => Number {
            fraction: Some(product),
        },
        Err(_) => Number::past(),
    }
}

fn sum(left: &Frac, right: &Frac) -> Number
    ensures { result ≡ plus (Some (record { num = left.now.num; den = left.now.den }))
        (Some (record { num = right.now.num; den = right.now.den })) }
{
    match left.add(right) {
        Ok(sum) => Number {
            fraction: Some(sum),
        },
        Err(_) => Number::past(),
    }
}

fn part_above(fraction: &Frac) -> Number
    ensures { result ≡ above (Some (record { num = fraction.now.num; den = fraction.now.den })) }
{
    if fraction.num() > 0 {
        Number {
            fraction: Some(*fraction),
        }
    } else {
        Number::nothing()
    }
}

fn part_below(fraction: &Frac) -> Number
    ensures { result ≡ below (Some (record { num = fraction.now.num; den = fraction.now.den })) }
{
    if fraction.num() < 0 {
        Number {
            fraction: Some(*fraction),
        }
    } else {
        Number::nothing()
    }
}

/// Half of the fraction, rounded, without its sign.
fn half_of(fraction: &Frac) -> u128
    ensures { result ≡ half_of (record { num = fraction.now.num; den = fraction.now.den }) }
{
    let den = fraction.den().unsigned_abs();
    (fraction.num().unsigned_abs() + den) / (2 * den)
}

/// Six places, less one for each digit of the whole part.
fn places_of(fraction: &Frac) -> u32
    ensures value { result ≡ places_of (record { num = fraction.now.num; den = fraction.now.den }) }
    ensures few { result ≤ 6 }
{
    let num = fraction.num().unsigned_abs();
    places_behind(6, num / fraction.den().unsigned_abs())
}

fn push_fraction(
    text: &mut String,
    places: u32,
    scale: u64,
    fraction: &Frac,
) -> Result<(), AllocError>
    requires { scale ≡ 10 ^ places }
    ensures { OnOk result
        (string_bytes text.new ≡ string_bytes text.old
        ++ doubled_text places (Some (record { num = fraction.now.num; den = fraction.now.den }))) }
{
    let negative = fraction.num() < 0;
    push_signed(text, places, scale, negative, half_of(fraction))
}

/// Tenths with their one place.
fn push_tenths(text: &mut String, tenths: u128) -> Result<(), AllocError>
    ensures { OnOk result
        (string_bytes text.new ≡ string_bytes text.old ++ tenths_text tenths) }
{
    let whole = tenths / 10;
    let rest = (tenths % 10) as u8;
    write!(text, "{whole}")?;
    text.push('.')?;
    text.push((b'0' + rest) as char)?;
    Ok(())
}
