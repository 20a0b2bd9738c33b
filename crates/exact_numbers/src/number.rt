//! Mixed numbers, and how they are made.
ghost use Rattle.std.specs.Prelude.{◌≡◌, ◌<◌, ◌≤ℤ◌, ◌<ℤ◌, ◌+ℤ◌, ◌*ℤ◌, pos, IfSome};

use crate::multiples::multiple;

/// A whole number and `rest` over `den`, a fraction of at least 0 and below 1. It need not be in
/// lowest terms.
#[derive(Clone, Copy, Debug)]
pub struct Mixed {
    pub(crate) whole: i128,
    pub(crate) rest: u128,
    pub(crate) den: u128,
    ghost below: { rest < den },
}

/// The quotient whose remainder is at least 0, and this remainder.
fn divided(num: i128, den: i128) -> (i128, u128)
    requires { pos 1 ≤ℤ den }
    ensures below { pos result.1 <ℤ den }
    ensures quotient { result.0 *ℤ den +ℤ pos result.1 ≡ num }
{
    (num.div_euclid(den), num.rem_euclid(den) as u128)
}

/// The base, the product and `more`, added.
fn whole_sum(base: i128, factor: i128, quotient: i128, more: u128) -> Option<i128>
    ensures { IfSome result (λ w. w ≡ (factor *ℤ quotient +ℤ pos more) +ℤ base) }
{
    let Ok(more) = i128::try_from(more) else {
        return None;
    };
    let product = factor.checked_mul(quotient)?;
    let sum = product.checked_add(more)?;
    sum.checked_add(base)
}

impl Mixed {
    ghost use Rattle.exact_numbers.specs.Number.{numerator, denominator};

    /// num / den; den is at least 1.
    pub fn of(num: i128, den: i128) -> Mixed
        requires { pos 1 ≤ℤ den }
        ensures numerator { numerator result ≡ num }
        ensures denominator { denominator result ≡ den }
    {
        let (whole, rest) = divided(num, den);
        Mixed {
            whole,
            rest,
            den: den as u128,
        }
    }

    /// The whole part: the greatest whole number that is at most the number.
    pub fn floor(&self) -> i128
        ensures low { (result *ℤ denominator self.now) ≤ℤ numerator self.now }
        ensures high { numerator self.now <ℤ
            (result *ℤ denominator self.now +ℤ denominator self.now) }
    {
        self.whole
    }

    /// `base` plus `factor` times num / den; den is at least 1 and `factor` at least 0. `None` if
    /// the whole part, or a product for it, is out of range.
    pub fn of_sum(base: i128, factor: i128, num: i128, den: i128) -> Option<Mixed>
        requires positive { pos 1 ≤ℤ den }
        requires not_negative { pos 0 ≤ℤ factor }
        ensures numerator { IfSome result (λ m. numerator m ≡ base *ℤ den +ℤ factor *ℤ num) }
        ensures denominator { IfSome result (λ m. denominator m ≡ den) }
    {
        let (quotient, rest) = divided(num, den);
        let share = multiple(factor as u128, rest, den as u128)?;
        let whole = whole_sum(base, factor, quotient, share.whole)?;
        Some(Mixed {
            whole,
            rest: share.rest,
            den: den as u128,
        })
    }
}
