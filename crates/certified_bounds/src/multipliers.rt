//! Multipliers of scaled rows, in the numbers of the problem.
use crate::number_list::NumberList;
use crate::rounding::Ratio;
use scaled_flows::{Frac, gcd};

/// Multipliers of scaled rows over a scale, at each the divisor of its material's rates. They pay
/// for scaled rates in scaled costs: a multiplier times the divisor of costs, over that of its
/// rates, pays for rates in costs.
#[derive(Clone, Copy)]
pub(crate) struct ScaledRows<'a> {
    pub(crate) numbers: &'a [i128],
    pub(crate) rates: &'a [i64],
    pub(crate) scale: i128,
    pub(crate) costs: i128,
}

/// The fraction in lowest terms, if these are in range.
fn fraction(num: i128, den: i128) -> Option<Frac> {
    if num == i128::MIN || den < 1 {
        None
    } else {
        Some(Frac::of(num, den))
    }
}

/// The least number that both divide.
fn common_multiple(a: i128, b: i128) -> Option<i128> {
    if a < 1 || b < 1 {
        return None;
    }
    let common = gcd(a, b);
    a.wrapping_div(common.max(1)).checked_mul(b)
}

/// A multiplier over a scale that its denominator divides.
fn over(multiplier: &Frac, scale: i128) -> Option<i128> {
    scale
        .wrapping_div(multiplier.den().max(1))
        .checked_mul(multiplier.num())
}

impl ScaledRows<'_> {
    /// The multiplier of one row in the numbers of the problem, in lowest terms.
    fn exact(&self, number: i128, rate: i64) -> Option<Frac> {
        let scaled = fraction(number, self.scale)?;
        let turned = fraction(self.costs, rate as i128)?;
        match scaled.mul(&turned) {
            Ok(multiplier) => Some(multiplier),
            Err(_) => None,
        }
    }

    /// A number that divides each scale over which all multipliers are whole, if the scale of the
    /// scaled ones is their least.
    fn scale_divisor(&self) -> i128 {
        match fraction(self.costs, self.scale) {
            Some(costs) => costs.den(),
            None => 1,
        }
    }

    /// The least scale over which all multipliers are whole, if it is at most so much.
    pub(crate) fn exact_scale(&self, most: i128) -> Option<i128> {
        if self.scale_divisor() > most {
            return None;
        }
        let mut scale = 1i128;
        for (number, rate) in self.numbers.iter().zip(self.rates) {
            if *number != 0 {
                let multiplier = self.exact(*number, *rate)?;
                scale = common_multiple(scale, multiplier.den())?;
                if scale > most {
                    return None;
                }
            }
        }
        Some(scale)
    }

    fn exact_over(&self, number: i128, rate: i64, scale: i128) -> Option<i128> {
        if number == 0 {
            return Some(0);
        }
        let multiplier = self.exact(number, rate)?;
        over(&multiplier, scale)
    }

    /// Writes the multipliers over a scale over which they are whole.
    pub(crate) fn write_exact(&self, scale: i128, list: &mut NumberList) -> bool {
        list.clear();
        for (number, rate) in self.numbers.iter().zip(self.rates) {
            if !list.push_some(self.exact_over(*number, *rate, scale)) {
                return false;
            }
        }
        true
    }

    /// A whole number near 2^bits times the multiplier of one row.
    fn near(&self, number: i128, rate: i64, bits: u32) -> Option<i128> {
        if number == 0 {
            return Some(0);
        }
        Ratio::of_products(number, self.costs, self.scale, rate as i128).nearest(bits)
    }

    /// Writes whole numbers near 2^bits times the multipliers.
    pub(crate) fn write_rounded(&self, bits: u32, list: &mut NumberList) -> bool {
        list.clear();
        for (number, rate) in self.numbers.iter().zip(self.rates) {
            if !list.push_some(self.near(*number, *rate, bits)) {
                return false;
            }
        }
        true
    }
}
