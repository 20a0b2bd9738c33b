//! Values, each with a denominator of its own, brought over one.
use charges::gcd;

/// A fraction; a denominator below 1 stands for no number.
#[derive(Clone, Copy)]
pub(crate) struct Value {
    pub(crate) num: i128,
    pub(crate) den: i128,
}

pub(crate) const ZERO: Value = Value { num: 0, den: 1 };

impl Value {
    /// num over den, with a positive denominator.
    pub(crate) fn of(num: i128, den: i128) -> Value {
        if den < 0 {
            Value {
                num: num.wrapping_neg(),
                den: den.wrapping_neg(),
            }
        } else {
            Value { num, den }
        }
    }

    /// The numerator over a multiple of the denominator.
    pub(crate) fn over(self, d: i128) -> Option<i128> {
        if self.num == 0 {
            return Some(0);
        }
        if self.den == 1 {
            return d.checked_mul(self.num);
        }
        d.wrapping_div(self.den.max(1)).checked_mul(self.num)
    }
}

fn common_multiple(d: i128, den: i128) -> Option<i128> {
    if d < 1 || den < 1 {
        return None;
    }
    let common = gcd(d, den);
    d.wrapping_div(common.max(1)).checked_mul(den)
}

/// The least common denominator.
pub(crate) fn common_denominator(values: &[Value]) -> Option<i128> {
    let mut d = 1i128;
    for value in values {
        if value.den != 1 {
            d = common_multiple(d, value.den)?;
        }
    }
    Some(d)
}
