//! A fraction rounded to 17 digits.
ghost use Rattle.std.specs.Prelude.{◌≡◌, ◌<◌, ◌≤◌, ◌+◌, ◌*◌, ◌^◌, ◌/◌};
ghost use Rattle.report_rules.specs.Value.{places_from};

/// What is left of a division, and how often the divisor is in it.
#[derive(Clone, Copy, Debug, PartialEq, Eq)]
struct Rest {
    times: u128,
    rest: u128,
}

/// The sum of two rests of one divisor.
fn sum_of(left: u128, right: u128, den: u128) -> Rest
    requires left { left < den }
    requires right { right < den }
    ensures sum { left + right ≡ result.times * den + result.rest }
    ensures times { result.times < 2 }
    ensures rest { result.rest < den }
{
    if left >= den - right {
        Rest {
            times: 1,
            rest: left - (den - right),
        }
    } else {
        Rest {
            times: 0,
            rest: left + right,
        }
    }
}

/// Ten times a rest. It forms no number above the divisor.
fn tenfold(rest: u128, den: u128) -> Rest
    requires { rest < den }
    ensures product { 10 * rest ≡ result.times * den + result.rest }
    ensures digit { result.times < 10 }
    ensures rest { result.rest < den }
{
    let two = sum_of(rest, rest, den);
    let four = sum_of(two.rest, two.rest, den);
    let five = sum_of(four.rest, rest, den);
    let ten = sum_of(five.rest, five.rest, den);
    Rest {
        times: 4 * two.times + 2 * four.times + 2 * five.times + ten.times,
        rest: ten.rest,
    }
}

/// A number over a power of ten.
#[derive(Clone, Copy, Debug, PartialEq, Eq)]
pub(crate) struct Decimal {
    pub(crate) number: u128,
    pub(crate) places: u32,
}

/// Rounded by what is left of the division.
fn nearest(number: u128, rest: u128, den: u128) -> u128
    requires rest { rest < den }
    requires room { number < 2 ^ 127 }
    ensures { result ≡ (2 * (number * den + rest) + den) / (2 * den) }
{
    if rest >= den - rest {
        number + 1
    } else {
        number
    }
}

/// num / den, rounded to the nearest, with the least number of places that gives it 17 digits.
/// There are at most 55 places.
pub(crate) fn decimal_of(num: u128, den: u128) -> Decimal
    requires room { num < 2 ^ 127 }
    requires positive { 0 < den }
    ensures places { result.places ≡ places_from 55 0 num den }
    ensures number { result.number ≡ (2 * (num * 10 ^ result.places) + den) / (2 * den) }
{
    let mut number = num / den;
    let mut rest = num % den;
    for places in 0..55 {
        if number >= 10_000_000_000_000_000 {
            return Decimal {
                number: nearest(number, rest, den),
                places,
            };
        }
        let digit = tenfold(rest, den);
        number = 10 * number + digit.times;
        rest = digit.rest;
    }
    let last = nearest(number, rest, den);
    Decimal {
        number: last,
        places: 55,
    }
}
