//! Products of 64-bit numbers, and what is kept of them.
//!
//! No product of two 64-bit numbers can wrap: it is formed in 128 bits. All other sums, products
//! and shifts for the guess of a basis are `wrapping_`, `saturating_` or `checked_` ones, and have
//! room, with two exceptions. Amounts are at most 10^15 and the payout period is at most 100 years;
//! a row has at most 128 numbers, of 61 bits, and ends have at most 58. The exceptions may lose
//! leading bits: a size times a long factor (`Row::nearest_times`), and a cost row that takes a
//! change by a long row (`CostRow::add_row`). Then the guess is a worse one, and no answer is
//! wrong.

/// A row's numbers have at most so many bits.
pub(crate) const WIDEST: u32 = 61;

// What rounding leaves of a number that should be 0 is below this.
const NOISE: u64 = 1 << 12;

const LOWEST: i64 = -i64::MAX;

pub(crate) fn product(x: i64, y: i64) -> i128 {
    x as i128 * y as i128
}

/// The number, or the nearest that fits 64 bits.
pub(crate) fn narrowed(number: i128) -> i64 {
    match i64::try_from(number) {
        Ok(narrow) => narrow,
        Err(_) => { if number < 0 { LOWEST } else { i64::MAX } }
    }
}

/// The number without its last bits.
pub(crate) fn shortened(number: i128, by: u32) -> i64 {
    narrowed(number.wrapping_shr(by))
}

/// The number without its last bits, at least one, to the nearest; 0 if so little is left that it
/// may be noise.
pub(crate) fn rounded(number: i128, by: u32) -> i64 {
    let half = 1i128.wrapping_shl(by.wrapping_sub(1));
    let rest = shortened(number.wrapping_add(half), by);
    if rest.unsigned_abs() < NOISE { 0 } else { rest }
}

/// How many bits the number has above so many.
pub(crate) fn excess(number: u128, bits: u32) -> u32 {
    128u32
        .saturating_sub(number.leading_zeros())
        .saturating_sub(bits)
}

/// The greatest common divisor.
fn gcd(a: u64, b: u64) -> u64 {
    let (mut x, mut y) = (a, b);
    while y != 0 {
        (x, y) = (y, x % y);
    }
    x
}

/// Both numbers over their greatest common divisor.
pub(crate) fn lowest(x: i64, y: i64) -> (i64, i64) {
    let common = narrowed(gcd(x.unsigned_abs(), y.unsigned_abs()) as i128);
    if common > 1 {
        (x.wrapping_div(common), y.wrapping_div(common))
    } else {
        (x, y)
    }
}
