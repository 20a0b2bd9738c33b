//! Sums of mixed numbers. No contract says when there is one.

use std::io;
use tree_parts::Mixed;

const MAX: i128 = i128::MAX;

/// Whether there is a sum, and whether it is at least so much.
fn line(rt: &impl Print, sum: Option<Mixed>, least: i128) -> io::Result<()> {
    let reaches = sum.map(|number| number.is_at_least(least, 1));
    println!(rt; "at least {least}: {reaches:?}")
}

/// A fraction, a whole number, a product of more than 128 bits that is divided again, and a sum
/// that overflows.
pub fn sums(rt: &impl Print) -> io::Result<()> {
    line(rt, Mixed::of_sum(67, 1, 5, 3), 69)?;
    line(rt, Mixed::of_sum(67, 2, 3, 3), 69)?;
    line(rt, Mixed::of_sum(1, MAX, MAX - 1, MAX), MAX)?;
    line(rt, Mixed::of_sum(MAX, 1, 1, 1), 0)
}
