//! Costs over their scales, compared.
ghost use Rattle.std.specs.Prelude.{◌≡◌, ◌↔◌, ◌≤ℤ◌, ◌*ℤ◌, pos, IsTrue};
ghost use Rattle.std.specs.Ordering.{int_cmp};

use search_tree::compare_fractions;
use std::cmp::Ordering;

/// Compares a / b with c / d, whatever the size of the cross products.
fn compare(a: i128, b: i128, c: i128, d: i128) -> Ordering
    requires first { pos 1 ≤ℤ b }
    requires second { pos 1 ≤ℤ d }
    ensures { result ≡ int_cmp (a *ℤ d) (c *ℤ b) }
{
    let (size, other_size) = (a.unsigned_abs(), c.unsigned_abs());
    let (den, other_den) = (b.unsigned_abs(), d.unsigned_abs());
    match (a < 0, c < 0) {
        (false, false) => compare_fractions(size, den, other_size, other_den),
        (true, true) => compare_fractions(other_size, other_den, size, den),
        (true, false) => Ordering::Less,
        (false, true) => Ordering::Greater,
    }
}

/// Whether a / b is at most c / d.
pub fn is_no_more(a: i128, b: i128, c: i128, d: i128) -> bool
    requires first { pos 1 ≤ℤ b }
    requires second { pos 1 ≤ℤ d }
    ensures { IsTrue result ↔ ((a *ℤ d) ≤ℤ (c *ℤ b)) }
{
    match compare(a, b, c, d) {
        Ordering::Greater => false,
        _ => true,
    }
}
