//! Costs over a number of their own, and how they compare.
ghost use Rattle.std.specs.Prelude.{◌≡◌, ◌↔◌, ◌≤ℤ◌, ◌*ℤ◌, pos, IsTrue};
ghost use Rattle.std.specs.Ordering.{int_cmp};

use crate::euclid::compare_fractions;
use std::cmp::Ordering;

/// A cost over d, which is at least 1. It need not be in lowest terms, so two costs may be one
/// number.
#[derive(Clone, Copy, Debug, PartialEq, Eq)]
pub struct CostOver {
    pub cost: i128,
    pub d: i128,
    ghost positive: { pos 1 ≤ℤ d },
}

impl CostOver {
    /// Whether the cost is at most `number` over `d`, whatever the size of the cross products.
    pub fn is_reached(&self, number: i128, d: i128) -> bool
        requires { pos 1 ≤ℤ d }
        ensures { IsTrue result ↔ ((self.now.cost *ℤ d) ≤ℤ (number *ℤ self.now.d)) }
    {
        match compare(self.cost, self.d, number, d) {
            Ordering::Greater => false,
            _ => true,
        }
    }

    /// Whether the cost is at most the other one, whatever the size of the cross products.
    pub fn is_no_more(&self, other: &CostOver) -> bool
        ensures { IsTrue result
            ↔ ((self.now.cost *ℤ other.now.d) ≤ℤ (other.now.cost *ℤ self.now.d)) }
    {
        self.is_reached(other.cost, other.d)
    }
}

// Compares a / b with c / d.
fn compare(a: i128, b: i128, c: i128, d: i128) -> Ordering
    requires first { pos 1 ≤ℤ b }
    requires second { pos 1 ≤ℤ d }
    ensures { result ≡ int_cmp (a *ℤ d) (c *ℤ b) }
{
    let (size, other_size) = (a.unsigned_abs(), c.unsigned_abs());
    let (den, other_den) = (b.unsigned_abs(), d.unsigned_abs());
    match (a < 0, c < 0) {
        (false, false) => compare_fractions(size, den, other_size, other_den),
        (true, true) => compare_fractions(other_size, other_den, size, den),
        (true, false) => Ordering::Less,
        (false, true) => Ordering::Greater,
    }
}
