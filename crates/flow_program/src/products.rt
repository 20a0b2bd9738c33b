//! Products of numbers that are mostly short.
ghost use Rattle.std.specs.Prelude.{◌≡◌, ◌*ℤ◌};
ghost use Rattle.std.specs.Option.{SomeIff};
ghost use Rattle.exact_numbers.specs.integer_laws.Range.{InRange};

use exact_numbers::checked_product;

/// The product of two short numbers, which is in range.
fn short_product(a: i64, b: i64) -> i128
    ensures value { result ≡ a *ℤ b }
    ensures in_range { InRange (a *ℤ b) }
{
    a as i128 * b as i128
}

/// The product, or `None` exactly if it is out of range. If both numbers are short there is nothing
/// to check.
pub(crate) fn quick_product(a: i128, b: i128) -> Option<i128>
    ensures { SomeIff result (InRange (a *ℤ b)) (a *ℤ b) }
{
    match i64::try_from(a) {
        Ok(short_a) => match i64::try_from(b) {
            Ok(short_b) => Some(short_product(short_a, short_b)),
            Err(_) => checked_product(a, b),
        },
        Err(_) => checked_product(a, b),
    }
}
