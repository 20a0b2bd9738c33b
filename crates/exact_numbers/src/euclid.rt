// The comparison of two fractions by their quotients, remainder after remainder, so that no product
// is formed.
ghost use Rattle.std.specs.Prelude.{◌≡◌, ◌<◌, ◌*◌};
ghost use Rattle.std.specs.Ordering.{nat_cmp};

use std::cmp::Ordering;

/// Compares a / b with c / d.
pub fn compare_fractions(a: u128, b: u128, c: u128, d: u128) -> Ordering
    requires first { 0 < b }
    requires second { 0 < d }
    ensures { result ≡ nat_cmp (a * d) (c * b) }
{
    let (mut a, mut b, mut c, mut d) = (a, b, c, d);
    'steps: loop {
        let (left, right) = (a / b, c / d);
        if left != right {
            return left.cmp(&right);
        }
        let (rest, other) = (a % b, c % d);
        if rest == 0 || other == 0 {
            return rest.cmp(&other);
        }

        // The remaining fractions compare as their reciprocals do, in reverse.
        (a, b, c, d) = (d, other, b, rest);
    }
}
