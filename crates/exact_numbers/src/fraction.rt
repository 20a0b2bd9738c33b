// A fraction in lowest terms, and its arithmetic.
ghost use Rattle.std.specs.Prelude.{◌≡◌, ◌+ℤ◌, ◌*ℤ◌, ◌<ℤ◌, ◌↔◌, pos, unsigned_abs, IfOk, IsErr};
ghost use Rattle.std.specs.Prelude.{Some};
ghost use Rattle.std.specs.Int.{IsGcd};
ghost use Rattle.std.specs.Ordering.{int_cmp};
ghost use Rattle.integer_laws.specs.Range.{InRange};
ghost use Rattle.integer_laws.specs.Lowest.{IsLowest};
ghost use Rattle.exact_numbers.specs.Product.{IsPastLowest};
ghost use Rattle.exact_numbers.specs.Sum.{IsPastSum};

use crate::euclid::compare_fractions;
use crate::{checked_product, checked_sum, lowest_terms};
use std::cmp::Ordering;

/// A fraction in lowest terms: the denominator is at least 1, and no number above 1 divides both
/// numerator and denominator.
#[derive(Clone, Copy, Debug, PartialEq, Eq, Hash)]
pub struct Frac {
    pub num: i128,
    pub den: i128,
    ghost num_in_range: { InRange num },
    ghost den_in_range: { InRange den },
    ghost positive: { pos 0 <ℤ den },
    ghost lowest: { IsGcd (unsigned_abs num) (unsigned_abs den) 1 },
}

/// A number that was formed on the way is out of range: its absolute value is above 2^127 - 1.
#[derive(Clone, Copy, Debug, PartialEq, Eq)]
pub struct Past;

/// The fraction of two products that have no common divisor.
fn of_products(a: i128, c: i128, b: i128, d: i128) -> Result<Frac, Past>
    requires positive { pos 0 <ℤ (b *ℤ d) }
    requires coprime { IsGcd (unsigned_abs (a *ℤ c)) (unsigned_abs (b *ℤ d)) 1 }
    ensures value { IfOk result (λ f. (f.num ≡ a *ℤ c) × (f.den ≡ b *ℤ d)) }
    ensures past { IsErr result ↔ (¬ (InRange (a *ℤ c) × InRange (b *ℤ d))) }
{
    let Some(num) = checked_product(a, c) else {
        return Err(Past);
    };
    let Some(den) = checked_product(b, d) else {
        return Err(Past);
    };
    Ok(Frac { num, den })
}

impl Frac {
    /// num / den; den is at least 1.
    pub fn of(num: i128, den: i128) -> Frac
        requires num_in_range { InRange num }
        requires den_in_range { InRange den }
        requires positive { pos 0 <ℤ den }
        ensures value { IsLowest num den result.num result.den }
    {
        let (num, den) = lowest_terms(num, den);
        Frac { num, den }
    }

    /// The numerator in lowest terms.
    pub fn num(&self) -> i128
        ensures { result ≡ self.now.num }
    {
        self.num
    }

    /// The denominator in lowest terms, at least 1.
    pub fn den(&self) -> i128
        ensures { result ≡ self.now.den }
    {
        self.den
    }

    /// The sum. It is refused exactly if one of the numbers formed for it is out of range.
    pub fn add(&self, other: &Frac) -> Result<Frac, Past>
        ensures value { IfOk result
            (λ f. IsLowest (self.now.num *ℤ other.now.den +ℤ other.now.num *ℤ self.now.den)
            (self.now.den *ℤ other.now.den) f.num f.den) }
        ensures past { IsErr result
            ↔ IsPastSum self.now.num self.now.den other.now.num other.now.den }
    {
        let (own_part, other_part) = lowest_terms(self.den, other.den);
        let Some(left) = checked_product(self.num, other_part) else {
            return Err(Past);
        };
        let Some(right) = checked_product(other.num, own_part) else {
            return Err(Past);
        };
        let Some(num) = checked_sum(left, right) else {
            return Err(Past);
        };
        let Some(den) = checked_product(own_part, other.den) else {
            return Err(Past);
        };
        Ok(Frac::of(num, den))
    }

    /// The product. It is refused exactly if its numerator or denominator in lowest terms is out of
    /// range.
    pub fn mul(&self, other: &Frac) -> Result<Frac, Past>
        ensures value { IfOk result
            (λ f. IsLowest (self.now.num *ℤ other.now.num) (self.now.den *ℤ other.now.den) f.num
            f.den) }
        ensures past { IsErr result
            ↔ IsPastLowest (self.now.num *ℤ other.now.num) (self.now.den *ℤ other.now.den) }
    {
        let (left_num, left_den) = lowest_terms(self.num, other.den);
        let (right_num, right_den) = lowest_terms(other.num, self.den);
        of_products(left_num, right_num, left_den, right_den)
    }
}

impl Ord for Frac {
    ghost use Rattle.exact_numbers.specs.Order.{fraction_cmp};
    ghost use Rattle.exact_numbers.specs.OrderLaws.{fraction_cmp_total, fraction_cmp_ties};
    ghost use Rattle.std.specs.Prelude.{refl};

    ghost cmp = { fraction_cmp };

    ghost total = { fraction_cmp_total };

    ghost matches_partial_cmp = { λ x y. refl };

    ghost matches_eq = { fraction_cmp_ties };

    /// Compares the two numbers. Their cross products need not be in range.
    fn cmp(&self, other: &Frac) -> Ordering {
        let left = checked_product(self.num, other.den);
        let right = checked_product(other.num, self.den);
        match (left, right) {
            (Some(left), Some(right)) => left.cmp(&right),
            _ => compare_by_steps(self, other),
        }
    }
}

/// The comparison if a cross product may be out of range.
fn compare_by_steps(left: &Frac, right: &Frac) -> Ordering
    ensures { result ≡ int_cmp (left.now.num *ℤ right.now.den) (right.now.num *ℤ left.now.den) }
{
    let (size, other_size) = (left.num.unsigned_abs(), right.num.unsigned_abs());
    let (den, other_den) = (left.den.unsigned_abs(), right.den.unsigned_abs());
    match (left.num < 0, right.num < 0) {
        (false, false) => compare_fractions(size, den, other_size, other_den),
        (true, true) => compare_fractions(other_size, other_den, size, den),
        (true, false) => Ordering::Less,
        (false, true) => Ordering::Greater,
    }
}

impl PartialOrd for Frac {
    ghost use Rattle.exact_numbers.specs.Order.{fraction_cmp};
    ghost use Rattle.exact_numbers.specs.OrderLaws.{fraction_cmp_total, fraction_cmp_ties};
    ghost use Rattle.std.specs.Prelude.{refl, Some};
    ghost use Rattle.std.specs.Cmp.{partial_order_from_agreeing_total};

    ghost partial_cmp = { λ x y. Some (fraction_cmp x y) };

    ghost laws = { partial_order_from_agreeing_total fraction_cmp fraction_cmp_total (λ x y. refl)
        fraction_cmp_ties };

    fn partial_cmp(&self, other: &Frac) -> Option<Ordering> {
        Some(self.cmp(other))
    }
}
