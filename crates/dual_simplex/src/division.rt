// A number and a row after it, divided by their greatest common divisor.
ghost use Rattle.std.specs.Prelude.{◌≡◌, ◌<ℤ◌, ◌*ℤ◌, pos, unsigned_abs, int_div, map, ◌∷◌};
ghost use Rattle.std.specs.Int.{◌∣◌};
ghost use Rattle.flow_program.specs.integer_laws.Range.{InRange, AllInRange};
ghost use Rattle.flow_program.specs.integer_laws.Reduced.{DividesAll, IsRowGcd, IsReduced};

use flow_program::gcd;

/// The number divided by a divisor of it that is above 0.
pub(crate) fn quotient(number: i128, divisor: i128) -> i128
    requires in_range { InRange number }
    requires positive { pos 0 <ℤ divisor }
    requires divides { unsigned_abs divisor ∣ unsigned_abs number }
    ensures value { result ≡ int_div number divisor }
    ensures in_range { InRange result }
    ensures exact { divisor *ℤ result ≡ number }
{
    number / divisor
}

/// The greatest common divisor of a number above 0 and a row.
fn common_divisor(first: i128, row: &[i128]) -> i128
    requires first_in_range { InRange first }
    requires positive { pos 0 <ℤ first }
    requires in_range { AllInRange row.now }
    ensures positive { pos 0 <ℤ result }
    ensures in_range { InRange result }
    ensures greatest { IsRowGcd (first ∷ row.now) (unsigned_abs result) }
{
    let mut common = first;
    for entry in row {
        common = gcd(*entry, common);
    }
    common
}

/// Divides each entry by a common divisor above 0.
fn divide(row: &mut [i128], divisor: i128)
    requires in_range { AllInRange row.old }
    requires positive { pos 0 <ℤ divisor }
    requires divides { DividesAll (unsigned_abs divisor) row.old }
    ensures value { row.new ≡ map (λ x. int_div x divisor) row.old }
    ensures in_range { AllInRange row.new }
{
    for entry in row.iter_mut() {
        *entry = quotient(*entry, divisor);
    }
}

/// Divides a number above 0 and the row by their greatest common divisor.
pub(crate) fn reduce(first: i128, row: &mut [i128]) -> i128
    requires first_in_range { InRange first }
    requires positive { pos 0 <ℤ first }
    requires in_range { AllInRange row.old }
    ensures reduced { IsReduced (first ∷ row.old) (result ∷ row.new) }
    ensures positive { pos 0 <ℤ result }
    ensures first_in_range { InRange result }
    ensures in_range { AllInRange row.new }
{
    let common = common_divisor(first, row);
    divide(row, common);
    quotient(first, common)
}
