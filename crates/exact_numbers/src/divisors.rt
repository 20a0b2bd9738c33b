// Greatest common divisors, of two numbers and of a row.
ghost use Rattle.std.specs.Prelude.{◌≡◌, ◌≤ℤ◌, ◌<ℤ◌, ◌*ℤ◌, pos, unsigned_abs, int_div};
ghost use Rattle.std.specs.Int.{IsGcd, ◌∣◌};
ghost use Rattle.integer_laws.specs.Range.{InRange, AllInRange};
ghost use Rattle.integer_laws.specs.Lowest.{IsLowest};
ghost use Rattle.integer_laws.specs.Reduced.{IsReduced, IsRowGcd};

/// The greatest common divisor. It is at least 0, and 0 only for two zeros.
pub fn gcd(a: i128, b: i128) -> i128
    requires a_in_range { InRange a }
    requires b_in_range { InRange b }
    ensures not_negative { pos 0 ≤ℤ result }
    ensures in_range { InRange result }
    ensures greatest { IsGcd (unsigned_abs a) (unsigned_abs b) (unsigned_abs result) }
{
    let (mut x, mut y) = (a.unsigned_abs(), b.unsigned_abs());
    while y > WIDE {
        (x, y) = (y, x % y);
    }
    if y == 0 {
        return x as i128;
    }

    // 64 bits are enough for both, or for what one more step leaves. Division in 64 bits is faster.
    if x <= WIDE {
        return narrow_gcd(x as u64, y as u64) as i128;
    }
    narrow_gcd(y as u64, (x % y) as u64) as i128
}

const WIDE: u128 = u64::MAX as u128;

fn narrow_gcd(a: u64, b: u64) -> u64
    ensures { IsGcd a b result }
{
    let (mut x, mut y) = (a, b);
    while y != 0 {
        (x, y) = (y, x % y);
    }
    x
}

/// The entry divided by a divisor of it that is above 0.
fn quotient(entry: i128, divisor: i128) -> i128
    requires entry_in_range { InRange entry }
    requires positive { pos 0 <ℤ divisor }
    requires divides { unsigned_abs divisor ∣ unsigned_abs entry }
    ensures value { result ≡ int_div entry divisor }
    ensures in_range { InRange result }
    ensures exact { divisor *ℤ result ≡ entry }
{
    entry / divisor
}

/// x and y divided by their greatest common divisor: x / y in lowest terms.
pub fn lowest_terms(x: i128, y: i128) -> (i128, i128)
    requires x_in_range { InRange x }
    requires y_in_range { InRange y }
    requires positive { pos 0 <ℤ y }
    ensures lowest { IsLowest x y result.0 result.1 }
    ensures first_in_range { InRange result.0 }
    ensures second_in_range { InRange result.1 }
    ensures second_positive { pos 0 <ℤ result.1 }
    ensures coprime { IsGcd (unsigned_abs result.0) (unsigned_abs result.1) 1 }
{
    let common = gcd(x, y);
    (quotient(x, common), quotient(y, common))
}

fn row_gcd(row: &[i128]) -> i128
    requires { AllInRange row.now }
    ensures not_negative { pos 0 ≤ℤ result }
    ensures in_range { InRange result }
    ensures greatest { IsRowGcd row.now (unsigned_abs result) }
{
    let mut common = 0;
    for entry in row {
        common = gcd(*entry, common);
        if common == 1 {
            break;
        }
    }
    common
}

/// Divides the row by the greatest common divisor of its entries. A row of zeros stays.
pub fn primitive(row: &mut [i128])
    requires { AllInRange row.old }
    ensures reduced { IsReduced row.old row.new }
    ensures in_range { AllInRange row.new }
{
    let common = row_gcd(row);
    if common > 1 {
        for entry in row.iter_mut() {
            *entry = quotient(*entry, common);
        }
    }
}
