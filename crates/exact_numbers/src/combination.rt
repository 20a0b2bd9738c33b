// A row combined with a pivot row: the step of an elimination in whole numbers.
ghost use Rattle.std.specs.Prelude.{◌≡◌, ◌<◌, ◌<ℤ◌, ◌*ℤ◌, ◌-ℤ◌, pos, length, IfOk, IfErr, OnErr};
ghost use Rattle.std.specs.Prelude.{OnOk, ℕ, slice_index_or, None, Some, IsTrue, ◌↔◌, ◌^◌};
ghost use Rattle.std.specs.Prelude.{unsigned_abs};
ghost use Rattle.integer_laws.specs.Range.{InRange, AllInRange};
ghost use Rattle.integer_laws.specs.Combined.{past_of, past_at, combined, IsCombined};
ghost use Rattle.integer_laws.specs.Combined.{IsPastEntry};

use crate::{checked_difference, checked_product, lowest_terms, primitive};
use integer_laws::Which;

/// The first number of the row that is out of range, by its place.
#[derive(Clone, Copy, Debug, PartialEq, Eq)]
pub struct PastEntry {
    pub j: usize,
    pub which: Which,
}

/// Whether the absolute value of the number is below 2^63.
fn is_small(number: i128) -> bool
    ensures { IsTrue result ↔ (unsigned_abs number < 2 ^ 63) }
{
    -SMALL < number && number < SMALL
}

const SMALL: i128 = 1 << 63;

/// The first of `p * x`, `q * y` and their difference that is out of range.
fn first_past(p: i128, x: i128, q: i128, y: i128) -> Option<Which>
    ensures { result ≡ past_of p x q y }
{
    // Most numbers of a row are small, so their products need no check.
    if is_small(p) && is_small(x) && is_small(q) && is_small(y) {
        return None;
    }
    let Some(left) = checked_product(p, x) else {
        return Some(Which::Left);
    };
    let Some(right) = checked_product(q, y) else {
        return Some(Which::Right);
    };
    match checked_difference(left, right) {
        Some(_) => None,
        None => Some(Which::Difference),
    }
}

/// `p * x - q * y`, if both products and the difference are in range.
fn entry_within(p: i128, x: i128, q: i128, y: i128) -> i128
    requires { past_of p x q y ≡ None }
    ensures value { result ≡ p *ℤ x -ℤ q *ℤ y }
    ensures in_range { InRange result }
{
    p * x - q * y
}

fn check_entries(row: &[i128], pivot: &[i128], p: i128, q: i128) -> Result<(), PastEntry>
    requires { length row.now ≡ length pivot.now }
    ensures ok { OnOk result ((k : ℕ) → k < length row.now
        → past_at p q row.now pivot.now k ≡ None) }
    ensures within { IfErr result (λ e. e.j < length row.now) }
    ensures past { IfErr result (λ e. past_at p q row.now pivot.now e.j ≡ Some e.which) }
    ensures before { IfErr result
        (λ e. (k : ℕ) → k < e.j → past_at p q row.now pivot.now k ≡ None) }
{
    for j in 0..row.len() {
        if let Some(which) = first_past(p, row[j], q, pivot[j]) {
            return Err(PastEntry { j, which });
        }
    }
    Ok(())
}

fn write_entries(row: &mut [i128], pivot: &[i128], p: i128, q: i128)
    requires lengths { length row.old ≡ length pivot.now }
    requires in_range { (k : ℕ) → k < length row.old → past_at p q row.old pivot.now k ≡ None }
    ensures value { row.new ≡ combined p q row.old pivot.now }
    ensures in_range { AllInRange row.new }
{
    for j in 0..row.len() {
        row[j] = entry_within(p, row[j], q, pivot[j]);
    }
}

/// `p * row - q * pivot`, made primitive. p and q are `pivot[c]` and `row[c]` divided by their
/// greatest common divisor, so place c becomes 0. The call is refused exactly if one of the
/// products or differences is out of range. The error names the first such place and the first such
/// number there, and the row is as it was.
pub fn combine(row: &mut [i128], pivot: &[i128], c: usize) -> Result<(), PastEntry>
    requires lengths { length row.old ≡ length pivot.now }
    requires place { c < length row.old }
    requires positive { pos 0 <ℤ slice_index_or pivot.now c (pos 0) }
    requires row_in_range { AllInRange row.old }
    requires pivot_in_range { AllInRange pivot.now }
    ensures done { OnOk result (IsCombined row.old pivot.now c row.new) }
    ensures past { IfErr result (λ e. IsPastEntry row.old pivot.now c e.j e.which) }
    ensures unchanged { OnErr result (row.new ≡ row.old) }
    ensures in_range { AllInRange row.new }
{
    let (q, p) = lowest_terms(row[c], pivot[c]);
    check_entries(row, pivot, p, q)?;
    write_entries(row, pivot, p, q);
    primitive(row);
    Ok(())
}
