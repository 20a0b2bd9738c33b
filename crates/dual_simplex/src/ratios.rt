// Two columns that could enter the basis, compared by their vectors.
ghost use Rattle.std.specs.Prelude.{◌≡◌, ◌≢◌, ◌<◌, ◌+◌, suc, false, pos, ◌*ℤ◌, ◌<ℤ◌, IsTrue};
ghost use Rattle.std.specs.Ordering.{int_cmp};
ghost use Rattle.flow_program.specs.integer_laws.Range.{InRange};
ghost use Rattle.dual_simplex.specs.Rows.{basis};
ghost use Rattle.dual_simplex.specs.Choice.{columns_of};
ghost use Rattle.dual_simplex.specs.Candidates.{vector, ComesBefore};

use crate::candidates::{Candidate, negated};
use crate::rows::Rows;
use flow_program::{Frac, checked_product};
use path_laws::columns_are_ordered;
use std::cmp::Ordering;

/// Compares x / a with y / b. Their products need not be in range.
fn compare_ratios(x: i128, a: i128, y: i128, b: i128) -> Ordering
    requires x_in_range { InRange x }
    requires a_in_range { InRange a }
    requires y_in_range { InRange y }
    requires b_in_range { InRange b }
    requires a_positive { pos 0 <ℤ a }
    requires b_positive { pos 0 <ℤ b }
    ensures { result ≡ int_cmp (b *ℤ x) (a *ℤ y) }
{
    match (checked_product(b, x), checked_product(a, y)) {
        (Some(left), Some(right)) => left.cmp(&right),
        _ => compare_fractions(x, a, y, b),
    }
}

/// The comparison if a cross product may be out of range.
fn compare_fractions(x: i128, a: i128, y: i128, b: i128) -> Ordering
    requires x_in_range { InRange x }
    requires a_in_range { InRange a }
    requires y_in_range { InRange y }
    requires b_in_range { InRange b }
    requires a_positive { pos 0 <ℤ a }
    requires b_positive { pos 0 <ℤ b }
    ensures { result ≡ int_cmp (b *ℤ x) (a *ℤ y) }
{
    let left = Frac::of(x, a);
    let right = Frac::of(y, b);
    left.cmp(&right)
}

/// Compares the vectors of two candidates, each over its size, at one place. Place 0 is that of the
/// cost row, and after it each column has a place.
fn compare_at(rows: &Rows, left: Candidate, right: Candidate, place: usize) -> Ordering
    requires place { place < suc (columns_of rows.now) }
    requires left_column { left.column < columns_of rows.now }
    requires right_column { right.column < columns_of rows.now }
    requires differ { left.column ≢ right.column }
    ensures { result ≡ int_cmp (right.size *ℤ vector rows.now left.column place)
        (left.size *ℤ vector rows.now right.column place) }
{
    if place == 0 {
        let costs = rows.row(rows.scale_at());
        return compare_ratios(
            costs[left.column],
            left.size,
            costs[right.column],
            right.size,
        );
    }
    let k = place - 1;
    if rows.is_basic(k) {
        let x = negated(rows.entry(k, left.column));
        let y = negated(rows.entry(k, right.column));
        return compare_ratios(x, left.size, y, right.size);
    }
    if k == left.column {
        return Ordering::Greater;
    }
    if k == right.column {
        return Ordering::Less;
    }
    Ordering::Equal
}

/// Whether the vector of the left candidate over its size comes before that of the right one; else
/// it comes after it.
pub(crate) fn comes_before(rows: &Rows, left: Candidate, right: Candidate) -> bool
    requires left_column { left.column < columns_of rows.now }
    requires right_column { right.column < columns_of rows.now }
    requires differ { left.column ≢ right.column }
    requires free { basis rows.now left.column ≡ false }
    ensures yes { IsTrue result
        → ComesBefore rows.now left.column left.size right.column right.size }
    ensures no { result ≡ false
        → ComesBefore rows.now right.column right.size left.column left.size }
{
    columns_are_ordered();
    for place in 0..rows.scale_at() {
        match compare_at(rows, left, right, place) {
            Ordering::Less => return true,
            Ordering::Greater => return false,
            Ordering::Equal => {}
        }
    }
    false
}
