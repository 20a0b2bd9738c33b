//! The steps of the rows at an exchange.
ghost use Rattle.std.specs.Prelude.{◌≡◌, ◌≢◌, ◌<◌, ◌≤◌, ◌+◌, ◌*◌, ◌<ℤ◌, pos, ℕ, length, OnOk};
ghost use Rattle.std.specs.Prelude.{IfErr, slice_index_or};
ghost use Rattle.flow_program.specs.integer_laws.Range.{AllInRange};
ghost use Rattle.dual_simplex.specs.Rows.{row_at};
ghost use Rattle.dual_simplex.specs.Exchange.{IsStepped, IsPastStep, AreStepped, IsPastAmong};

use flow_program::{PastEntry, Which, combine};

/// The first number out of range among the rows of a basis, in the order of their columns: at place
/// `j` of the row.
#[derive(Clone, Copy, Debug, PartialEq, Eq)]
pub struct PastRow {
    pub row: usize,
    pub j: usize,
    pub which: Which,
}

/// Takes the entry at `e` of row `c` away, if it is not 0 already.
pub(crate) fn step_row(
    entries: &mut [i128],
    width: usize,
    c: usize,
    pivot: &[i128],
    e: usize,
) -> Result<(), PastEntry>
    requires room { c * width + width ≤ length entries.old }
    requires pivot { length pivot.now ≡ width }
    requires place { e < width }
    requires positive { pos 0 <ℤ slice_index_or pivot.now e (pos 0) }
    requires pivot_in_range { AllInRange pivot.now }
    requires all_in_range { AllInRange entries.old }
    ensures length { length entries.new ≡ length entries.old }
    ensures done { OnOk result
        (IsStepped (row_at width entries.old c) pivot.now e (row_at width entries.new c)) }
    ensures others { (d : ℕ) → d ≢ c → row_at width entries.new d ≡ row_at width entries.old d }
    ensures past { IfErr result
        (λ p. IsPastStep (row_at width entries.old c) pivot.now e p.j p.which) }
    ensures in_range { AllInRange entries.new }
{
    let first = c * width;
    let row = &mut entries[first..first + width];
    if row[e] == 0 {
        return Ok(());
    }
    combine(row, pivot, e)
}

/// The steps of all rows that have a flag, except that of `l`.
pub(crate) fn step_rows(
    entries: &mut [i128],
    basic: &[bool],
    width: usize,
    l: usize,
    pivot: &[i128],
    e: usize,
) -> Result<(), PastRow>
    requires room { width * width ≤ length entries.old }
    requires flags { width ≤ length basic.now }
    requires pivot { length pivot.now ≡ width }
    requires place { e < width }
    requires positive { pos 0 <ℤ slice_index_or pivot.now e (pos 0) }
    requires pivot_in_range { AllInRange pivot.now }
    requires all_in_range { AllInRange entries.old }
    ensures length { length entries.new ≡ length entries.old }
    ensures done { OnOk result (AreStepped width basic.now entries.old pivot.now l e entries.new) }
    ensures past { IfErr result
        (λ p. IsPastAmong width basic.now entries.old pivot.now l e p.row p.j p.which) }
    ensures in_range { AllInRange entries.new }
{
    for c in 0..width {
        if basic[c] && c != l {
            if let Err(past) = step_row(entries, width, c, pivot, e) {
                return Err(PastRow {
                    row: c,
                    j: past.j,
                    which: past.which,
                });
            }
        }
    }
    Ok(())
}
