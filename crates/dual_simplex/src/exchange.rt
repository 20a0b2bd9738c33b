//! The exchange of two columns of the basis.
ghost use Rattle.std.specs.Prelude.{◌≡◌, ◌≢◌, ◌<◌, ◌≤◌, ◌+◌, ◌*◌, ◌<ℤ◌, pos, suc, ℕ, true, false};
ghost use Rattle.std.specs.Prelude.{length, OnOk, IfErr, slice_index_or};
ghost use Rattle.flow_program.specs.integer_laws.Range.{AllInRange};
ghost use Rattle.dual_simplex.specs.Rows.{row_at};
ghost use Rattle.dual_simplex.specs.Exchange.{pivot_row, AreStepped, IsPastAmong};

use crate::pivot_row::{put_pivot, write_row};
use crate::step::{PastRow, step_rows};

/// Steps the rows of a block with the row of `l` as the pivot row, and writes the pivot row into
/// the row of `e`.
fn exchange_in(
    body: &mut [i128],
    width: usize,
    pivot: &mut [i128],
    basic: &[bool],
    l: usize,
    e: usize,
    negate: bool,
) -> Result<(), PastRow>
    requires room { width * width ≤ length body.old }
    requires few { width ≤ 770 }
    requires pivot { length pivot.old ≡ width }
    requires flags { width ≤ length basic.now }
    requires l { l < width }
    requires e { e < width }
    requires free { slice_index_or basic.now e false ≡ false }
    requires positive { pos 0 <ℤ slice_index_or (pivot_row negate (row_at width body.old l)) e
        (pos 0) }
    requires all_in_range { AllInRange body.old }
    ensures pivot { pivot.new ≡ pivot_row negate (row_at width body.old l) }
    ensures row { OnOk result (row_at width body.new e ≡ pivot.new) }
    ensures done { OnOk result (AreStepped width basic.now body.old pivot.new l e body.new) }
    ensures past { IfErr result
        (λ p. IsPastAmong width basic.now body.old pivot.new l e p.row p.j p.which) }
    ensures in_range { AllInRange body.new }
    ensures pivot_in_range { AllInRange pivot.new }
{
    let first = l * width;
    put_pivot(&body[first..first + width], pivot, negate);
    if let Err(past) = step_rows(body, basic, width, l, pivot, e) {
        return Err(past);
    }
    write_row(body, width, e, pivot);
    Ok(())
}

/// The same in a block that has room for the pivot row after its rows.
pub(crate) fn exchange_block(
    entries: &mut [i128],
    width: usize,
    basic: &[bool],
    l: usize,
    e: usize,
    negate: bool,
) -> Result<(), PastRow>
    requires room { suc width * width ≤ length entries.old }
    requires few { width ≤ 770 }
    requires flags { width ≤ length basic.now }
    requires l { l < width }
    requires e { e < width }
    requires free { slice_index_or basic.now e false ≡ false }
    requires positive { pos 0 <ℤ slice_index_or (pivot_row negate (row_at width entries.old l)) e
        (pos 0) }
    requires all_in_range { AllInRange entries.old }
    ensures length { length entries.new ≡ length entries.old }
    ensures row { OnOk result
        (row_at width entries.new e ≡ pivot_row negate (row_at width entries.old l)) }
    ensures done { OnOk result
        (AreStepped width basic.now entries.old (pivot_row negate (row_at width entries.old l)) l e
        entries.new) }
    ensures past { IfErr result
        (λ p. IsPastAmong width basic.now entries.old
        (pivot_row negate (row_at width entries.old l)) l e p.row p.j p.which) }
    ensures in_range { AllInRange entries.new }
{
    let (body, rest) = entries.split_at_mut(width * width);
    exchange_in(body, width, &mut rest[..width], basic, l, e, negate)
}
