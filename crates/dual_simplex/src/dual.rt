// The multipliers of the rows of a program, and those by which a row refutes.
ghost use Rattle.std.specs.Prelude.{◌≡◌, ◌<◌, ◌+◌, ℕ, pos, ◌-ℤ◌, ◌<ℤ◌, ◌≤ℤ◌, length};
ghost use Rattle.std.specs.Prelude.{slice_index_or};
ghost use Rattle.flow_program.specs.integer_laws.Range.{InRange, AllInRange};
ghost use Rattle.flow_program.specs.flow_rules.Columns.{scale_at};
ghost use Rattle.flow_program.specs.flow_rules.LinearProgram.{LinearProgram};
ghost use Rattle.flow_program.specs.flow_rules.Multipliers.{AreMultipliers, AreRefuting};
ghost use Rattle.dual_simplex.specs.Rows.{width, table};
ghost use Rattle.dual_simplex.specs.Choice.{IsOfSize, columns_of, scale_of};
ghost use Rattle.dual_simplex.specs.Dual.{multiplier_of, IsNotNegative};

use crate::division::reduce;
use crate::rows::Rows;
use flow_program::primitive;

/// The difference of two numbers that are not below 0.
fn difference(left: i128, right: i128) -> i128
    requires left_in_range { InRange left }
    requires right_in_range { InRange right }
    requires left_not_negative { pos 0 ≤ℤ left }
    requires right_not_negative { pos 0 ≤ℤ right }
    ensures value { result ≡ left -ℤ right }
    ensures in_range { InRange result }
{
    left - right
}

/// The multiplier that a row without an entry below 0 gives to row j of the program.
fn multiplier(rows: &Rows, c: usize, j: usize) -> i128
    requires row { c < width rows.now }
    requires program_row { j < rows.now.rows }
    requires not_negative { IsNotNegative rows.now c }
    ensures value { result ≡ multiplier_of rows.now c j }
    ensures in_range { InRange result }
{
    difference(rows.entry(c, rows.t_at(j)), rows.entry(c, rows.w_at(j)))
}

fn put_multipliers(rows: &Rows, c: usize, ys: &mut [i128])
    requires row { c < width rows.now }
    requires room { length ys.old ≡ rows.now.rows }
    requires not_negative { IsNotNegative rows.now c }
    ensures value { (j : ℕ) → j < rows.now.rows
        → slice_index_or ys.new j (pos 0) ≡ multiplier_of rows.now c j }
    ensures in_range { AllInRange ys.new }
{
    for j in 0..ys.len() {
        ys[j] = multiplier(rows, c, j);
    }
}

/// The scale and the multipliers of the cost row, divided by their greatest common divisor. The
/// multipliers are put into `ys`. No number is refused: if no entry of the cost row is below 0,
/// differences of two stay in range.
pub fn multipliers(rows: &Rows, ys: &mut [i128]) -> i128
    requires room { length ys.old ≡ rows.now.rows }
    requires costs { IsNotNegative rows.now (scale_of rows.now) }
    requires scale { pos 0 <ℤ table rows.now (scale_of rows.now) (scale_of rows.now) }
    ensures are { (p : LinearProgram) → IsOfSize p rows.now
        → AreMultipliers p (table rows.now (scale_at p)) result ys.new }
    ensures positive { pos 0 <ℤ result }
    ensures scale_in_range { InRange result }
    ensures in_range { AllInRange ys.new }
{
    let scale = rows.scale_at();
    put_multipliers(rows, scale, ys);
    reduce(rows.entry(scale, scale), ys)
}

/// The multipliers of a row with no entry below 0 at a column, divided by their greatest common
/// divisor. If its right side is below 0 they refute. No number is refused.
pub fn refuting(rows: &Rows, l: usize, ys: &mut [i128])
    requires room { length ys.old ≡ rows.now.rows }
    requires row { l < columns_of rows.now }
    requires entries { IsNotNegative rows.now l }
    ensures are { (p : LinearProgram) → IsOfSize p rows.now
        → AreRefuting p (table rows.now l) ys.new }
    ensures in_range { AllInRange ys.new }
{
    put_multipliers(rows, l, ys);
    primitive(ys);
}
