//! The sizes of the units at the last basis, rounded down. They guide a search: proofs use only
//! their range.
ghost use Rattle.std.specs.Prelude.{◌≡◌, ◌<◌, ◌≤◌, length, All};
ghost use Rattle.flow_program.specs.flow_rules.LinearProgram.{linear_of};
ghost use Rattle.dual_simplex.specs.Reading.{IsOwnPositive};
ghost use Rattle.dual_simplex.specs.Walk.{EndsFeasible};
ghost use Rattle.dual_simplex.specs.Sizes.{IsSize};

use crate::rows::Rows;
use flow_program::Program;

/// The greatest size of a unit, in millionths.
const MOST: i128 = 1_000_000_000_000_000;

/// The size of a unit above its least, rounded down.
fn size_above(rows: &Rows, unit: usize) -> i128
    requires unit { unit < rows.now.units }
    requires own { IsOwnPositive rows.now }
{
    if !rows.is_basic(unit) {
        return 0;
    }
    rows.entry(unit, rows.right_at()) / rows.entry(unit, unit)
}

/// The size of a unit, rounded down.
fn size_of(rows: &Rows, program: &Program, unit: usize) -> i64
    requires unit { unit < rows.now.units }
    requires known { unit < length program.now.units }
    requires own { IsOwnPositive rows.now }
    ensures { IsSize result }
{
    program.is_program();
    let size = program.lows()[unit].saturating_add(size_above(rows, unit));
    size.clamp(0, MOST) as i64
}

/// Puts the sizes of the units into the front of `sizes`.
pub(crate) fn put_sizes(rows: &Rows, program: &Program, sizes: &mut [i64])
    requires feasible { EndsFeasible (linear_of program.now) rows.now }
    requires room { rows.now.units ≤ length sizes.old }
    requires sizes { All IsSize sizes.old }
    ensures length { length sizes.new ≡ length sizes.old }
    ensures sizes { All IsSize sizes.new }
{
    for unit in 0..rows.units() {
        sizes[unit] = size_of(rows, program, unit);
    }
}
