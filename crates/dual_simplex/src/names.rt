//! Columns and places by the numbers of the problem.
ghost use Rattle.std.specs.Prelude.{◌≡◌, ◌<◌, ◌≤◌, ◌++◌, ◌+◌, ℕ, [], ◌∷◌, cond, nat_eq, length};
ghost use Rattle.std.specs.Prelude.{take, Some, None};
ghost use Rattle.flow_program.specs.flow_rules.LinearProgram.{linear_of};
ghost use Rattle.flow_program.specs.flow_rules.Columns.{columns, scale_at};
ghost use Rattle.flow_program.specs.flow_rules.Places as path;
ghost use Rattle.dual_simplex.specs.Rows.{basis, width};
ghost use Rattle.dual_simplex.specs.Choice.{IsOfSize};
ghost use Rattle.dual_simplex.specs.Step.{step_of};
ghost use Rattle.flow_program.specs.flow_rules.Named.{unit_named, named_at, column_named};
ghost use Rattle.flow_program.specs.flow_rules.Named.{nonbasic_named};
ghost use Rattle.flow_program.specs.flow_rules.Named.{place_named};
ghost use Rattle.dual_simplex.specs.Numbers.{AreNumbers};

use crate::numbers::{Numbers, numbers_of};
use crate::past_flow::PastFlow;
use crate::rows::Rows;
use crate::walk::PastPivot;
use flow_program::{Column, Place, Program};

fn unit_count(program: &Program) -> usize
    ensures count { result ≡ length program.now.units }
    ensures few { result ≤ 128 }
{
    program.is_program();
    program.units().count() as usize
}

fn row_count(program: &Program) -> usize
    ensures count { result ≡ length program.now.rows }
    ensures few { result ≤ 256 }
{
    program.is_program();
    program.rows().count() as usize
}

fn named_at(program: &Program, numbers: &Numbers, units: usize, rows: usize, k: usize) -> Column
    requires numbers { AreNumbers program.now numbers.now.units numbers.now.rows }
    requires units { units ≡ length program.now.units }
    requires rows { rows ≡ length program.now.rows }
    requires units_few { units ≤ 128 }
    requires rows_few { rows ≤ 256 }
    ensures { result ≡ named_at program.now units rows k }
{
    if k < units {
        Column::X(numbers.units[k])
    } else if k < units + units {
        Column::S(numbers.units[k - units])
    } else if k < units + units + rows {
        Column::T(numbers.rows[k - (units + units)])
    } else if k < units + units + rows + rows {
        Column::W(numbers.rows[k - (units + units + rows)])
    } else if k == units + units + rows + rows {
        Column::Right
    } else {
        Column::Scale
    }
}

/// The column at a place of a row.
fn column_of(program: &Program, numbers: &Numbers, k: usize) -> Column
    requires numbers { AreNumbers program.now numbers.now.units numbers.now.rows }
    ensures { result ≡ column_named program.now k }
{
    let (units, rows) = (unit_count(program), row_count(program));
    named_at(program, numbers, units, rows, k)
}

/// The column at a place of a row, by the numbers of the problem.
pub(crate) fn column_at(program: &Program, k: usize) -> Column
    ensures { result ≡ column_named program.now k }
{
    column_of(program, &numbers_of(program), k)
}

/// Puts the column at a place after the first `count` of a list, if it is not in the basis, and
/// gives their new number. The rows know how many units and rows the program has, so its sets are
/// not counted for each column.
fn put_outside(
    list: &mut [Column],
    count: usize,
    rows: &Rows,
    program: &Program,
    numbers: &Numbers,
    k: usize,
) -> usize
    requires size { IsOfSize (linear_of program.now) rows.now }
    requires place { k < width rows.now }
    requires room { count < length list.old }
    requires numbers { AreNumbers program.now numbers.now.units numbers.now.rows }
    ensures length { length list.new ≡ length list.old }
    ensures count { result ≤ count + 1 }
    ensures columns { take result list.new ≡ take count list.old
        ++ cond (basis rows.now k) [] (column_named program.now k ∷ []) }
{
    if rows.is_basic(k) {
        return count;
    }
    rows.are_rows();
    list[count] = named_at(program, numbers, rows.units(), rows.rows(), k);
    count + 1
}

/// Puts the columns that are not in the basis into the front of a list, in the order of their
/// places, and gives their number.
pub(crate) fn put_nonbasic(list: &mut [Column], rows: &Rows, program: &Program) -> usize
    requires size { IsOfSize (linear_of program.now) rows.now }
    requires room { columns (linear_of program.now) ≤ length list.old }
    ensures length { length list.new ≡ length list.old }
    ensures count { result ≤ length list.old }
    ensures columns { take result list.new ≡ nonbasic_named program.now (basis rows.now) }
{
    let numbers = numbers_of(program);
    let mut count = 0;
    for k in 0..rows.right_at() {
        count = put_outside(list, count, rows, program, &numbers, k);
    }
    count
}

/// The column of the row that overflows; `None` for the cost row.
fn row_of(program: &Program, numbers: &Numbers, row: usize) -> Option<Column>
    requires numbers { AreNumbers program.now numbers.now.units numbers.now.rows }
    ensures { result ≡ cond (nat_eq row (scale_at (linear_of program.now))) None
        (Some (column_named program.now row)) }
{
    let (units, rows) = (unit_count(program), row_count(program));
    if row == units + units + rows + rows + 1 {
        None
    } else {
        Some(column_of(program, numbers, row))
    }
}

/// The place of a pivot at which a number is out of range, by the numbers of the problem.
pub(crate) fn entry_place(program: &Program, past: PastPivot) -> Place
    ensures { result ≡ place_named program.now
        (path.Entry past.leaves past.enters past.row past.j past.which) }
{
    let numbers = numbers_of(program);
    Place::Entry {
        leave: column_of(program, &numbers, past.leaves),
        enter: column_of(program, &numbers, past.enters),
        row: row_of(program, &numbers, past.row),
        column: column_of(program, &numbers, past.j),
        which: past.which,
    }
}

fn unit_number(program: &Program, numbers: &Numbers, unit: usize) -> u32
    requires numbers { AreNumbers program.now numbers.now.units numbers.now.rows }
    requires unit { unit < length program.now.units }
    ensures { result ≡ unit_named program.now unit }
{
    let count = unit_count(program);
    prove!(unit < count);
    numbers.units[unit]
}

/// The place of a flow that is out of range, by the number of its unit in the problem.
pub(crate) fn flow_place(program: &Program, past: PastFlow) -> Place
    requires unit { past.unit < length program.now.units }
    ensures { result ≡ place_named program.now (path.Flow past.unit (step_of past.which)) }
{
    Place::Flow {
        unit: unit_number(program, &numbers_of(program), past.unit),
        which: past.which,
    }
}
