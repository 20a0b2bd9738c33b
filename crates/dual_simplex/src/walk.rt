//! The walk of the path, from pivot to pivot.
ghost use Rattle.std.specs.Prelude.{◌≡◌, ◌<◌, ◌≤◌, ◌+◌, ◌-◌, ℕ, pos, suc, true, false, length};
ghost use Rattle.std.specs.Prelude.{IsTrue, ◌<ℤ◌, ◌≤ℤ◌, OnOk, IfOk, IfErr, IfSome, IfNone};
ghost use Rattle.flow_program.specs.flow_rules.LinearProgram.{linear_of};
ghost use Rattle.flow_program.specs.flow_rules.Pivots.{IsLeaving, IsEntering};
ghost use Rattle.dual_simplex.specs.Rows.{table, basis};
ghost use Rattle.dual_simplex.specs.Choice.{IsOfSize, scale_of};
ghost use Rattle.dual_simplex.specs.Walk.{IsInFirst, IsInSecond, EndsFeasible, EndsRefuting};
ghost use Rattle.dual_simplex.specs.Walk.{EndsPast, IsSameRoom};
ghost use Rattle.dual_simplex.specs.Measure.{rank_of, ranks};

use crate::enters::entering;
use crate::leaves::leaving;
use crate::rows::Rows;
use flow_program::{Program, Which};

/// A pivot of the path at which a number is out of range, and which number. Columns are named by
/// their places in a row.
#[derive(Clone, Copy, Debug, PartialEq, Eq)]
pub(crate) struct PastPivot {
    pub(crate) leaves: usize,
    pub(crate) enters: usize,
    pub(crate) row: usize,
    pub(crate) j: usize,
    pub(crate) which: Which,
}

/// Whether the unit has an entry below 0 in the cost row.
fn is_dear(rows: &Rows, unit: usize) -> bool
    requires { unit < rows.now.units }
    ensures yes { IsTrue result → table rows.now (scale_of rows.now) unit <ℤ pos 0 }
    ensures no { result ≡ false → pos 0 ≤ℤ table rows.now (scale_of rows.now) unit }
{
    rows.entry(rows.scale_at(), unit) < 0
}

/// The pivot of the first kind of a unit, whose entry in the cost row is below 0.
fn pivot_first(rows: &mut Rows, program: &Program, unit: usize) -> Result<(), PastPivot>
    requires unit { unit < length program.now.units }
    requires first { IsInFirst (linear_of program.now) rows.old unit }
    requires negative { table rows.old (scale_of rows.old) unit <ℤ pos 0 }
    ensures room { IsSameRoom rows.old rows.new }
    ensures done { OnOk result (IsInFirst (linear_of program.now) rows.new (unit + 1)) }
    ensures past { IfErr result
        (λ e. EndsPast (linear_of program.now) rows.new e.leaves e.enters e.row e.j e.which) }
{
    program.is_program();
    rows.are_rows();
    let leaves = rows.s_at(unit);
    let answer = rows.exchange(leaves, unit, false);
    rows.are_rows();
    match answer {
        Ok(()) => Ok(()),
        Err(past) => Err(PastPivot {
            leaves,
            enters: unit,
            row: past.row,
            j: past.j,
            which: past.which,
        }),
    }
}

/// The pivot of the first kind of a unit, if it has one.
fn turn_first(rows: &mut Rows, program: &Program, unit: usize) -> Result<(), PastPivot>
    requires unit { unit < length program.now.units }
    requires first { IsInFirst (linear_of program.now) rows.old unit }
    ensures room { IsSameRoom rows.old rows.new }
    ensures done { OnOk result (IsInFirst (linear_of program.now) rows.new (unit + 1)) }
    ensures past { IfErr result
        (λ e. EndsPast (linear_of program.now) rows.new e.leaves e.enters e.row e.j e.which) }
{
    if is_dear(rows, unit) {
        pivot_first(rows, program, unit)
    } else {
        Ok(())
    }
}

/// All pivots of the first kind.
fn walk_first(rows: &mut Rows, program: &Program) -> Result<(), PastPivot>
    requires first { IsInFirst (linear_of program.now) rows.old 0 }
    ensures room { IsSameRoom rows.old rows.new }
    ensures done { OnOk result (IsInSecond (linear_of program.now) rows.new) }
    ensures past { IfErr result
        (λ e. EndsPast (linear_of program.now) rows.new e.leaves e.enters e.row e.j e.which) }
{
    for unit in 0..rows.units() {
        if let Err(past) = turn_first(rows, program, unit) {
            return Err(past);
        }
    }
    Ok(())
}

/// The pivot of the second kind at which `leaves` leaves the basis and `enters` enters it.
fn pivot_second(
    rows: &mut Rows,
    program: &Program,
    leaves: usize,
    enters: usize,
) -> Result<(), PastPivot>
    requires second { IsInSecond (linear_of program.now) rows.old }
    requires leaves { IsLeaving (linear_of program.now) (basis rows.old) (table rows.old) leaves }
    requires enters { IsEntering (linear_of program.now) (basis rows.old) (table rows.old) leaves
        enters }
    ensures room { IsSameRoom rows.old rows.new }
    ensures done { OnOk result (IsInSecond (linear_of program.now) rows.new) }
    ensures rises { OnOk result
        (rank_of (linear_of program.now) rows.old < rank_of (linear_of program.now) rows.new) }
    ensures below { OnOk result
        (rank_of (linear_of program.now) rows.old < ranks (linear_of program.now)) }
    ensures past { IfErr result
        (λ e. EndsPast (linear_of program.now) rows.new e.leaves e.enters e.row e.j e.which) }
{
    rows.are_rows();
    let answer = rows.exchange(leaves, enters, true);
    rows.are_rows();
    match answer {
        Ok(()) => Ok(()),
        Err(past) => Err(PastPivot {
            leaves,
            enters,
            row: past.row,
            j: past.j,
            which: past.which,
        }),
    }
}

/// The column that leaves the basis, when no pivot of the first kind is left.
fn leaves(rows: &Rows, program: &Program) -> Option<usize>
    requires second { IsInSecond (linear_of program.now) rows.now }
    ensures found { IfSome result
        (λ l. IsLeaving (linear_of program.now) (basis rows.now) (table rows.now) l) }
    ensures none { IfNone result (EndsFeasible (linear_of program.now) rows.now) }
{
    program.is_program();
    leaving(rows)
}

/// The column that enters the basis for one that leaves.
fn enters(rows: &Rows, program: &Program, leaves: usize) -> Option<usize>
    requires second { IsInSecond (linear_of program.now) rows.now }
    requires leaves { IsLeaving (linear_of program.now) (basis rows.now) (table rows.now) leaves }
    ensures found { IfSome result
        (λ e. IsEntering (linear_of program.now) (basis rows.now) (table rows.now) leaves e) }
    ensures none { IfNone result (EndsRefuting (linear_of program.now) rows.now leaves) }
{
    program.is_program();
    entering(rows, leaves)
}

/// All pivots of the second kind, to the end of the path: `None` if the basis gives least flows,
/// and else the column whose row can't be met.
fn walk_second(rows: &mut Rows, program: &Program) -> Result<Option<usize>, PastPivot>
    requires second { IsInSecond (linear_of program.now) rows.old }
    ensures room { IsSameRoom rows.old rows.new }
    ensures size { IsOfSize (linear_of program.now) rows.new }
    ensures least { IfOk result
        (λ end. IfNone end (EndsFeasible (linear_of program.now) rows.new)) }
    ensures none { IfOk result
        (λ end. IfSome end (λ row. EndsRefuting (linear_of program.now) rows.new row)) }
    ensures past { IfErr result
        (λ e. EndsPast (linear_of program.now) rows.new e.leaves e.enters e.row e.j e.which) }
{
    'pivots: loop {
        let Some(leaves) = leaves(rows, program) else {
            return Ok(None);
        };
        let Some(enters) = enters(rows, program, leaves) else {
            return Ok(Some(leaves));
        };
        if let Err(past) = pivot_second(rows, program, leaves, enters) {
            return Err(past);
        }
    }
}

/// Walks the path of a program from its start to its last basis: `None` if that gives least flows,
/// and else the column whose row can't be met. A pivot at which a number is out of range ends it
/// too.
pub(crate) fn walk(rows: &mut Rows, program: &Program) -> Result<Option<usize>, PastPivot>
    requires units { length program.now.units ≤ rows.old.most_units }
    requires rows { length program.now.rows ≤ rows.old.most_rows }
    ensures room { IsSameRoom rows.old rows.new }
    ensures size { IsOfSize (linear_of program.now) rows.new }
    ensures least { IfOk result
        (λ end. IfNone end (EndsFeasible (linear_of program.now) rows.new)) }
    ensures none { IfOk result
        (λ end. IfSome end (λ row. EndsRefuting (linear_of program.now) rows.new row)) }
    ensures past { IfErr result
        (λ e. EndsPast (linear_of program.now) rows.new e.leaves e.enters e.row e.j e.which) }
{
    rows.start(program);
    if let Err(past) = walk_first(rows, program) {
        return Err(past);
    }
    walk_second(rows, program)
}
