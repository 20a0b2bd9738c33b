//! The rows at the start of the path.
ghost use Rattle.std.specs.Prelude.{◌≡◌, ◌≢◌, ◌<◌, ◌≤◌, ◌+◌, ◌*◌, ◌^◌, ℕ, neg_ℤ, suc, false};
ghost use Rattle.std.specs.Prelude.{length, pos, slice_index_or, unsigned_abs};
ghost use Rattle.flow_program.specs.integer_laws.Range.{InRange, AllInRange};
ghost use Rattle.flow_program.specs.flow_rules.LinearProgram.{linear_of};
ghost use Rattle.flow_program.specs.flow_rules.Start.{one_at};
ghost use Rattle.dual_simplex.specs.Rows.{row_at, width_of};
ghost use Rattle.dual_simplex.specs.Start.{start_at_x, start_at_right, start_entry, start_of};

use crate::entries::{above_floor, below_ceiling, cost, rate, width_of};
use flow_program::Program;

/// The numbers of units and rows of a program.
#[derive(Clone, Copy)]
pub(crate) struct Size {
    pub(crate) units: usize,
    pub(crate) rows: usize,
}

fn one_at(place: usize, at: usize) -> i128
    ensures value { result ≡ one_at place at }
    ensures small { unsigned_abs result ≤ 10 ^ 36 }
{
    if at == place { 1 } else { 0 }
}

fn negated_rate(program: &Program, row: usize, unit: usize) -> i128
    requires row { row < length program.now.rows }
    requires unit { unit < length program.now.units }
    ensures value { result ≡ neg_ℤ ((linear_of program.now).rate row unit) }
    ensures small { unsigned_abs result ≤ 10 ^ 36 }
{
    -rate(program, row, unit)
}

fn entry_at_x(program: &Program, size: Size, c: usize, k: usize) -> i128
    requires units { size.units ≡ length program.now.units }
    requires rows { size.rows ≡ length program.now.rows }
    requires few_units { size.units ≤ 128 }
    requires few_rows { size.rows ≤ 256 }
    requires row { size.units ≤ c }
    requires place { k < size.units }
    ensures value { result ≡ start_at_x (linear_of program.now) c k }
    ensures small { unsigned_abs result ≤ 10 ^ 36 }
{
    let (t, w) = (size.units + size.units, size.units + size.units + size.rows);
    if c < t {
        one_at(c - size.units, k)
    } else if c < w {
        negated_rate(program, c - t, k)
    } else if c < w + size.rows {
        rate(program, c - w, k)
    } else {
        cost(program, k)
    }
}

fn entry_at_right(program: &Program, size: Size, c: usize) -> i128
    requires units { size.units ≡ length program.now.units }
    requires rows { size.rows ≡ length program.now.rows }
    requires few_units { size.units ≤ 128 }
    requires few_rows { size.rows ≤ 256 }
    requires row { size.units ≤ c }
    ensures value { result ≡ start_at_right (linear_of program.now) c }
    ensures small { unsigned_abs result ≤ 10 ^ 36 }
{
    let (t, w) = (size.units + size.units, size.units + size.units + size.rows);
    if c < t {
        width_of(program, c - size.units)
    } else if c < w {
        above_floor(program, c - t)
    } else if c < w + size.rows {
        below_ceiling(program, c - w)
    } else {
        0
    }
}

fn entry(program: &Program, size: Size, c: usize, k: usize) -> i128
    requires units { size.units ≡ length program.now.units }
    requires rows { size.rows ≡ length program.now.rows }
    requires few_units { size.units ≤ 128 }
    requires few_rows { size.rows ≤ 256 }
    requires row { size.units ≤ c }
    ensures value { result ≡ start_entry (linear_of program.now) c k }
    ensures in_range { InRange result }
{
    if k < size.units {
        entry_at_x(program, size, c, k)
    } else if k == size.units + size.units + size.rows + size.rows {
        entry_at_right(program, size, c)
    } else {
        one_at(c, k)
    }
}

fn write_start_row(row: &mut [i128], program: &Program, size: Size, c: usize)
    requires units { size.units ≡ length program.now.units }
    requires rows { size.rows ≡ length program.now.rows }
    requires few_units { size.units ≤ 128 }
    requires few_rows { size.rows ≤ 256 }
    requires column { size.units ≤ c }
    ensures length { length row.new ≡ length row.old }
    ensures value { (k : ℕ) → k < length row.old
        → slice_index_or row.new k (pos 0) ≡ start_entry (linear_of program.now) c k }
    ensures in_range { AllInRange row.new }
{
    for k in 0..row.len() {
        row[k] = entry(program, size, c, k);
    }
}

/// Writes the row of one column into a block of rows.
fn start_row(entries: &mut [i128], width: usize, program: &Program, size: Size, c: usize)
    requires room { c * width + width ≤ length entries.old }
    requires units { size.units ≡ length program.now.units }
    requires rows { size.rows ≡ length program.now.rows }
    requires few_units { size.units ≤ 128 }
    requires few_rows { size.rows ≤ 256 }
    requires column { size.units ≤ c }
    requires all_in_range { AllInRange entries.old }
    ensures length { length entries.new ≡ length entries.old }
    ensures value { (k : ℕ) → k < width
        → slice_index_or (row_at width entries.new c) k (pos 0)
        ≡ start_entry (linear_of program.now) c k }
    ensures others { (d : ℕ) → d ≢ c → row_at width entries.new d ≡ row_at width entries.old d }
    ensures in_range { AllInRange entries.new }
{
    let first = c * width;
    write_start_row(&mut entries[first..first + width], program, size, c);
}

/// Writes the rows of the columns that the basis has at the start.
pub(crate) fn start_rows(entries: &mut [i128], width: usize, program: &Program, size: Size)
    requires room { width * width ≤ length entries.old }
    requires few { width ≤ 770 }
    requires units { size.units ≡ length program.now.units }
    requires rows { size.rows ≡ length program.now.rows }
    requires few_units { size.units ≤ 128 }
    requires few_rows { size.rows ≤ 256 }
    requires all_in_range { AllInRange entries.old }
    ensures length { length entries.new ≡ length entries.old }
    ensures value { (c k : ℕ) → size.units ≤ c → c < width → k < width
        → slice_index_or (row_at width entries.new c) k (pos 0)
        ≡ start_entry (linear_of program.now) c k }
    ensures in_range { AllInRange entries.new }
{
    for c in size.units..width {
        start_row(entries, width, program, size, c);
    }
}

/// The numbers of units and rows of a program.
pub(crate) fn size_of(program: &Program) -> Size
    ensures units { result.units ≡ length program.now.units }
    ensures rows { result.rows ≡ length program.now.rows }
    ensures few_units { result.units ≤ 128 }
    ensures few_rows { result.rows ≤ 256 }
{
    program.is_program();
    Size {
        units: program.units().count() as usize,
        rows: program.rows().count() as usize,
    }
}

/// The number of the entries of a row.
pub(crate) fn width(size: Size) -> usize
    requires few_units { size.units ≤ 128 }
    requires few_rows { size.rows ≤ 256 }
    ensures value { result ≡ width_of size.units size.rows }
    ensures few { result ≤ 770 }
{
    size.units + size.units + size.rows + size.rows + 2
}

fn is_in_start(size: Size, column: usize) -> bool
    requires few_units { size.units ≤ 128 }
    requires few_rows { size.rows ≤ 256 }
    ensures { result ≡ start_of size.units size.rows column }
{
    let right = size.units + size.units + size.rows + size.rows;
    !(column < size.units) && column != right && column <= right + 1
}

/// Sets the flags of the columns that the basis has at the start.
pub(crate) fn start_flags(flags: &mut [bool], size: Size)
    requires few_units { size.units ≤ 128 }
    requires few_rows { size.rows ≤ 256 }
    requires room { width_of size.units size.rows ≤ length flags.old }
    ensures length { length flags.new ≡ length flags.old }
    ensures value { (k : ℕ) → slice_index_or flags.new k false ≡ start_of size.units size.rows k }
{
    for k in 0..flags.len() {
        flags[k] = is_in_start(size, k);
    }
}
