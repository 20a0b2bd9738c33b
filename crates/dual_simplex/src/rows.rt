//! [`Rows`], and what is read of it.
ghost use Rattle.std.specs.Prelude.{◌≡◌, ◌<◌, ◌≤◌, ◌+◌, ◌*◌, ◌<ℤ◌, pos, suc, length, true, false};
ghost use Rattle.std.specs.Prelude.{slice_set, slice_index_or, ℕ, IfOk, OnOk, OnErr, IfErr};
ghost use Rattle.flow_program.specs.flow_rules.LinearProgram.{linear_of};
ghost use Rattle.flow_program.specs.flow_rules.Columns.{start};
ghost use Rattle.flow_program.specs.flow_rules.Start.{IsStart};
ghost use Rattle.flow_program.specs.integer_laws.Range.{InRange, AllInRange};
ghost use Rattle.dual_simplex.specs.Rows.{width, row_of, table, basis, AreRows};
ghost use Rattle.dual_simplex.specs.Exchange.{pivot_row, IsExchanged, IsPastRow, IsSameSize};

use crate::exchange::exchange_block;
use crate::start::{size_of, start_flags, start_rows, width};
use crate::step::PastRow;
use flow_program::Program;
use std::alloc::{AllocError, Global};
use std::marker::Model;

/// The rows of a tableau, with a flag for each column of the basis. Columns are named by their
/// places in a row.
#[derive(Drop)]
pub struct Rows {
    units: usize,
    rows: usize,
    most_units: usize,
    most_rows: usize,
    basic: Vec<bool>,
    // Row after row, and after the last one room for a pivot row.
    entries: Vec<i128>,
}

impl Model for Rows {
    ghost use Rattle.dual_simplex.specs.Rows as specs;

    ghost Value = { specs.Rows };

    ghost view = { λ r. record {
      units = r.units;
      rows = r.rows;
      most_units =
          r.most_units;
      most_rows = r.most_rows;
      basic = r.basic.items;
      entries = r.entries.items;
    } };

    ghost invariant = { λ r. specs.AreRows
        (record {
          units = r.units;
          rows = r.rows;
          most_units = r.most_units;
          most_rows =
              r.most_rows;
          basic = r.basic.items;
          entries = r.entries.items;
        }) };
}

impl Rows {
    /// All rows have this. A call gives it to a proof.
    pub fn are_rows(&self)
        ensures { AreRows self.now }
    {
        let _units = self.units;
    }

    /// The number of the program's units.
    pub fn units(&self) -> usize
        ensures { result ≡ self.now.units }
    {
        self.units
    }

    /// The number of the program's rows.
    pub fn rows(&self) -> usize
        ensures { result ≡ self.now.rows }
    {
        self.rows
    }

    /// The number of the entries of a row.
    pub fn width(&self) -> usize
        ensures { result ≡ width self.now }
    {
        self.are_rows();
        self.scale_at() + 1
    }

    /// The place of the size of a unit above the least.
    pub fn x_at(&self, unit: usize) -> usize
        ensures { result ≡ unit }
    {
        unit
    }

    /// The place of what is left of a unit to the greatest.
    pub fn s_at(&self, unit: usize) -> usize
        requires { unit < self.now.units }
        ensures { result ≡ self.now.units + unit }
    {
        self.units + unit
    }

    /// The place of what a row is above its floor.
    pub fn t_at(&self, row: usize) -> usize
        requires { row < self.now.rows }
        ensures { result ≡ self.now.units + self.now.units + row }
    {
        self.units + self.units + row
    }

    /// The place of what is left of a row to its ceiling.
    pub fn w_at(&self, row: usize) -> usize
        requires { row < self.now.rows }
        ensures { result ≡ self.now.units + self.now.units + self.now.rows + row }
    {
        self.units + self.units + self.rows + row
    }

    /// The place of the right side, which is the number of the columns.
    pub fn right_at(&self) -> usize
        ensures { result ≡ self.now.units + self.now.units + self.now.rows + self.now.rows }
    {
        self.units + self.units + self.rows + self.rows
    }

    /// The place of the scale.
    pub fn scale_at(&self) -> usize
        ensures { result ≡ suc (self.now.units + self.now.units + self.now.rows + self.now.rows) }
    {
        self.right_at() + 1
    }

    /// Whether the basis has the column.
    pub fn is_basic(&self, column: usize) -> bool
        requires { column < width self.now }
        ensures { result ≡ basis self.now column }
    {
        self.basic[column]
    }

    /// The flags of the basis, of which those of the columns and of the scale count.
    pub fn basic(&self) -> &[bool]
        ensures { result.now ≡ self.now.basic }
    {
        &self.basic
    }

    /// The row of a basis column.
    pub fn row(&self, column: usize) -> &[i128]
        requires { column < width self.now }
        ensures value { result.now ≡ row_of self.now column }
        ensures length { length result.now ≡ width self.now }
        ensures in_range { AllInRange result.now }
    {
        self.are_rows();
        let width = self.width();
        let first = column * width;
        &self.entries[first..first + width]
    }

    /// The entry of the row of a basis column at another column.
    pub fn entry(&self, column: usize, at: usize) -> i128
        requires row { column < width self.now }
        requires at { at < width self.now }
        ensures value { result ≡ table self.now column at }
        ensures in_range { InRange result }
    {
        self.row(column)[at]
    }

    /// Makes room for the rows of programs of at most so many units and rows. `Err` comes only when
    /// memory runs out.
    pub fn open(alloc: Global, units: u32, rows: u32) -> Result<Rows, AllocError>
        requires units { units ≤ 128 }
        requires rows { rows ≤ 256 }
        ensures units { IfOk result (λ r. r.most_units ≡ units) }
        ensures rows { IfOk result (λ r. r.most_rows ≡ rows) }
    {
        let (most_units, most_rows) = (units as usize, rows as usize);
        let width = most_units + most_units + most_rows + most_rows + 2;
        let basic = vec![in alloc; false; width]?;
        let entries = vec![in alloc; 0i128; (width + 1) * width]?;
        Ok(Rows {
            units: most_units,
            rows: most_rows,
            most_units,
            most_rows,
            basic,
            entries,
        })
    }

    /// Makes the rows those at the start of the path of a program, whatever they were.
    pub fn start(&mut self, program: &Program)
        requires units { length program.now.units ≤ self.old.most_units }
        requires rows { length program.now.rows ≤ self.old.most_rows }
        ensures start { IsStart (linear_of program.now) (table self.new) }
        ensures basis { (k : ℕ) → basis self.new k ≡ start (linear_of program.now) k }
        ensures units { self.new.units ≡ length program.now.units }
        ensures rows { self.new.rows ≡ length program.now.rows }
        ensures most_units { self.new.most_units ≡ self.old.most_units }
        ensures most_rows { self.new.most_rows ≡ self.old.most_rows }
    {
        self.are_rows();
        let size = size_of(program);
        let width = width(size);
        self.units = size.units;
        self.rows = size.rows;
        start_rows(&mut self.entries, width, program, size);
        start_flags(&mut self.basic, size);
    }

    /// Takes `l` out of the basis and `e` in. The row of `l`, negated if `negate` says so, is the
    /// pivot row. It becomes the row of `e`, and is combined with each other row of the basis that
    /// has an entry at `e`. An error comes exactly if a number on the way is out of range. Then the
    /// basis is as it was, but its rows are not.
    pub fn exchange(&mut self, l: usize, e: usize, negate: bool) -> Result<(), PastRow>
        requires l { l < width self.old }
        requires e { e < width self.old }
        requires was { basis self.old l ≡ true }
        requires free { basis self.old e ≡ false }
        requires positive { pos 0 <ℤ slice_index_or (pivot_row negate (row_of self.old l)) e
            (pos 0) }
        ensures size { IsSameSize self.old self.new }
        ensures done { OnOk result
            (IsExchanged self.old self.new l e (pivot_row negate (row_of self.old l))) }
        ensures past { IfErr result
            (λ p. IsPastRow self.old l e (pivot_row negate (row_of self.old l)) p.row p.j p.which) }
        ensures flags { OnErr result (self.new.basic ≡ self.old.basic) }
    {
        self.are_rows();
        let width = self.width();
        if let Err(past) = exchange_block(&mut self.entries, width, &self.basic, l, e, negate) {
            return Err(past);
        }
        exchange_flags(&mut self.basic, l, e);
        Ok(())
    }
}

fn exchange_flags(flags: &mut [bool], l: usize, e: usize)
    requires l { l < length flags.old }
    requires e { e < length flags.old }
    ensures { flags.new ≡ slice_set (slice_set flags.old l false) e true }
{
    flags[l] = false;
    flags[e] = true;
}
