//! [`Bench`], on which programs are solved one after the other.
ghost use Rattle.std.specs.Prelude.{◌≡◌, ◌≤◌, ◌<◌, ℕ, length, All, IfOk, IfErr, OnOk, OnErr};
ghost use Rattle.flow_program.specs.flow_rules.Program.{Program};
ghost use Rattle.dual_simplex.specs.PastPlace.{IsPastOf, IsPastFlowOf};
ghost use Rattle.dual_simplex.specs.Bench.{HasRoom, IsLeastOf, AreFlowsOf};
ghost use Rattle.dual_simplex.specs.Answer.{EndsAs};
ghost use Rattle.dual_simplex.specs.Sizes.{IsSize};

use crate::ends::{read_multipliers, read_refutation, read_sizes};
use crate::names::{column_at, entry_place, flow_place, put_nonbasic};
use crate::rows::Rows;
use crate::sizes::put_sizes;
use crate::walk::walk;
use flow_program::{Column, Place, Program};
use std::alloc::{AllocError, Global};
use std::marker::Model;

/// How the path of a program ends: with least flows, or with a row that shows that there are none.
#[derive(Clone, Copy, Debug, PartialEq, Eq)]
pub enum Ends {
    Least,
    None,
}

/// Room for the rows of a tableau, in which one program is solved after the other.
#[derive(Drop)]
pub struct Bench {
    rows: Rows,
    // The first `nonbasic` of them are the columns that are not in the basis.
    columns: Vec<Column>,
    nonbasic: usize,
    d: i128,
    ys: Vec<i128>,
    row: Column,
    flows: Vec<i128>,
    flow_den: i128,
    sizes: Vec<i64>,
}

impl Model for Bench {
    ghost use Rattle.std.specs.Prelude.{◌≡◌, ◌≤◌, take, length};
    ghost use Rattle.dual_simplex.specs.Bench as specs;

    ghost Value = { specs.Bench };

    ghost view = { λ b. record {
      rows = b.rows;
      nonbasic = take b.nonbasic b.columns.items;
      d =
          b.d;
      ys = take b.rows.rows b.ys.items;
      row = b.row;
      flows =
          take b.rows.units b.flows.items;
      flow_den = b.flow_den;
    } };

    ghost invariant = { λ b. specs.HasLists b.rows b.nonbasic (length b.columns.items)
        (length b.ys.items) (length b.flows.items) b.sizes.items };
}

impl Bench {
    /// Makes room for programs of at most so many units and rows.
    pub fn open(alloc: Global, units: u32, rows: u32) -> Result<Bench, AllocError>
        requires units { units ≤ 128 }
        requires rows { rows ≤ 256 }
        ensures { IfOk result (λ b. HasRoom b units rows) }
    {
        let (most_units, most_rows) = (units as usize, rows as usize);
        let most_columns = most_units + most_units + most_rows + most_rows;
        let columns = vec![in alloc; Column::Right; most_columns]?;
        let ys = vec![in alloc; 0i128; most_rows]?;
        let flows = vec![in alloc; 0i128; most_units]?;
        let sizes = vec![in alloc; 0i64; most_units]?;
        let rows = Rows::open(alloc, units, rows)?;
        Ok(Bench {
            rows,
            columns,
            nonbasic: 0,
            d: 0,
            ys,
            row: Column::Right,
            flows,
            flow_den: 1,
            sizes,
        })
    }

    /// Walks the path of the program to its last basis, and keeps that. `Err` names the entry that
    /// is out of range at the pivot of this basis.
    pub fn least(&mut self, program: &Program) -> Result<Ends, Place>
        requires fits { HasRoom self.old (length program.now.units) (length program.now.rows) }
        ensures units { self.new.rows.most_units ≡ self.old.rows.most_units }
        ensures rows { self.new.rows.most_rows ≡ self.old.rows.most_rows }
        ensures ends { IfOk result (λ end. EndsAs program.now self.new end) }
        ensures past { IfErr result (λ place. IsPastOf program.now self.new place) }
    {
        let end = walk(&mut self.rows, program);
        self.rows.are_rows();
        self.nonbasic = put_nonbasic(&mut self.columns, &self.rows, program);
        match end {
            Err(past) => Err(entry_place(program, past)),
            Ok(None) => {
                self.d = read_multipliers(&self.rows, program, &mut self.ys);
                put_sizes(&self.rows, program, &mut self.sizes);
                Ok(Ends::Least)
            }
            Ok(Some(row)) => {
                read_refutation(&self.rows, program, row, &mut self.ys);
                self.row = column_at(program, row);
                Ok(Ends::None)
            }
        }
    }

    /// Reads the flows of the last basis of a program, after `Least` for it, and keeps them. They
    /// are refused exactly if a number that is formed for them is out of range. The refusal names
    /// the first, and leaves the bench as it was.
    pub fn read_flows(&mut self, program: &Program) -> Result<(), Place>
        requires least { IsLeastOf program.now self.old }
        ensures least { IsLeastOf program.now self.new }
        ensures rows { self.new.rows ≡ self.old.rows }
        ensures d { self.new.d ≡ self.old.d }
        ensures ys { self.new.ys ≡ self.old.ys }
        ensures flows { OnOk result (AreFlowsOf program.now self.new) }
        ensures past { IfErr result (λ place. IsPastFlowOf program.now self.new place) }
        ensures unchanged { OnErr result (self.new ≡ self.old) }
    {
        self.rows.are_rows();
        match read_sizes(&self.rows, program, &mut self.flows) {
            Err(past) => Err(flow_place(program, past)),
            Ok(den) => {
                self.flow_den = den;
                Ok(())
            }
        }
    }

    /// The scale of the multipliers.
    pub fn d(&self) -> i128
        ensures { result ≡ self.now.d }
    {
        self.d
    }

    /// The multipliers of the rows of the program.
    pub fn ys(&self) -> &[i128]
        ensures { result.now ≡ self.now.ys }
    {
        self.rows.are_rows();
        &self.ys[..self.rows.rows()]
    }

    /// The sizes of the units of the program at the basis that is kept, after `Least`, in whole
    /// millionths rounded down.
    pub fn sizes(&self) -> &[i64]
        ensures count { (q : Program) → IsLeastOf q self.now → length result.now ≡ length q.units }
        ensures range { All IsSize result.now }
    {
        self.rows.are_rows();
        &self.sizes[..self.rows.units()]
    }

    /// The columns that are not in the basis that is kept, after any `least`, in the order of their
    /// places: x, s, t, w.
    pub fn nonbasic(&self) -> &[Column]
        ensures { result.now ≡ self.now.nonbasic }
    {
        &self.columns[..self.nonbasic]
    }

    /// The column whose row can't be met, after `None`.
    pub fn row(&self) -> Column
        ensures { result ≡ self.now.row }
    {
        self.row
    }

    /// The sizes of the units of the program over `flow_den`, after `read_flows`.
    pub fn flows(&self) -> &[i128]
        ensures { result.now ≡ self.now.flows }
    {
        self.rows.are_rows();
        &self.flows[..self.rows.units()]
    }

    /// The denominator of the flows.
    pub fn flow_den(&self) -> i128
        ensures { result ≡ self.now.flow_den }
    {
        self.flow_den
    }
}
