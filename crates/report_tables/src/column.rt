//! How wide columns are.
ghost use Rattle.std.specs.Prelude.{◌≡◌, ◌++◌, ◌∷◌, [], IfOk, length};
ghost use Rattle.report_amounts.specs.report_rules.Aligned.{cell_at, is_nothing, tells_nothing};
ghost use Rattle.report_amounts.specs.report_rules.Aligned.{all_tell_nothing};
ghost use Rattle.report_amounts.specs.report_rules.Aligned.{measured, greater, widest, numbers_at};
ghost use Rattle.report_amounts.specs.report_rules.Aligned.{column_at};
ghost use Rattle.report_amounts.specs.report_rules.Aligned.{columns_from};

use crate::row::Row;
use report_amounts::{Measure, Sort};
use std::alloc::{AllocError, Global};
use std::marker::Model;
use text_lines::line::place_of;

/// A column, how wide it is, in bytes, and whether it is kept.
#[derive(Drop)]
pub(crate) struct Column {
    pub(crate) sort: Sort,
    pub(crate) front: usize,
    pub(crate) back: usize,
    pub(crate) room: usize,
    pub(crate) kept: bool,
}

impl Model for Column {
    ghost use Rattle.report_amounts.specs.report_rules.Aligned as rules;

    ghost Value = { rules.Column };

    ghost view = { λ c. record {
      sort = c.sort;
      front = c.front;
      back = c.back;
      room =
          c.room;
      kept = c.kept;
    } };
}

pub(crate) fn measured(measure: Measure, cell: &str) -> usize
    ensures { result ≡ measured measure cell.now }
{
    let bytes = cell.as_bytes();
    match measure {
        Measure::Whole => bytes.len(),
        Measure::Front => place_of(b'.', bytes),
        Measure::Back => bytes.len() - place_of(b'.', bytes),
    }
}

fn greater(left: usize, right: usize) -> usize
    ensures { result ≡ greater left right }
{
    if left < right { right } else { left }
}

/// The greatest measure of the cells in column k, at least the given one.
fn widest(measure: Measure, k: usize, least: usize, rows: &[Row]) -> usize
    ensures { result ≡ widest measure k least rows.now }
{
    let mut best = least;
    'rows: for row in rows {
        best = greater(best, measured(measure, row.cell(k)));
    }
    best
}

fn is_nothing(byte: u8) -> bool
    ensures { result ≡ is_nothing byte }
{
    byte == b'0' || byte == b'-' || byte == b'.'
}

/// Whether a cell is 0, `-` or empty.
fn tells_nothing(cell: &str) -> bool
    ensures { result ≡ tells_nothing cell.now }
{
    let bytes = cell.as_bytes();
    'bytes: for byte in bytes {
        if !is_nothing(*byte) {
            return false;
        }
    }
    true
}

/// Whether all cells in column k are so.
fn all_tell_nothing(k: usize, rows: &[Row]) -> bool
    ensures { result ≡ all_tell_nothing k rows.now }
{
    'rows: for row in rows {
        if !tells_nothing(row.cell(k)) {
            return false;
        }
    }
    true
}

/// A column of numbers.
fn numbers_at(sort: Sort, k: usize, heading: &Row, rows: &[Row], kept: bool) -> Column
    ensures { result ≡ numbers_at sort k heading.now rows.now kept }
{
    let own = measured(Measure::Whole, heading.cell(k));
    let front = widest(Measure::Front, k, 0, rows);
    let back = widest(Measure::Back, k, 0, rows);
    let room = own.saturating_sub(front).saturating_sub(back);
    Column {
        sort,
        front,
        back,
        room,
        kept,
    }
}

/// Column k.
fn column_at(sort: Sort, k: usize, heading: &Row, rows: &[Row]) -> Column
    ensures { result ≡ column_at sort k heading.now rows.now }
{
    match sort {
        Sort::Words => {
            let own = measured(Measure::Whole, heading.cell(k));
            Column {
                sort: Sort::Words,
                front: widest(Measure::Whole, k, own, rows),
                back: 0,
                room: 0,
                kept: !all_tell_nothing(k, rows),
            }
        }
        Sort::Numbers => numbers_at(Sort::Numbers, k, heading, rows, !all_tell_nothing(k, rows)),
        Sort::Sums => numbers_at(Sort::Sums, k, heading, rows, true),
    }
}

/// The columns of a table.
pub(crate) fn columns_of(
    alloc: Global,
    sorts: &[Sort],
    heading: &Row,
    rows: &[Row],
) -> Result<Vec<Column>, AllocError>
    ensures { IfOk result
        (λ columns. columns.items ≡ columns_from 0 sorts.now heading.now rows.now) }
{
    let mut columns = Vec::new(alloc);
    'columns: for k in 0..sorts.len() {
        let column = column_at(sorts[k], k, heading, rows);
        columns.push(column)?;
    }
    Ok(columns)
}
