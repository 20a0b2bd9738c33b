//! A row as a line.
ghost use Rattle.std.specs.Prelude.{◌≡◌, ◌++◌, ◌∷◌, [], true, false, OnOk, string_bytes};
ghost use Rattle.report_amounts.specs.report_rules.Aligned.{spaces, shown, gap_left, before};
ghost use Rattle.report_amounts.specs.report_rules.Aligned.{behind, cell_text};
ghost use Rattle.report_amounts.specs.report_rules.Aligned.{gap_behind, line_text};

use crate::column::{Column, measured};
use crate::row::Row;
use report_amounts::{Measure, Sort};
use std::alloc::{AllocError, Global};

fn push_spaces(text: &mut String, count: usize) -> Result<(), AllocError>
    ensures { OnOk result (string_bytes text.new ≡ string_bytes text.old ++ spaces count) }
{
    let mut left = count;
    'spaces: while left > 0 {
        text.push(' ')?;
        left -= 1;
    }
    Ok(())
}

/// Appends the gap and a cell, and empties the gap. Of an empty cell it appends nothing.
fn push_shown(text: &mut String, gap: &mut String, cell: &str) -> Result<(), AllocError>
    ensures text { OnOk result
        (string_bytes text.new ≡ string_bytes text.old ++ shown (string_bytes gap.old) cell.now) }
    ensures gap { OnOk result (string_bytes gap.new ≡ gap_left (string_bytes gap.old) cell.now) }
{
    if cell.is_empty() {
        return Ok(());
    }
    text.push_str(gap)?;
    text.push_str(cell)?;
    gap.clear();
    Ok(())
}

fn push_before_heading(gap: &mut String, column: &Column, cell: &str) -> Result<(), AllocError>
    ensures { OnOk result
        (string_bytes gap.new ≡ string_bytes gap.old ++ before true column.now cell.now) }
{
    match column.sort {
        Sort::Words => Ok(()),
        Sort::Numbers | Sort::Sums => {
            let whole = measured(Measure::Whole, cell);
            push_spaces(gap, column.front.saturating_sub(whole))?;
            let beyond = whole.saturating_sub(column.front);
            push_spaces(gap, column.back.saturating_sub(beyond))
        }
    }
}

fn push_before_cell(gap: &mut String, column: &Column, cell: &str) -> Result<(), AllocError>
    ensures { OnOk result
        (string_bytes gap.new ≡ string_bytes gap.old ++ before false column.now cell.now) }
{
    match column.sort {
        Sort::Words => Ok(()),
        Sort::Numbers | Sort::Sums => {
            push_spaces(gap, column.room)?;
            let front = measured(Measure::Front, cell);
            push_spaces(gap, column.front.saturating_sub(front))
        }
    }
}

fn push_before(
    gap: &mut String,
    heading: bool,
    column: &Column,
    cell: &str,
) -> Result<(), AllocError>
    ensures { OnOk result
        (string_bytes gap.new ≡ string_bytes gap.old ++ before heading column.now cell.now) }
{
    if heading {
        push_before_heading(gap, column, cell)
    } else {
        push_before_cell(gap, column, cell)
    }
}

fn push_behind_heading(gap: &mut String, column: &Column, cell: &str) -> Result<(), AllocError>
    ensures { OnOk result
        (string_bytes gap.new ≡ string_bytes gap.old ++ behind true column.now cell.now) }
{
    match column.sort {
        Sort::Words => {
            let whole = measured(Measure::Whole, cell);
            push_spaces(gap, column.front.saturating_sub(whole))
        }
        Sort::Numbers | Sort::Sums => Ok(()),
    }
}

fn push_behind_cell(gap: &mut String, column: &Column, cell: &str) -> Result<(), AllocError>
    ensures { OnOk result
        (string_bytes gap.new ≡ string_bytes gap.old ++ behind false column.now cell.now) }
{
    match column.sort {
        Sort::Words => {
            let whole = measured(Measure::Whole, cell);
            push_spaces(gap, column.front.saturating_sub(whole))
        }
        Sort::Numbers | Sort::Sums => {
            let back = measured(Measure::Back, cell);
            push_spaces(gap, column.back.saturating_sub(back))
        }
    }
}

fn push_behind(
    gap: &mut String,
    heading: bool,
    column: &Column,
    cell: &str,
) -> Result<(), AllocError>
    ensures { OnOk result
        (string_bytes gap.new ≡ string_bytes gap.old ++ behind heading column.now cell.now) }
{
    if heading {
        push_behind_heading(gap, column, cell)
    } else {
        push_behind_cell(gap, column, cell)
    }
}

/// Appends the gap and a cell of a kept column, and then makes the gap that follows it.
fn push_kept(
    text: &mut String,
    gap: &mut String,
    heading: bool,
    column: &Column,
    cell: &str,
) -> Result<(), AllocError>
    ensures text { OnOk result
        (string_bytes text.new ≡ string_bytes text.old
        ++ shown (string_bytes gap.old ++ before heading column.now cell.now) cell.now) }
    ensures gap { OnOk result
        (string_bytes gap.new
        ≡ gap_left (string_bytes gap.old ++ before heading column.now cell.now) cell.now
        ++ (behind heading column.now cell.now ++ 32 ∷ 32 ∷ [])) }
{
    push_before(gap, heading, column, cell)?;
    push_shown(text, gap, cell)?;
    push_behind(gap, heading, column, cell)?;
    gap.push_str("  ")?;
    Ok(())
}

/// Appends the gap and a cell, and then makes the gap that follows it. Of a column that is left out
/// it appends nothing.
fn push_cell(
    text: &mut String,
    gap: &mut String,
    heading: bool,
    column: &Column,
    cell: &str,
) -> Result<(), AllocError>
    ensures text { OnOk result
        (string_bytes text.new ≡ string_bytes text.old
        ++ cell_text heading column.now (string_bytes gap.old) cell.now) }
    ensures gap { OnOk result
        (string_bytes gap.new ≡ gap_behind heading column.now (string_bytes gap.old) cell.now) }
{
    if column.kept {
        push_kept(text, gap, heading, column, cell)
    } else {
        Ok(())
    }
}

/// Appends a row, of headings or of others.
pub(crate) fn push_line(
    alloc: Global,
    text: &mut String,
    heading: bool,
    columns: &[Column],
    row: &Row,
) -> Result<(), AllocError>
    ensures { OnOk result
        (string_bytes text.new ≡ string_bytes text.old
        ++ line_text heading 0 [] columns.now row.now) }
{
    let mut gap = String::new(alloc);
    'columns: for k in 0..columns.len() {
        let column = &columns[k];
        let cell = row.cell(k);
        push_cell(text, &mut gap, heading, column, cell)?;
    }
    Ok(())
}
