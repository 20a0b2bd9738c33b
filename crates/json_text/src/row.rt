//! A line of a table.
ghost use Rattle.std.specs.Prelude.{◌≡◌};
ghost use Rattle.report_rules.specs.tree_text_rules.Token as tokens;
ghost use Rattle.tree_reading.specs.View.{line_of};
ghost use Rattle.report_rules.specs.RangeTable as rules;
ghost use Rattle.json_text.specs.View.{cells_of};

use crate::words::{Cells, cells_of};
use report_rules::{End, Row, Spot};
use std::str;
use tree_reading::amount::read_amount;
use tree_reading::{Line, Problem, TreeKind};

fn material_of(problem: &Problem, name: &[u8]) -> Result<u32, TreeKind>
    ensures { result ≡ tokens.material_of problem.now name.now }
{
    problem.is_valid();
    match str::from_utf8(name) {
        Ok(name) => problem.material_named(name).ok_or(TreeKind::UnknownName),
        Err(_) => Err(TreeKind::UnknownName),
    }
}

fn unit_of(problem: &Problem, name: &[u8]) -> Result<u32, TreeKind>
    ensures { result ≡ tokens.unit_of problem.now name.now }
{
    problem.is_valid();
    match str::from_utf8(name) {
        Ok(name) => problem.unit_named(name).ok_or(TreeKind::UnknownName),
        Err(_) => Err(TreeKind::UnknownName),
    }
}

/// The price or the cost of this kind and name.
fn spot_of(problem: &Problem, kind: &[u8], name: &[u8]) -> Result<Spot, TreeKind>
    ensures { result ≡ rules.spot_read problem.now kind.now name.now }
{
    if kind == b"price".as_slice() {
        Ok(Spot::Price(material_of(problem, name)?))
    } else if kind == b"fix".as_slice() {
        Ok(Spot::Fix(unit_of(problem, name)?))
    } else if kind == b"proportional".as_slice() {
        Ok(Spot::Proportional(unit_of(problem, name)?))
    } else {
        Err(TreeKind::BadLine)
    }
}

fn value_of(token: &[u8]) -> Result<i64, TreeKind>
    ensures { result ≡ rules.value_read token.now }
{
    match read_amount(token) {
        Ok(value) => Ok(value),
        Err(_) => Err(TreeKind::BadNumber),
    }
}

fn end_of(token: &[u8]) -> Result<End, TreeKind>
    ensures { result ≡ rules.end_read token.now }
{
    if token == b"limit".as_slice() {
        Ok(End::Limit)
    } else if token == b"?".as_slice() {
        Ok(End::Unknown)
    } else {
        Ok(End::Value(value_of(token)?))
    }
}

fn row_in(problem: &Problem, cells: &Cells<'_>) -> Result<Row, TreeKind>
    ensures { result ≡ rules.cells_read problem.now (cells_of cells.now) }
{
    let spot = spot_of(problem, cells.kind, cells.name)?;
    let value = value_of(cells.value)?;
    let from = end_of(cells.from)?;
    let to = end_of(cells.to)?;
    Ok(Row {
        spot,
        from,
        value,
        to,
    })
}

/// The row of a line.
pub(crate) fn row_of(problem: &Problem, line: &Line<'_>) -> Result<Row, TreeKind>
    ensures { result ≡ rules.row_read problem.now (line_of line.now) }
{
    row_in(problem, &cells_of(line)?)
}

fn is_heading(cells: &Cells<'_>) -> bool
    ensures { result ≡ rules.is_heading (cells_of cells.now) }
{
    cells.kind == b"kind".as_slice()
        && cells.name == b"name".as_slice()
        && cells.from == b"from".as_slice()
        && cells.value == b"now".as_slice()
        && cells.to == b"to".as_slice()
}

/// Whether the line has the headings.
pub(crate) fn has_headings(line: &Line<'_>) -> bool
    ensures { result ≡ rules.has_headings (line_of line.now) }
{
    match cells_of(line) {
        Ok(cells) => is_heading(&cells),
        Err(_) => false,
    }
}
