//! The whole text.
ghost use Rattle.std.specs.Prelude.{◌≡◌, ◌<◌, ◌-◌, ◌^◌, [], Ok, IfOk, IfErr, length};
ghost use Rattle.tree_reading.specs.text_lines.Tells.{Tells};
ghost use Rattle.tree_reading.specs.Place.{IsCut, lines_at};
ghost use Rattle.tree_reading.specs.Tells.{IsOfLine};
ghost use Rattle.tree_reading.specs.View.{line_of};
ghost use Rattle.report_rules.specs.RangeTable as rules;

use crate::row::{has_headings, row_of};
use crate::words::{has_no_word, is_first};
use report_rules::Row;
use std::alloc::Global;
use tree_reading::{Cut, Line, Problem, TreeFault, TreeKind, kind_at, line_at};

/// Whether the text is a table, by its first line.
pub fn is_table(bytes: &[u8]) -> bool
    requires { length bytes.now < 2 ^ 32 - 1 }
    ensures { result ≡ rules.is_table bytes.now }
{
    let front = Cut { at: 0, line: 1 };
    match line_at(bytes, front) {
        Some((line, _)) => is_first(b"kind", &line),
        None => false,
    }
}

/// The row of the line at this place.
fn row_at(problem: &Problem, line: &Line<'_>, at: Cut) -> Result<Row, TreeFault>
    ensures ok { IfOk result (λ row. rules.row_read problem.now (line_of line.now) ≡ Ok row) }
    ensures fault { IfErr result
        (IsOfLine at.line (rules.row_read problem.now (line_of line.now))) }
{
    match row_of(problem, line) {
        Ok(row) => Ok(row),
        Err(kind) => Err(kind_at(at, kind)),
    }
}

/// The rows from this place on, up to a line without words.
fn read_rows(
    alloc: Global,
    problem: &Problem,
    bytes: &[u8],
    cut: Cut,
) -> Result<Vec<Row>, TreeFault>
    requires cut { IsCut bytes.now cut }
    requires few { length bytes.now < 2 ^ 32 - 1 }
    ensures read { IfOk result
        (λ rows. rules.rows_taken problem.now [] cut.line (lines_at bytes.now cut)
        ≡ Ok rows.items) }
    ensures fault { IfErr result
        (Tells (rules.rows_taken problem.now [] cut.line (lines_at bytes.now cut))) }
{
    let mut rows = Vec::new(alloc);
    let mut at = cut;
    'reading: while let Some((line, behind)) = line_at(bytes, at) {
        if has_no_word(&line) {
            return Ok(rows);
        }
        let row = row_at(problem, &line, at)?;
        rows.push(row)?;
        at = behind;
    }
    Ok(rows)
}

/// The rows that a text stands for. Unless there is no memory (`Memory`), `At` comes if and only if
/// the text is not in the grammar: the least line that has a fault, counted from 1, and its kind.
#[tactic(auto, using(crate::proofs::Rows::unheaded))]
pub fn read_table(alloc: Global, problem: &Problem, bytes: &[u8]) -> Result<Vec<Row>, TreeFault>
    requires { length bytes.now < 2 ^ 32 - 1 }
    ensures read { IfOk result (λ rows. rules.read_table problem.now bytes.now ≡ Ok rows.items) }
    ensures fault { IfErr result (Tells (rules.read_table problem.now bytes.now)) }
{
    let front = Cut { at: 0, line: 1 };
    let Some((line, behind)) = line_at(bytes, front) else {
        return Err(kind_at(front, TreeKind::BadLine));
    };
    if has_headings(&line) {
        read_rows(alloc, problem, bytes, behind)
    } else {
        Err(kind_at(front, TreeKind::BadLine))
    }
}
