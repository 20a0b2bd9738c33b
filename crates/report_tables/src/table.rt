//! All lines of a table.
ghost use Rattle.std.specs.Prelude.{◌≡◌, ◌++◌, [], OnOk, string_bytes, map, true, false};
ghost use Rattle.cert_check.specs.pns_problem.Printing.{printed};
ghost use Rattle.report_amounts.specs.report_rules.Aligned.{line_text, table_lines};

use crate::column::{Column, columns_of};
use crate::line::push_line;
use crate::row::Row;
use report_amounts::Sort;
use std::alloc::{AllocError, Global};

fn push_rows(
    alloc: Global,
    text: &mut String,
    columns: &[Column],
    rows: &[Row],
) -> Result<(), AllocError>
    ensures { OnOk result
        (string_bytes text.new ≡ string_bytes text.old
        ++ printed (map (line_text false 0 [] columns.now) rows.now)) }
{
    'printing: for row in rows {
        push_line(alloc, text, false, columns, row)?;
        text.push('\n')?;
    }
    Ok(())
}

/// Appends the lines of a table with columns of these sorts.
pub fn push_table(
    alloc: Global,
    text: &mut String,
    sorts: &[Sort],
    heading: &Row,
    rows: &[Row],
) -> Result<(), AllocError>
    ensures { OnOk result
        (string_bytes text.new ≡ string_bytes text.old
        ++ printed (table_lines sorts.now heading.now rows.now)) }
{
    let columns = columns_of(alloc, sorts, heading, rows)?;
    push_line(alloc, text, true, &columns, heading)?;
    text.push('\n')?;
    push_rows(alloc, text, &columns, rows)
}
