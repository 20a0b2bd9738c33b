//! A table with an empty line after it.
ghost use Rattle.std.specs.Prelude.{◌≡◌, ◌++◌, OnOk, string_bytes};
ghost use Rattle.cert_check.specs.pns_problem.Printing.{printed};
ghost use Rattle.report_amounts.specs.report_rules.Report.{table_and_gap};

use crate::row::Row;
use crate::table::push_table;
use report_amounts::Sort;
use std::alloc::{AllocError, Global};

/// Appends the lines of a table with columns of these sorts, and an empty line.
pub(crate) fn push_table_and_gap(
    alloc: Global,
    text: &mut String,
    sorts: &[Sort],
    heading: &Row,
    rows: &[Row],
) -> Result<(), AllocError>
    ensures { OnOk result
        (string_bytes text.new ≡ string_bytes text.old
        ++ printed (table_and_gap sorts.now heading.now rows.now)) }
{
    push_table(alloc, text, sorts, heading, rows)?;
    text.push('\n')?;
    Ok(())
}
