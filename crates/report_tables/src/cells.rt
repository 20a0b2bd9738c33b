//! More cells in a row.
ghost use Rattle.std.specs.Prelude.{◌≡◌, ◌++◌, ◌∷◌, [], IfOk, OnOk, map, string_bytes};
ghost use Rattle.report_amounts.specs.report_rules.Measures.{with_measure};
ghost use Rattle.report_amounts.specs.report_rules.Report.{number_cell, marginal_cell};

use crate::measures::MeasureUnit;
use crate::row::Row;
use report_amounts::{Marginals, Number};
use std::alloc::{AllocError, Global};

/// Appends the words as a cell.
pub fn push_words(alloc: Global, row: &mut Row, words: &str) -> Result<(), AllocError>
    ensures { OnOk result (row.new ≡ row.old ++ words.now ∷ []) }
{
    let mut cell = String::new(alloc);
    cell.push_str(words)?;
    row.push(cell)
}

/// Appends the words as a cell, and after them the unit of measure if there is one.
pub(crate) fn push_heading(
    alloc: Global,
    row: &mut Row,
    words: &str,
    measure: &MeasureUnit,
) -> Result<(), AllocError>
    ensures { OnOk result (row.new ≡ row.old ++ with_measure measure.now words.now ∷ []) }
{
    let mut cell = String::new(alloc);
    measure.push_with(&mut cell, words)?;
    row.push(cell)
}

/// The same for each of the words.
pub(crate) fn push_headings(
    alloc: Global,
    row: &mut Row,
    words: &[&str],
    measure: &MeasureUnit,
) -> Result<(), AllocError>
    ensures { OnOk result
        (row.new ≡ row.old ++ map (λ word. with_measure measure.now word.now) words.now) }
{
    'words: for word in words {
        push_heading(alloc, row, word, measure)?;
    }
    Ok(())
}

/// Appends the number with six digits if it has more, or `past` if it overflows.
#[tactic(auto, unfolding(crate::specs::Unfolded::number_cell))]
pub(crate) fn push_digits(text: &mut String, number: &Number) -> Result<(), AllocError>
    ensures { OnOk result
        (string_bytes text.new ≡ string_bytes text.old ++ number_cell number.now) }
{
    number.push(text)
}

pub(crate) fn push_number(alloc: Global, row: &mut Row, number: &Number) -> Result<(), AllocError>
    ensures { OnOk result (row.new ≡ row.old ++ number_cell number.now ∷ []) }
{
    let mut cell = String::new(alloc);
    push_digits(&mut cell, number)?;
    row.push(cell)
}

/// Appends a marginal, or `-` if there are none.
#[tactic(auto, unfolding(crate::specs::Unfolded::marginal_cell))]
pub(crate) fn push_marginal(
    alloc: Global,
    row: &mut Row,
    marginals: &Marginals,
    number: &Number,
) -> Result<(), AllocError>
    ensures { OnOk result (row.new ≡ row.old ++ marginal_cell marginals.now number.now ∷ []) }
{
    if marginals.are_known() {
        push_number(alloc, row, number)
    } else {
        push_words(alloc, row, "-")
    }
}

pub(crate) fn push_numbers(
    alloc: Global,
    row: &mut Row,
    numbers: &[Number],
) -> Result<(), AllocError>
    ensures { OnOk result (row.new ≡ row.old ++ map number_cell numbers.now) }
{
    'numbers: for number in numbers {
        push_number(alloc, row, number)?;
    }
    Ok(())
}
