//! Records of a table, by the writer of `csv` with its default settings.
ghost use Rattle.std.specs.Prelude.{◌≡◌, ◌++◌, ◌∷◌, [], ℕ, List, Some, IfOk, OnOk};
ghost use Rattle.csv.specs.Writing.{default_writer, row_text};
ghost use Rattle.report_amounts.specs.Written.{HasWritten};

use csv::Writer;
use std::alloc::{AllocError, Global};

/// Writes one record of three fields.
pub(crate) fn push_row<'a>(
    writer: &mut Writer<Vec<u8>>,
    first: &'a [u8],
    second: &'a [u8],
    third: &'a [u8],
) -> Result<(), AllocError>
    ensures { (bytes : List ℕ) → HasWritten (λ v. Some v.items) writer.old bytes
        → OnOk result
        (HasWritten (λ v. Some v.items) writer.new
        (bytes ++ row_text default_writer (first.now ∷ second.now ∷ third.now ∷ []))) }
{
    match writer.write_fields(&[first, second, third]) {
        Ok(()) => Ok(()),
        Err(_) => Err(AllocError),
    }
}

/// A writer that has written the heading.
pub(crate) fn headed<'a>(
    alloc: Global,
    first: &'a [u8],
    second: &'a [u8],
    third: &'a [u8],
) -> Result<Writer<Vec<u8>>, AllocError>
    ensures { IfOk result
        (λ writer. HasWritten (λ v. Some v.items) writer
        (row_text default_writer (first.now ∷ second.now ∷ third.now ∷ []))) }
{
    let mut writer = Writer::from_writer(Vec::new(alloc));
    push_row(&mut writer, first, second, third)?;
    Ok(writer)
}

/// What was written.
pub(crate) fn written(writer: Writer<Vec<u8>>) -> Result<Vec<u8>, AllocError>
    ensures { (bytes : List ℕ) → HasWritten (λ v. Some v.items) writer bytes
        → IfOk result (λ v. v.items ≡ bytes) }
{
    match writer.into_inner() {
        Ok(bytes) => Ok(bytes),
        Err(_) => Err(AllocError),
    }
}
