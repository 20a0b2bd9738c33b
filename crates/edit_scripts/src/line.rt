//! One line of a script.
ghost use Rattle.text_lines.specs.View.{texts};
ghost use Rattle.text_lines.specs.edit_rules.Read.{fields_read, line_read};
ghost use Rattle.edit_scripts.specs.Reads.{Reads};
ghost use Rattle.edit_scripts.specs.View.{edit_of};

use crate::edit::Edit;
use crate::fault::LineFault;
use crate::token::{
    amount_fault, bound_fault, judge, kind_fault, kind_of, name_fault, name_string, word_named,
    years_fault, years_of,
};
use crate::{fields, insertion};
use std::alloc::Global;
use text_lines::amount::millionths;
use text_lines::token::tokens_of;
use text_lines::{EditKind, Word};

/// `NAME KIND`
fn kind(alloc: Global, fields: &[&[u8]]) -> Result<Edit, LineFault>
    ensures { Reads edit_of (fields_read Word.Kind (texts fields.now)) result }
{
    match fields {
        [name, kind] => {
            judge(&[name_fault(*name), kind_fault(*kind)])?;
            Ok(Edit::Kind {
                material: name_string(alloc, *name)?,
                kind: kind_of(*kind),
            })
        }
        _ => Err(LineFault::Kind(EditKind::BadLine)),
    }
}

/// `NAME LOWER UPPER`
fn material_bounds(alloc: Global, fields: &[&[u8]]) -> Result<Edit, LineFault>
    ensures { Reads edit_of (fields_read Word.Bounds (texts fields.now)) result }
{
    let (name, lower, upper) = fields::bounds(fields)?;
    Ok(Edit::Bounds {
        material: String::from_str(alloc, name)?,
        lower,
        upper,
    })
}

/// `NAME FIXED`
fn fix(alloc: Global, fields: &[&[u8]]) -> Result<Edit, LineFault>
    ensures { Reads edit_of (fields_read Word.Fix (texts fields.now)) result }
{
    match fields {
        [name, value] => {
            judge(&[name_fault(*name), bound_fault(*value)])?;
            Ok(Edit::Fix {
                unit: name_string(alloc, *name)?,
                value: millionths(*value),
            })
        }
        _ => Err(LineFault::Kind(EditKind::BadLine)),
    }
}

/// `NAME FIXED PROPORTIONAL`
fn investment(alloc: Global, fields: &[&[u8]]) -> Result<Edit, LineFault>
    ensures { Reads edit_of (fields_read Word.Investment (texts fields.now)) result }
{
    match fields {
        [name, fix, proportional] => {
            judge(&[
                name_fault(*name),
                bound_fault(*fix),
                amount_fault(*proportional),
            ])?;
            Ok(Edit::Investment {
                unit: name_string(alloc, *name)?,
                fix: millionths(*fix),
                proportional: millionths(*proportional),
            })
        }
        _ => Err(LineFault::Kind(EditKind::BadLine)),
    }
}

/// `YEARS`
fn payout(fields: &[&[u8]]) -> Result<Edit, LineFault>
    ensures { Reads edit_of (fields_read Word.Payout (texts fields.now)) result }
{
    match fields {
        [years] => {
            judge(&[years_fault(*years)])?;
            Ok(Edit::Payout {
                years: years_of(*years) as i64,
            })
        }
        _ => Err(LineFault::Kind(EditKind::BadLine)),
    }
}

// The edit of the tokens after the word.
fn read_fields(alloc: Global, word: Word, fields: &[&[u8]]) -> Result<Edit, LineFault>
    ensures { Reads edit_of (fields_read word (texts fields.now)) result }
{
    let name = || fields::name(alloc, fields);
    match word {
        Word::Price => {
            let (name, value) = fields::amount(fields)?;
            let material = String::from_str(alloc, name)?;
            Ok(Edit::Price { material, value })
        }
        Word::Bounds => material_bounds(alloc, fields),
        Word::Kind => kind(alloc, fields),
        Word::Capacity => {
            let (name, lower, upper) = fields::bounds(fields)?;
            let unit = String::from_str(alloc, name)?;
            Ok(Edit::Capacity { unit, lower, upper })
        }
        Word::Fix => fix(alloc, fields),
        Word::Proportional => {
            let (name, value) = fields::amount(fields)?;
            let unit = String::from_str(alloc, name)?;
            Ok(Edit::Proportional { unit, value })
        }
        Word::RenameMaterial => {
            let (old, new) = fields::names(alloc, fields)?;
            Ok(Edit::RenameMaterial { old, new })
        }
        Word::RenameUnit => {
            let (old, new) = fields::names(alloc, fields)?;
            Ok(Edit::RenameUnit { old, new })
        }
        Word::AddMaterial => insertion::insert_material(alloc, fields),
        Word::RemoveMaterial => Ok(Edit::RemoveMaterial { material: name()? }),
        Word::AddUnit => insertion::insert_unit(alloc, fields),
        Word::RemoveUnit => Ok(Edit::RemoveUnit { unit: name()? }),
        Word::Exclude => insertion::insert_exclusion(alloc, fields),
        Word::Unexclude => Ok(Edit::Unexclude { name: name()? }),
        Word::Investment => investment(alloc, fields),
        Word::Payout => payout(fields),
    }
}

/// The edit of a line that is not empty, or what is wrong with it.
pub(crate) fn read_line(alloc: Global, text: &[u8]) -> Result<Edit, LineFault>
    ensures { Reads edit_of (line_read text.now) result }
{
    let tokens = tokens_of(alloc, text)?;
    match tokens.as_slice() {
        [word, fields @ ..] => match word_named(*word) {
            Some(word) => read_fields(alloc, word, fields),
            None => Err(LineFault::Kind(EditKind::BadLine)),
        },
        [] => Err(LineFault::Kind(EditKind::BadLine)),
    }
}
