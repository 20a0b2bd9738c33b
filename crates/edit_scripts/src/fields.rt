//! The tokens after the first of a line, for the forms that several words share.
ghost use Rattle.std.specs.Prelude.{◌≡◌, Ok, IfOk, IfErr, string_bytes};
ghost use Rattle.text_lines.specs.View.{texts};
ghost use Rattle.text_lines.specs.Tells.{TellsLine};
ghost use Rattle.text_lines.specs.edit_rules.Read.{name_read, names_read, amount_read, bounds_read};
ghost use Rattle.edit_scripts.specs.Reads.{Reads};

use crate::fault::LineFault;
use crate::token::{amount_fault, bound_fault, judge, name_fault, name_string, name_text};
use std::alloc::Global;
use text_lines::EditKind;
use text_lines::amount::millionths;

/// A name.
pub(crate) fn name(alloc: Global, fields: &[&[u8]]) -> Result<String, LineFault>
    ensures { Reads string_bytes (name_read (texts fields.now)) result }
{
    match fields {
        [name] => {
            judge(&[name_fault(*name)])?;
            Ok(name_string(alloc, *name)?)
        }
        _ => Err(LineFault::Kind(EditKind::BadLine)),
    }
}

/// An old and a new name.
pub(crate) fn names(alloc: Global, fields: &[&[u8]]) -> Result<(String, String), LineFault>
    ensures { Reads (λ read. (string_bytes read.0, string_bytes read.1))
        (names_read (texts fields.now)) result }
{
    match fields {
        [old, new] => {
            judge(&[name_fault(*old), name_fault(*new)])?;
            Ok((name_string(alloc, *old)?, name_string(alloc, *new)?))
        }
        _ => Err(LineFault::Kind(EditKind::BadLine)),
    }
}

/// A name and an amount of either sign.
pub fn amount<'a>(fields: &[&'a [u8]]) -> Result<(&'a str, i64), LineFault>
    ensures ok { IfOk result (λ read. amount_read (texts fields.now) ≡ Ok (read.0.now, read.1)) }
    ensures fault { IfErr result (TellsLine (amount_read (texts fields.now))) }
{
    match fields {
        [name, value] => {
            judge(&[name_fault(*name), amount_fault(*value)])?;
            Ok((name_text(*name)?, millionths(*value)))
        }
        _ => Err(LineFault::Kind(EditKind::BadLine)),
    }
}

/// A name, a lower and an upper bound.
pub fn bounds<'a>(fields: &[&'a [u8]]) -> Result<(&'a str, i64, i64), LineFault>
    ensures ok { IfOk result
        (λ read. bounds_read (texts fields.now) ≡ Ok (read.0.now, (read.1, read.2))) }
    ensures fault { IfErr result (TellsLine (bounds_read (texts fields.now))) }
{
    match fields {
        [name, lower, upper] => {
            judge(&[name_fault(*name), bound_fault(*lower), bound_fault(*upper)])?;
            let name = name_text(*name)?;
            Ok((name, millionths(*lower), millionths(*upper)))
        }
        _ => Err(LineFault::Kind(EditKind::BadLine)),
    }
}
