//! Lines that insert a material, a unit or an exclusion.
ghost use Rattle.std.specs.Prelude.{◌≡◌, IfOk, map, string_bytes};
ghost use Rattle.text_lines.specs.View.{texts};
ghost use Rattle.text_lines.specs.edit_rules.ScriptFault.{members_fault};
ghost use Rattle.text_lines.specs.edit_rules.Read.{material_read, unit_read, exclusion_read};
ghost use Rattle.edit_scripts.specs.Reads.{Reads};
ghost use Rattle.edit_scripts.specs.View.{edit_of};

use crate::edit::Edit;
use crate::fault::LineFault;
use crate::sides::{named_terms, sides_fault, terms_fault};
use crate::token::{
    amount_fault, bound_fault, judge, kind_fault, kind_of, name_fault, name_string, names_fault,
    place_fault, place_of,
};
use std::alloc::{AllocError, Global};
use text_lines::EditKind;
use text_lines::amount::millionths;
use text_lines::name_set::once;
use text_lines::term::sides_in;

/// `AT NAME KIND PRICE LOWER UPPER`
pub(crate) fn insert_material(alloc: Global, fields: &[&[u8]]) -> Result<Edit, LineFault>
    ensures { Reads edit_of (material_read (texts fields.now)) result }
{
    match fields {
        [at, name, kind, price, lower, upper] => {
            judge(&[
                place_fault(*at),
                name_fault(*name),
                kind_fault(*kind),
                amount_fault(*price),
                bound_fault(*lower),
                bound_fault(*upper),
            ])?;
            Ok(Edit::AddMaterial {
                at: place_of(*at),
                name: name_string(alloc, *name)?,
                kind: kind_of(*kind),
                price: millionths(*price),
                lower: millionths(*lower),
                upper: millionths(*upper),
            })
        }
        _ => Err(LineFault::Kind(EditKind::BadLine)),
    }
}

/// `AT NAME LOWER UPPER FIXED PROPORTIONAL : SIDE => SIDE`
#[tactic(auto, using(crate::proofs::TokenCounts::seven_up, crate::proofs::TermsRead::sides_same))]
pub(crate) fn insert_unit(alloc: Global, fields: &[&[u8]]) -> Result<Edit, LineFault>
    ensures { Reads edit_of (unit_read (texts fields.now)) result }
{
    match fields {
        [at, name, lower, upper, fix, per_size, colon, tokens @ ..] => {
            if *colon != b":".as_slice() {
                return Err(LineFault::Kind(EditKind::BadLine));
            }
            let Some(sides) = sides_in(alloc, tokens)? else {
                return Err(LineFault::Kind(EditKind::BadLine));
            };
            let whole = sides_fault(alloc, &sides)?;
            judge(&[
                place_fault(*at),
                name_fault(*name),
                bound_fault(*lower),
                bound_fault(*upper),
                bound_fault(*fix),
                amount_fault(*per_size),
                terms_fault(&sides.inputs),
                terms_fault(&sides.outputs),
                whole,
            ])?;
            Ok(Edit::AddUnit {
                at: place_of(*at),
                name: name_string(alloc, *name)?,
                lower: millionths(*lower),
                upper: millionths(*upper),
                fix: millionths(*fix),
                proportional: millionths(*per_size),
                inputs: named_terms(alloc, &sides.inputs)?,
                outputs: named_terms(alloc, &sides.outputs)?,
            })
        }
        _ => Err(LineFault::Kind(EditKind::BadLine)),
    }
}

#[tactic(auto, using(crate::proofs::Doubles::members_told))]
fn members_fault(alloc: Global, units: &[&[u8]]) -> Result<Option<EditKind>, AllocError>
    ensures { IfOk result (λ kind. kind ≡ members_fault (texts units.now)) }
{
    let members = once(alloc, units)?;
    Ok(members.is_none().then_some(EditKind::BadMembers))
}

fn name_strings(alloc: Global, names: &[&[u8]]) -> Result<Vec<String>, AllocError>
    ensures { IfOk result (λ strings. map string_bytes strings.items ≡ texts names.now) }
{
    let mut strings = Vec::new(alloc);
    'naming: for name in names {
        strings.push(name_string(alloc, *name)?)?;
    }
    Ok(strings)
}

/// `AT NAME UNIT UNIT`, with two units or more.
pub(crate) fn insert_exclusion(alloc: Global, fields: &[&[u8]]) -> Result<Edit, LineFault>
    ensures { Reads edit_of (exclusion_read (texts fields.now)) result }
{
    match fields {
        [at, name, _, _, ..] => {
            let units = &fields[2..];
            let members = members_fault(alloc, units)?;
            judge(&[
                place_fault(*at),
                name_fault(*name),
                names_fault(units),
                members,
            ])?;
            Ok(Edit::Exclude {
                at: place_of(*at),
                name: name_string(alloc, *name)?,
                units: name_strings(alloc, units)?,
            })
        }
        _ => Err(LineFault::Kind(EditKind::BadLine)),
    }
}
