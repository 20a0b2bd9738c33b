//! Edits of exclusions and of the payout period.
ghost use Rattle.std.specs.Prelude.{◌≡◌, ◌<◌, IfOk, length, map, string_bytes};
ghost use Rattle.edit_laws.specs.problem_rules.Problem.{exclusion_at};
ghost use Rattle.edit_laws.specs.edit_rules.Edit.{exclude, unexclude, payout};
ghost use Rattle.edit_laws.specs.edit_rules.Place.{member_names};
ghost use Rattle.edit_scripts.specs.View.{edit_of};
ghost use Rattle.pns_edits.specs.Answer.{Answers, IsEdited};
ghost use Rattle.pns_edits.specs.Inverse.{edits_of};
ghost use Rattle.pns_edits.specs.Terms.{IsNumbered, AreNumbersBelow};

use crate::fault::refuse_if;
use crate::inverse::Inverse;
use crate::members::{member_names, members};
use crate::place::exclusion_place;
use edit_scripts::{Edit, EditKind, Exclusion, LineFault, Parts};
use std::alloc::{AllocError, Global};
use std::mem;

/// The edit that adds the exclusion at place k again under its name.
fn excluded_back(alloc: Global, parts: &Parts, k: u32, name: &String) -> Result<Edit, AllocError>
    requires within { k < length parts.now.exclusions }
    requires known { AreNumbersBelow (length parts.now.units) (exclusion_at parts.now k).units }
    ensures { IfOk result
        (λ e. edit_of e ≡ exclude k (string_bytes name.now)
        (member_names parts.now (exclusion_at parts.now k).units)) }
{
    let exclusion = &parts.exclusions[k as usize];
    Ok(Edit::Exclude {
        at: k,
        name: name.clone()?,
        units: member_names(alloc, parts, &exclusion.units)?,
    })
}

/// Inserts an exclusion of these units at a place.
pub(crate) fn add(
    alloc: Global,
    parts: &mut Parts,
    at: u32,
    name: &String,
    units: &[String],
) -> Result<Inverse, LineFault>
    requires { IsNumbered parts.old }
    ensures { Answers parts.old (exclude at (string_bytes name.now) (map string_bytes units.now))
        parts.new result }
{
    let units = members(alloc, parts, units)?;
    refuse_if(exclusion_place(parts, name).is_ok(), EditKind::DoubleName)?;
    refuse_if(parts.exclusions.len() < at as usize, EditKind::BadPlace)?;
    refuse_if(parts.exclusions.len() >= 64, EditKind::TooMany)?;
    let exclusion = Exclusion {
        name: name.clone()?,
        units,
    };
    let inverse = Inverse::of(Edit::Unexclude {
        name: name.clone()?,
    });
    parts.exclusions.insert(at as usize, exclusion)?;
    Ok(inverse)
}

/// Removes an exclusion.
pub(crate) fn remove(alloc: Global, parts: &mut Parts, name: &String) -> Result<Inverse, LineFault>
    requires { IsNumbered parts.old }
    ensures { Answers parts.old (unexclude (string_bytes name.now)) parts.new result }
{
    let k = exclusion_place(parts, name)?;
    let back = excluded_back(alloc, parts, k as u32, name)?;
    parts.exclusions.remove(k);
    Ok(Inverse::of(back))
}

/// Sets the payout period in years.
pub(crate) fn set_payout(parts: &mut Parts, years: i64) -> Inverse
    ensures { IsEdited parts.old (payout years) parts.new (edits_of result) }
{
    let old = mem::replace(&mut parts.payout, years);
    Inverse::of(Edit::Payout { years: old })
}
