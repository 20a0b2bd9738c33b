//! The units of an exclusion by name and by number.
ghost use Rattle.std.specs.Prelude.{◌≡◌, ◌≤◌, false, Some, None, OnOk, IfOk, IfErr};
ghost use Rattle.std.specs.Prelude.{length};
ghost use Rattle.std.specs.Prelude.{cond};
ghost use Rattle.std.specs.Prelude.{map, string_bytes};
ghost use Rattle.edit_laws.specs.number_sets.Sets.{has, listed};
ghost use Rattle.edit_laws.specs.edit_rules.Place.{unit_place, lacks_unit, members, member_names};
ghost use Rattle.edit_laws.specs.edit_rules.Fault.{unknown_name};
ghost use Rattle.pns_edits.specs.Answer.{Tells};
ghost use Rattle.pns_edits.specs.Terms.{AreNumbersBelow};

use crate::numbering::has_number;
use crate::place::unit_place;
use edit_scripts::{LineFault, Parts};
use std::alloc::{AllocError, Global};

fn unit_places(alloc: Global, parts: &Parts, names: &[String]) -> Result<Vec<u32>, LineFault>
    requires { length parts.now.units ≤ 128 }
    ensures ok { IfOk result
        (λ v. v.items ≡ map (unit_place parts.now) (map string_bytes names.now)) }
    ensures known { OnOk result
        (lacks_unit parts.now (map string_bytes names.now) ≡ false) }
    ensures unknown { IfErr result
        (Tells
        (cond (lacks_unit parts.now (map string_bytes names.now)) (Some unknown_name)
        None)) }
{
    let mut places = Vec::new(alloc);
    'placing: for name in names {
        let k = unit_place(parts, name)?;
        places.push(k as u32)?;
    }
    Ok(places)
}

/// The numbers below a limit that are in a list, rising.
#[tactic(auto, using(crate::proofs::MappedLemmas::listed_none, crate::proofs::MappedLemmas::listed_next))]
fn rising(alloc: Global, limit: u32, numbers: &[u32]) -> Result<Vec<u32>, AllocError>
    ensures { IfOk result (λ v. v.items ≡ listed limit (has numbers.now)) }
{
    let mut rising = Vec::new(alloc);
    'listing: for number in 0..limit {
        if !has_number(numbers, number) {
            continue;
        }
        rising.push(number)?;
    }
    Ok(rising)
}

/// The numbers of the units of these names, rising, if the parts have them all.
pub(crate) fn members(alloc: Global, parts: &Parts, names: &[String]) -> Result<Vec<u32>, LineFault>
    requires { length parts.now.units ≤ 128 }
    ensures ok { IfOk result
        (λ v. v.items ≡ members parts.now (map string_bytes names.now)) }
    ensures known { OnOk result
        (lacks_unit parts.now (map string_bytes names.now) ≡ false) }
    ensures unknown { IfErr result
        (Tells
        (cond (lacks_unit parts.now (map string_bytes names.now)) (Some unknown_name)
        None)) }
{
    let places = unit_places(alloc, parts, names)?;
    Ok(rising(alloc, parts.units.len() as u32, &places)?)
}

/// The names of the units.
pub(crate) fn member_names(
    alloc: Global,
    parts: &Parts,
    units: &[u32],
) -> Result<Vec<String>, AllocError>
    requires { AreNumbersBelow (length parts.now.units) units.now }
    ensures { IfOk result
        (λ v. map string_bytes v.items ≡ member_names parts.now units.now) }
{
    let mut names = Vec::new(alloc);
    'naming: for unit in units {
        let name = parts.units[*unit as usize].name.clone()?;
        names.push(name)?;
    }
    Ok(names)
}
