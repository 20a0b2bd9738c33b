//! The places of names among materials, operating units and exclusions, counted from 0.
ghost use Rattle.std.specs.Prelude.{length, string_bytes};
ghost use Rattle.edit_laws.specs.edit_rules.Place.{material_place, unit_place, exclusion_place};
ghost use Rattle.edit_laws.specs.edit_rules.Place.{has_material};
ghost use Rattle.edit_laws.specs.edit_rules.Place.{has_unit, has_exclusion};
ghost use Rattle.pns_edits.specs.Answer.{Finds};

use edit_scripts::{EditKind, LineFault, Parts};

pub(crate) fn material_place(parts: &Parts, name: &String) -> Result<usize, LineFault>
    ensures { Finds (has_material parts.now (string_bytes name.now))
        (material_place parts.now (string_bytes name.now)) (length parts.now.materials) result }
{
    'looking: for (k, material) in parts.materials.iter().enumerate() {
        if material.name.as_str() == name.as_str() {
            return Ok(k);
        }
    }
    Err(LineFault::Kind(EditKind::UnknownName))
}

pub(crate) fn unit_place(parts: &Parts, name: &String) -> Result<usize, LineFault>
    ensures { Finds (has_unit parts.now (string_bytes name.now))
        (unit_place parts.now (string_bytes name.now)) (length parts.now.units) result }
{
    'looking: for (k, unit) in parts.units.iter().enumerate() {
        if unit.name.as_str() == name.as_str() {
            return Ok(k);
        }
    }
    Err(LineFault::Kind(EditKind::UnknownName))
}

pub(crate) fn exclusion_place(parts: &Parts, name: &String) -> Result<usize, LineFault>
    ensures { Finds (has_exclusion parts.now (string_bytes name.now))
        (exclusion_place parts.now (string_bytes name.now)) (length parts.now.exclusions) result }
{
    'looking: for (k, exclusion) in parts.exclusions.iter().enumerate() {
        if exclusion.name.as_str() == name.as_str() {
            return Ok(k);
        }
    }
    Err(LineFault::Kind(EditKind::UnknownName))
}
