//! Lines of what is written, in bytes.
ghost use Rattle.std.specs.Prelude.{◌≡◌, ◌≤◌, ◌++◌, ◌∷◌, ℕ, length, IfOk, OnOk};
ghost use Rattle.pns_text.specs.number_sets.Sets.{has};
ghost use Rattle.pns_text.specs.problem_rules.Problem.{material_names, unit_names};
ghost use Rattle.studio_words.specs.studio_rules.Lines.{line, spaced_names, names_in};

use pns_text::{Material, OperatingUnit};
use std::alloc::{AllocError, Global};
use tree_reading::{MatSet, UnitSet};

fn push_name(bytes: &mut Vec<u8>, name: &str) -> Result<(), AllocError>
    ensures { OnOk result (bytes.new.items ≡ bytes.old.items ++ 32 ∷ name.now) }
{
    bytes.push(b' ')?;
    bytes.extend_from_slice(name.as_bytes())?;
    Ok(())
}

/// Appends the names of the units in the set, each after a space.
pub fn push_unit_names(
    bytes: &mut Vec<u8>,
    units: &[OperatingUnit],
    set: UnitSet,
) -> Result<(), AllocError>
    requires { length units.now ≤ 128 }
    ensures { OnOk result
        (bytes.new.items ≡ bytes.old.items
        ++ spaced_names (names_in (has set) 0 (unit_names units.now))) }
{
    for u in set {
        if let Some(unit) = units.get(u as usize) {
            push_name(bytes, &unit.name)?;
        }
    }
    Ok(())
}

/// Appends the names of the materials in the set, each after a space.
pub fn push_material_names(
    bytes: &mut Vec<u8>,
    materials: &[Material],
    set: MatSet,
) -> Result<(), AllocError>
    requires { length materials.now ≤ 256 }
    ensures { OnOk result
        (bytes.new.items ≡ bytes.old.items
        ++ spaced_names (names_in (has set) 0 (material_names materials.now))) }
{
    for x in set {
        if let Some(material) = materials.get(x as usize) {
            push_name(bytes, &material.name)?;
        }
    }
    Ok(())
}

/// A line of two texts, one after the other, with its line feed.
pub fn line_of(alloc: Global, head: &str, tail: &str) -> Result<Vec<u8>, AllocError>
    ensures { IfOk result (λ bytes. bytes.items ≡ line (head.now ++ tail.now)) }
{
    let mut bytes = head.as_bytes().to_vec(alloc)?;
    bytes.extend_from_slice(tail.as_bytes())?;
    bytes.push(b'\n')?;
    Ok(bytes)
}
