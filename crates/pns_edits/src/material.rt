//! Edits of materials.
ghost use Rattle.std.specs.Prelude.{◌≡◌, ◌<◌, ◌≤◌, OnOk, IfOk, length, string_bytes};
ghost use Rattle.edit_laws.specs.problem_rules.Each.{Each};
ghost use Rattle.edit_laws.specs.problem_rules.Problem.{material_at};
ghost use Rattle.edit_laws.specs.problem_rules.Validity.{has_product};
ghost use Rattle.edit_laws.specs.edit_rules.Edit.{price, bounds, kind, rename_material};
ghost use Rattle.edit_laws.specs.edit_rules.Edit.{add_material};
ghost use Rattle.edit_laws.specs.edit_rules.Edit.{remove_material};
ghost use Rattle.edit_scripts.specs.pns_problem.Kind.{kind_of};
ghost use Rattle.edit_laws.specs.edit_rules.Effect.{material_put_in, material_taken_out};
ghost use Rattle.edit_scripts.specs.View.{edit_of};
ghost use Rattle.pns_edits.specs.Answer.{Answers};
ghost use Rattle.pns_edits.specs.Terms.{IsNumbered, IsUnitBelow};

use crate::fault::refuse_if;
use crate::inverse::Inverse;
use crate::numbering::{Renumbering, any_unit_has, renumber_units};
use crate::place::material_place;
use edit_scripts::{Edit, EditKind, Kind, LineFault, Material, Parts};
use std::alloc::AllocError;
use std::mem;

fn has_product(materials: &[Material]) -> bool
    ensures { result ≡ has_product materials.now }
{
    materials
        .iter()
        .any(|material| matches!(material.kind, Kind::Product))
}

fn put_in(parts: &mut Parts, at: u32, material: Material) -> Result<(), AllocError>
    requires within { at ≤ length parts.old.materials }
    requires small { Each (IsUnitBelow 256) parts.old.units }
    ensures { OnOk result (parts.new ≡ material_put_in parts.old at material) }
{
    parts.materials.insert(at as usize, material)?;
    renumber_units(&mut parts.units, Renumbering::PutIn(at));
    Ok(())
}

fn take_out(parts: &mut Parts, k: u32)
    requires within { k < length parts.old.materials }
    requires small { Each (IsUnitBelow 256) parts.old.units }
    ensures { parts.new ≡ material_taken_out parts.old k }
{
    parts.materials.remove(k as usize);
    renumber_units(&mut parts.units, Renumbering::TakenOut(k));
}

/// The edit that adds the material at place k again under its name.
fn added_back(parts: &Parts, k: u32, name: &String) -> Result<Edit, AllocError>
    requires { k < length parts.now.materials }
    ensures { let m = material_at parts.now k in
        IfOk result
        (λ e. edit_of e ≡ add_material k (string_bytes name.now) m.kind m.price m.lower m.upper) }
{
    let material = &parts.materials[k as usize];
    Ok(Edit::AddMaterial {
        at: k,
        name: name.clone()?,
        kind: material.kind,
        price: material.price,
        lower: material.lower,
        upper: material.upper,
    })
}

/// Sets the price of a material.
pub(crate) fn set_price(parts: &mut Parts, name: &String, value: i64) -> Result<Inverse, LineFault>
    ensures { Answers parts.old (price (string_bytes name.now) value) parts.new result }
{
    let k = material_place(parts, name)?;
    let name = name.clone()?;
    let material = &mut parts.materials[k];
    let old = mem::replace(&mut material.price, value);
    Ok(Inverse::of(Edit::Price {
        material: name,
        value: old,
    }))
}

/// Sets both bounds of a material.
pub(crate) fn set_bounds(
    parts: &mut Parts,
    name: &String,
    lower: i64,
    upper: i64,
) -> Result<Inverse, LineFault>
    ensures { Answers parts.old (bounds (string_bytes name.now) lower upper) parts.new result }
{
    let k = material_place(parts, name)?;
    refuse_if(upper < lower, EditKind::LowAboveHigh)?;
    let name = name.clone()?;
    let material = &mut parts.materials[k];
    let old_lower = mem::replace(&mut material.lower, lower);
    let old_upper = mem::replace(&mut material.upper, upper);
    Ok(Inverse::of(Edit::Bounds {
        material: name,
        lower: old_lower,
        upper: old_upper,
    }))
}

/// Sets the kind of a material, if a product is left.
pub(crate) fn set_kind(parts: &mut Parts, name: &String, new: Kind) -> Result<Inverse, LineFault>
    ensures { Answers parts.old (kind (string_bytes name.now) (kind_of new)) parts.new result }
{
    let k = material_place(parts, name)?;
    let name = name.clone()?;
    let material = &mut parts.materials[k];
    let old = mem::replace(&mut material.kind, new);
    refuse_if(!has_product(&parts.materials), EditKind::NoProduct)?;
    Ok(Inverse::of(Edit::Kind {
        material: name,
        kind: old,
    }))
}

/// Gives a material another name.
pub(crate) fn rename(parts: &mut Parts, old: &String, new: &String) -> Result<Inverse, LineFault>
    ensures { Answers parts.old (rename_material (string_bytes old.now) (string_bytes new.now))
        parts.new result }
{
    let k = material_place(parts, old)?;
    refuse_if(material_place(parts, new).is_ok(), EditKind::DoubleName)?;
    let inverse = Inverse::of(Edit::RenameMaterial {
        old: new.clone()?,
        new: old.clone()?,
    });
    let name = new.clone()?;
    let material = &mut parts.materials[k];
    material.name = name;
    Ok(inverse)
}

/// Inserts a material at a place.
pub(crate) fn add(
    parts: &mut Parts,
    at: u32,
    name: &String,
    kind: Kind,
    price: i64,
    lower: i64,
    upper: i64,
) -> Result<Inverse, LineFault>
    requires { IsNumbered parts.old }
    ensures { Answers parts.old
        (add_material at (string_bytes name.now) (kind_of kind) price lower upper) parts.new
        result }
{
    refuse_if(material_place(parts, name).is_ok(), EditKind::DoubleName)?;
    refuse_if(parts.materials.len() < at as usize, EditKind::BadPlace)?;
    refuse_if(upper < lower, EditKind::LowAboveHigh)?;
    refuse_if(parts.materials.len() >= 256, EditKind::TooMany)?;
    let material = Material {
        name: name.clone()?,
        kind,
        price,
        lower,
        upper,
    };
    let inverse = Inverse::of(Edit::RemoveMaterial {
        material: name.clone()?,
    });
    put_in(parts, at, material)?;
    Ok(inverse)
}

/// Removes a material that no unit has, if a product is left.
pub(crate) fn remove(parts: &mut Parts, name: &String) -> Result<Inverse, LineFault>
    requires { IsNumbered parts.old }
    ensures { Answers parts.old (remove_material (string_bytes name.now)) parts.new result }
{
    let k = material_place(parts, name)? as u32;
    refuse_if(any_unit_has(&parts.units, k), EditKind::InUse)?;
    let back = added_back(parts, k, name)?;
    take_out(parts, k);
    refuse_if(!has_product(&parts.materials), EditKind::NoProduct)?;
    Ok(Inverse::of(back))
}
