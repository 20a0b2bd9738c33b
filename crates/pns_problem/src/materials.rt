//! The materials of a generated problem.
ghost use Rattle.std.specs.Prelude.{◌≡◌, ◌++◌, IfOk, OnOk, string_bytes};
ghost use Rattle.text_rules.specs.problem_rules.Draws.{state_after};
ghost use Rattle.text_rules.specs.problem_rules.Generated.{numbered, whole, raw_priced};
ghost use Rattle.text_rules.specs.problem_rules.Generated.{raw_materials};
ghost use Rattle.text_rules.specs.problem_rules.Generated.{intermediate_of, intermediates};
ghost use Rattle.text_rules.specs.problem_rules.Generated.{end_product};
ghost use Rattle.text_rules.specs.problem_rules.Generated.{materials_of};

use crate::draws::Draws;
use crate::{Kind, Material};
use std::alloc::{AllocError, Global};

/// 10^9 in millionths, the upper bound of a material that is not limited.
const UNLIMITED: i64 = 1_000_000_000_000_000;

/// A letter and a number.
pub(crate) fn numbered(alloc: Global, letter: &str, number: u32) -> Result<String, AllocError>
    ensures { IfOk result (λ name. string_bytes name ≡ numbered letter.now number) }
{
    format!(in alloc; "{letter}{number}")
}

/// An amount in millionths.
pub(crate) fn whole(amount: u32) -> i64
    ensures { result ≡ whole amount }
{
    amount as i64 * 1_000_000
}

fn raw_material(alloc: Global, number: u32, price: u32) -> Result<Material, AllocError>
    ensures { IfOk result (λ m. m ≡ raw_priced number price) }
{
    let name = numbered(alloc, "R", number)?;
    Ok(Material {
        name,
        kind: Kind::RawMaterial,
        price: whole(price),
        lower: 0,
        upper: UNLIMITED,
    })
}

fn intermediate(alloc: Global, number: u32) -> Result<Material, AllocError>
    ensures { IfOk result (λ m. m ≡ intermediate_of number) }
{
    let name = numbered(alloc, "M", number)?;
    Ok(Material {
        name,
        kind: Kind::Intermediate,
        price: 0,
        lower: 0,
        upper: UNLIMITED,
    })
}

fn end_product(alloc: Global) -> Result<Material, AllocError>
    ensures { IfOk result (λ m. m ≡ end_product) }
{
    let name = String::from_str(alloc, "P")?;
    Ok(Material {
        name,
        kind: Kind::Product,
        price: 0,
        lower: whole(10),
        upper: whole(10),
    })
}

fn raw_materials(alloc: Global, draws: &mut Draws) -> Result<Vec<Material>, AllocError>
    ensures materials { IfOk result (λ v. v.items ≡ raw_materials draws.old.state) }
    ensures advanced { OnOk result (draws.new.state ≡ state_after 3 draws.old.state) }
{
    let mut materials = Vec::new(alloc);
    'pricing: for number in 0..3 {
        let price = 1 + draws.draw(9);
        materials.push(raw_material(alloc, number, price)?)?;
    }
    Ok(materials)
}

fn push_intermediates(
    alloc: Global,
    materials: &mut Vec<Material>,
    count: u32,
) -> Result<(), AllocError>
    ensures { OnOk result (materials.new.items ≡ materials.old.items ++ intermediates count) }
{
    'chaining: for number in 0..count {
        materials.push(intermediate(alloc, number)?)?;
    }
    Ok(())
}

/// The raw materials with their prices drawn, so many intermediates, and the product.
pub(crate) fn materials_of(
    alloc: Global,
    count: u32,
    draws: &mut Draws,
) -> Result<Vec<Material>, AllocError>
    ensures materials { IfOk result (λ v. v.items ≡ materials_of count draws.old.state) }
    ensures advanced { OnOk result (draws.new.state ≡ state_after 3 draws.old.state) }
{
    let mut materials = raw_materials(alloc, draws)?;
    push_intermediates(alloc, &mut materials, count)?;
    materials.push(end_product(alloc)?)?;
    Ok(materials)
}
