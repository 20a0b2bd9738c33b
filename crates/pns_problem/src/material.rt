//! Materials, and the tests by which they are judged.
ghost use Rattle.std.specs.Prelude.{◌≡◌, IfOk, int_lt};
ghost use Rattle.text_rules.specs.problem_rules.Validity.{material_out_of_range, material_negative};
ghost use Rattle.text_rules.specs.problem_rules.Validity.{has_product};
ghost use Rattle.text_rules.specs.problem_rules.Problem.{is_product};

use crate::amount::is_out_of_range;
use std::alloc::{AllocError, Global};
use std::marker::Model;

/// What a network does with a material: it buys a raw material, makes what it uses of an
/// intermediate, and has to make each product.
#[derive(Clone, Copy, Debug, PartialEq, Eq)]
pub enum Kind {
    RawMaterial,
    Intermediate,
    Product,
}

/// A material. Price and bounds are in millionths. The bounds limit how much of it a network makes
/// or, of a raw material, how much it uses.
#[derive(Drop)]
pub struct Material {
    pub name: String,
    pub kind: Kind,
    pub price: i64,
    pub lower: i64,
    pub upper: i64,
}

impl Model for Material {
    ghost use Rattle.std.specs.Prelude.{string_bytes};
    ghost use Rattle.text_rules.specs.problem_rules.Problem as rules;
    ghost use Rattle.pns_problem.specs.Kind.{kind_of};

    ghost Value = { rules.Material };

    ghost view = { λ m. record {
      name = string_bytes m.name;
      kind = kind_of m.kind;
      price =
          m.price;
      lower = m.lower;
      upper = m.upper;
    } };
}

impl Material {
    pub(crate) fn is_out_of_range(&self) -> bool
        ensures { result ≡ material_out_of_range self.now }
    {
        is_out_of_range(self.price) || is_out_of_range(self.lower) || is_out_of_range(self.upper)
    }

    pub(crate) fn is_low_above_high(&self) -> bool
        ensures { result ≡ int_lt self.now.upper self.now.lower }
    {
        self.upper < self.lower
    }

    pub(crate) fn is_negative(&self) -> bool
        ensures { result ≡ material_negative self.now }
    {
        self.lower < 0 || self.upper < 0
    }

    fn is_product(&self) -> bool
        ensures { result ≡ is_product self.now.kind }
    {
        match self.kind {
            Kind::Product => true,
            Kind::RawMaterial => false,
            Kind::Intermediate => false,
        }
    }

    pub(crate) fn copy(&self) -> Result<Material, AllocError>
        ensures { IfOk result (λ m. m ≡ self.now) }
    {
        let name = self.name.clone()?;
        Ok(Material {
            name,
            kind: self.kind,
            price: self.price,
            lower: self.lower,
            upper: self.upper,
        })
    }
}

pub(crate) fn has_product(materials: &[Material]) -> bool
    ensures { result ≡ has_product materials.now }
{
    'looking: for material in materials {
        if material.is_product() {
            return true;
        }
    }
    false
}

pub(crate) fn copy_materials(
    alloc: Global,
    materials: &[Material],
) -> Result<Vec<Material>, AllocError>
    ensures { IfOk result (λ v. v.items ≡ materials.now) }
{
    let mut copies = Vec::new(alloc);
    'copying: for material in materials {
        let copy = material.copy()?;
        copies.push(copy)?;
    }
    Ok(copies)
}
