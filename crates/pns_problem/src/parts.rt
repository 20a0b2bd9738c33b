//! The parts from which a problem is built.
ghost use Rattle.std.specs.Prelude.{◌≡◌, ◌<◌, IfOk, length, slice_set};
ghost use Rattle.text_rules.specs.problem_rules.Problem.{material_at, unit_at};

use crate::exclusion::{Exclusion, copy_exclusions};
use crate::material::{Material, copy_materials};
use crate::unit::{OperatingUnit, copy_units};
use std::alloc::{AllocError, Global};
use std::marker::Model;

/// Materials, units and exclusions in file order, and the payout period in whole years.
#[derive(Drop)]
pub struct Parts {
    pub materials: Vec<Material>,
    pub units: Vec<OperatingUnit>,
    pub exclusions: Vec<Exclusion>,
    pub payout: i64,
}

impl Model for Parts {
    ghost use Rattle.text_rules.specs.problem_rules.Problem as rules;

    ghost Value = { rules.Problem };

    ghost view = { λ p. record {
      materials = p.materials.items;
      units = p.units.items;
      exclusions =
          p.exclusions.items;
      payout = p.payout;
    } };
}

impl Parts {
    pub(crate) fn copy(&self, alloc: Global) -> Result<Parts, AllocError>
        ensures { IfOk result (λ p. p ≡ self.now) }
    {
        let materials = copy_materials(alloc, &self.materials)?;
        let units = copy_units(alloc, &self.units)?;
        let exclusions = copy_exclusions(alloc, &self.exclusions)?;
        Ok(Parts {
            materials,
            units,
            exclusions,
            payout: self.payout,
        })
    }

    /// Writes the price of a material.
    pub(crate) fn set_price(&mut self, x: u32, price: i64)
        requires { x < length self.old.materials }
        ensures { self.new ≡ record self.old {
          materials =
              slice_set self.old.materials x (record (material_at self.old x) { price = price });
        } }
    {
        let material = &mut self.materials[x as usize];
        material.price = price;
    }

    /// Writes the yearly fixed cost of a unit.
    pub(crate) fn set_fix(&mut self, u: u32, fix: i64)
        requires { u < length self.old.units }
        ensures { self.new ≡ record self.old
            { units = slice_set self.old.units u (record (unit_at self.old u) { fix = fix }) } }
    {
        let unit = &mut self.units[u as usize];
        unit.fix = fix;
    }

    /// Writes the yearly cost of a unit for each unit of size.
    pub(crate) fn set_proportional(&mut self, u: u32, proportional: i64)
        requires { u < length self.old.units }
        ensures { self.new ≡ record self.old {
          units =
              slice_set self.old.units u
              (record (unit_at self.old u) { proportional = proportional });
        } }
    {
        let unit = &mut self.units[u as usize];
        unit.proportional = proportional;
    }
}
