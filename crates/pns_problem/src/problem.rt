//! A valid problem, with its names by number.
ghost use Rattle.std.specs.Prelude.{◌≡◌, ◌<◌, true, IfOk, IfErr, OnOk, length, slice_set};
ghost use Rattle.std.specs.List.{position};
ghost use Rattle.std.specs.Str.{bytes_eq};
ghost use Rattle.text_rules.specs.problem_rules.Problem.{material_at, unit_at, material_names};
ghost use Rattle.text_rules.specs.problem_rules.Problem.{unit_names};
ghost use Rattle.text_rules.specs.problem_rules.Validity.{fault_of, IsValid};
ghost use Rattle.pns_problem.specs.Fault.{Tells, is_memory};
ghost use Rattle.text_rules.specs.problem_rules.WellFormed.{IsWellFormed};
ghost use Rattle.text_rules.specs.Canonical.{canonical};

use crate::canonical::push_problem;
use crate::exclusion::Exclusion;
use crate::fault::BuildFault;
use crate::judge::judge;
use crate::material::Material;
use crate::name_table::NameTable;
use crate::parts::Parts;
use crate::unit::OperatingUnit;
use std::alloc::{AllocError, Global};
use std::marker::Model;

/// A valid problem. Contracts see its materials, units, exclusions and payout period, in file
/// order.
#[derive(Drop)]
pub struct Problem {
    parts: Parts,
    materials: NameTable,
    units: NameTable,
}

impl Model for Problem {
    ghost use Rattle.text_rules.specs.problem_rules.Problem as rules;
    ghost use Rattle.pns_problem.specs.Built.{IsBuilt};

    ghost Value = { rules.Problem };

    ghost view = { λ p. p.parts };

    ghost invariant = { λ p. IsBuilt p.parts p.materials p.units };
}

impl Problem {
    /// The problem of these parts, or their first fault. The counts are judged first, then each
    /// material, each unit and each exclusion in order, then whether there is a product, and last
    /// the payout period. Within one item the order is that of the variants of `BuildFault`. The
    /// time is linear in the size of the parts. With a refusal they are dropped.
    pub fn build(alloc: Global, parts: Parts) -> Result<Problem, BuildFault>
        ensures built { IfOk result (λ p. p ≡ parts) }
        ensures valid { OnOk result (IsValid parts) }
        ensures fault { IfErr result (Tells (fault_of parts)) }
        ensures valid_parts { IfErr result
            (λ fault. IsValid parts → is_memory fault ≡ true) }
    {
        match judge(alloc, &parts) {
            Err(fault) => Err(fault),
            Ok((materials, units)) => Ok(Problem {
                parts,
                materials,
                units,
            }),
        }
    }

    /// The materials in file order.
    pub fn materials(&self) -> &[Material]
        ensures { result.now ≡ self.now.materials }
    {
        &self.parts.materials
    }

    /// The operating units in file order.
    pub fn units(&self) -> &[OperatingUnit]
        ensures { result.now ≡ self.now.units }
    {
        &self.parts.units
    }

    /// The exclusions in file order.
    pub fn exclusions(&self) -> &[Exclusion]
        ensures { result.now ≡ self.now.exclusions }
    {
        &self.parts.exclusions
    }

    /// The payout period in years, 1 to 100.
    pub fn payout(&self) -> i64
        ensures { result ≡ self.now.payout }
    {
        self.parts.payout
    }

    /// A problem has none of the faults, so each of its items is well formed. A call gives this to
    /// a proof, and does nothing.
    pub fn is_valid(&self)
        ensures valid { IsValid self.now }
        ensures well_formed { IsWellFormed self.now }
    {
        let _payout = self.parts.payout;
    }

    /// The name of a material by its number. It is empty if no material has the number.
    pub fn material_name(&self, x: u32) -> &str
        ensures { result.now ≡ (material_at self.now x).name }
    {
        match self.parts.materials.get(x as usize) {
            Some(material) => material.name.as_str(),
            None => "",
        }
    }

    /// The name of a unit by its number. It is empty if no unit has the number.
    pub fn unit_name(&self, u: u32) -> &str
        ensures { result.now ≡ (unit_at self.now u).name }
    {
        match self.parts.units.get(u as usize) {
            Some(unit) => unit.name.as_str(),
            None => "",
        }
    }

    /// The number of the material of this name; `None` exactly if no material has it.
    pub fn material_named(&self, name: &str) -> Option<u32>
        ensures { result ≡ position (λ word. bytes_eq word name.now)
            (material_names self.now.materials) }
    {
        self.materials.number_of(name)
    }

    /// The number of the unit of this name; `None` exactly if no unit has it.
    pub fn unit_named(&self, name: &str) -> Option<u32>
        ensures { result ≡ position (λ word. bytes_eq word name.now)
            (unit_names self.now.units) }
    {
        self.units.number_of(name)
    }

    /// Sets the price of a material, in millionths of money a unit. The problem has to be valid
    /// with it. Nothing else changes, and no memory is taken.
    pub fn set_price(&mut self, x: u32, price: i64)
        requires known { x < length self.old.materials }
        requires valid { IsValid
            (record self.old {
              materials =
                  slice_set self.old.materials x
                  (record (material_at self.old x) { price = price });
            }) }
        ensures { self.new ≡ record self.old {
          materials =
              slice_set self.old.materials x (record (material_at self.old x) { price = price });
        } }
    {
        self.parts.set_price(x, price);
    }

    /// Sets the fixed cost of a unit, in millionths of money a year. The problem has to be valid
    /// with it. Nothing else changes, and no memory is taken.
    pub fn set_fix(&mut self, u: u32, fix: i64)
        requires known { u < length self.old.units }
        requires valid { IsValid
            (record self.old {
              units =
                  slice_set self.old.units u (record (unit_at self.old u) { fix = fix });
            }) }
        ensures { self.new ≡ record self.old
            { units = slice_set self.old.units u (record (unit_at self.old u) { fix = fix }) } }
    {
        self.parts.set_fix(u, fix);
    }

    /// Sets the cost of a unit for each unit of size, in millionths of money a year. The problem
    /// has to be valid with it. Nothing else changes, and no memory is taken.
    pub fn set_proportional(&mut self, u: u32, proportional: i64)
        requires known { u < length self.old.units }
        requires valid { IsValid
            (record self.old {
              units =
                  slice_set self.old.units u
                  (record (unit_at self.old u) { proportional = proportional });
            }) }
        ensures { self.new ≡ record self.old {
          units =
              slice_set self.old.units u
              (record (unit_at self.old u) { proportional = proportional });
        } }
    {
        self.parts.set_proportional(u, proportional);
    }

    /// A copy of the parts, from which `build` makes an equal problem unless it is out of memory.
    pub fn parts(&self, alloc: Global) -> Result<Parts, AllocError>
        ensures same { IfOk result (λ parts. parts ≡ self.now) }
        ensures valid { OnOk result (IsValid self.now) }
    {
        self.parts.copy(alloc)
    }

    /// A copy.
    pub fn copy(&self, alloc: Global) -> Result<Problem, AllocError>
        ensures { IfOk result (λ problem. problem ≡ self.now) }
    {
        let parts = self.parts(alloc)?;
        match Problem::build(alloc, parts) {
            Ok(problem) => Ok(problem),
            Err(fault) => {
                let memory = fault.is_memory();
                prove!(memory);
                Err(AllocError)
            }
        }
    }

    /// The one canonical text of the problem, which reads back as the problem.
    pub fn canonical_text(&self, alloc: Global) -> Result<Vec<u8>, AllocError>
        ensures { IfOk result (λ text. text.items ≡ canonical self.now) }
    {
        let mut text = String::new(alloc);
        push_problem(&mut text, &self.parts)?;
        Ok(text.into_bytes())
    }
}
