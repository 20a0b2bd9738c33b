//! The arcs of one direction between materials and units.
ghost use Rattle.std.specs.Prelude.{◌≡◌, ◌<◌, ◌≤◌, ◌==◌, ◌&&◌, ◌||◌, ℕ, true, false, length, IfOk};
ghost use Rattle.flow_rules.specs.number_sets.Sets.{has};
ghost use Rattle.flow_rules.specs.problem_rules.Problem.{terms_have};
ghost use Rattle.pgraph.specs.Arcs.{joins, joins_some, IsArcs};
ghost use Rattle.pgraph.specs.Building.{terms_on, has_term};

use pns_problem::{OperatingUnit, Term};
use std::alloc::{AllocError, Global};
use std::marker::Model;
use unit_sets::{MatSet, UnitSet};

/// A side of an operating unit.
#[derive(Clone, Copy)]
pub enum Side {
    Inputs,
    Outputs,
}

/// The terms of the unit on that side.
fn terms_of(unit: &OperatingUnit, side: Side) -> &[Term]
    ensures { result.now ≡ terms_on side unit.now }
{
    match side {
        Side::Inputs => &unit.inputs,
        Side::Outputs => &unit.outputs,
    }
}

/// Which units and materials are joined: on the side of the inputs if the unit uses the material,
/// on that of the outputs if it makes it. Both ends are kept, so either is found in one look.
#[derive(Drop)]
pub struct Arcs {
    materials: Vec<MatSet>,
    units: Vec<UnitSet>,
}

impl Model for Arcs {
    ghost use Rattle.pgraph.specs.Arcs.{Arcs, IsArcs};

    ghost Value = { Arcs };

    ghost view = { λ a. record { materials = a.materials.items; units = a.units.items } };

    ghost invariant = { λ a. IsArcs
        (record { materials = a.materials.items; units = a.units.items }) };
}

impl Arcs {
    /// The arcs of the units on one side, to so many materials.
    pub fn of(
        alloc: Global,
        materials: usize,
        units: &[OperatingUnit],
        side: Side,
    ) -> Result<Arcs, AllocError>
        requires few_units { length units.now ≤ 128 }
        requires few_materials { materials ≤ 256 }
        requires known { (u x : ℕ) → has_term side units.now u x ≡ true → x < materials }
        ensures joined { IfOk result (λ a. (u x : ℕ) → joins a u x ≡ has_term side units.now u x) }
        ensures units { IfOk result (λ a. length a.materials ≡ length units.now) }
        ensures materials { IfOk result (λ a. length a.units ≡ materials) }
    {
        let mut arcs = Arcs::none(alloc, materials, units.len())?;
        for u in 0..units.len() {
            arcs.join_all(u as u32, terms_of(&units[u], side));
        }
        Ok(arcs)
    }

    /// No arcs yet, between so many materials and units.
    fn none(alloc: Global, materials: usize, units: usize) -> Result<Arcs, AllocError>
        requires few_units { units ≤ 128 }
        requires few_materials { materials ≤ 256 }
        ensures none { IfOk result (λ a. (u x : ℕ) → joins a u x ≡ false) }
        ensures units { IfOk result (λ a. length a.materials ≡ units) }
        ensures materials { IfOk result (λ a. length a.units ≡ materials) }
    {
        let units_at = vec![in alloc; UnitSet::empty(); materials]?;
        let materials_at = vec![in alloc; MatSet::empty(); units]?;
        Ok(Arcs {
            materials: materials_at,
            units: units_at,
        })
    }

    /// Joins the unit and the material.
    fn join(&mut self, u: u32, x: u32)
        requires unit { u < length self.old.materials }
        requires material { x < length self.old.units }
        ensures joined { (v y : ℕ)
            → joins self.new v y ≡ (((u == v) && (x == y)) || joins self.old v y) }
        ensures units { length self.new.materials ≡ length self.old.materials }
        ensures materials { length self.new.units ≡ length self.old.units }
    {
        let units = self.units[x as usize].with(u);
        let materials = self.materials[u as usize].with(x);
        self.units[x as usize] = units;
        self.materials[u as usize] = materials;
    }

    /// Joins the unit and each material of the terms.
    fn join_all(&mut self, u: u32, terms: &[Term])
        requires unit { u < length self.old.materials }
        requires known { (x : ℕ) → terms_have terms.now x ≡ true → x < length self.old.units }
        ensures joined { (v y : ℕ)
            → joins self.new v y ≡ (((u == v) && terms_have terms.now y) || joins self.old v y) }
        ensures units { length self.new.materials ≡ length self.old.materials }
        ensures materials { length self.new.units ≡ length self.old.units }
    {
        for term in terms {
            self.join(u, term.material);
        }
    }

    /// All arcs have this. A call gives it to a proof.
    fn is_arcs(&self)
        ensures { IsArcs self.now }
    {
        let _units = self.units.len();
    }

    pub fn unit_count(&self) -> u32
        ensures { result ≡ length self.now.materials }
    {
        self.materials.len() as u32
    }

    pub fn material_count(&self) -> u32
        ensures { result ≡ length self.now.units }
    {
        self.units.len() as u32
    }

    /// The materials that are joined to the unit.
    pub fn materials(&self, u: u32) -> MatSet
        requires { u < length self.now.materials }
        ensures { has result ≡ joins self.now u }
    {
        self.materials[u as usize]
    }

    /// The units that are joined to the material.
    pub fn units(&self, x: u32) -> UnitSet
        requires { x < length self.now.units }
        ensures { has result ≡ (λ u. joins self.now u x) }
    {
        self.units[x as usize]
    }

    /// Whether some unit of the set is joined to the material.
    pub fn joins_some(&self, set: UnitSet, x: u32) -> bool
        requires { x < length self.now.units }
        ensures { result ≡ joins_some self.now (has set) x }
    {
        !self.units[x as usize].meet(set).is_empty()
    }

    /// The materials that are joined to some unit of the set.
    pub fn materials_of(&self, set: UnitSet) -> MatSet
        requires { (u : ℕ) → has set u ≡ true → u < length self.now.materials }
        ensures { has result ≡ joins_some self.now (has set) }
    {
        self.is_arcs();
        let mut found = MatSet::empty();
        for u in set {
            found = found.union(self.materials(u));
        }
        found
    }
}
