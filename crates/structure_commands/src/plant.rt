//! A problem with its maximal structure, and what is odd about its items.
ghost use Rattle.std.specs.Prelude.{◌≡◌, ◌<◌, ℕ, true, false, IfOk, length};
ghost use Rattle.text_lines.specs.number_sets.Sets.{has};
ghost use Rattle.text_lines.specs.problem_rules.Problem.{material_at, unit_at, exclusion_at};
ghost use Rattle.cert_check.specs.pns_rules.Shape.{shape_of};
ghost use Rattle.cert_check.specs.pns_rules.Structure.{IsUnion};
ghost use Rattle.cert_check.specs.pgraph.Tables.{shape};
ghost use Rattle.command_files.specs.report_rules.Warned.{has_twin, material_stands, unit_stands};
ghost use Rattle.command_files.specs.report_rules.Warned.{rates_stand};
ghost use Rattle.command_files.specs.report_rules.Warned.{exclusion_stands};
ghost use Rattle.command_files.specs.report_rules.Item.{name_of, stands};
ghost use Rattle.structure_commands.specs.Judged.{IsKnown};

use crate::exclusion::is_alone;
use crate::material::{has_no_demand, has_no_limit, is_free_raw};
use crate::unit::{has_default_capacity, has_fine_rates, is_free, is_like_one};
use cert_check::{
    Exclusion, Graph, MatSet, Material, OperatingUnit, Problem, UnitSet, maximal, valid_is_proper,
};
use command_files::{Item, Warning};
use std::alloc::{AllocError, Global};
use std::marker::Model;

/// A problem, the units of its maximal structure, and their materials. Contracts see the problem
/// and the units.
#[derive(Drop)]
pub(crate) struct Plant<'a> {
    problem: &'a Problem,
    units: UnitSet,
    materials: MatSet,
}

impl<'a> Model for Plant<'a> {
    ghost use Rattle.std.specs.Prelude.{◌≡◌};
    ghost use Rattle.text_lines.specs.number_sets.Sets.{has};
    ghost use Rattle.cert_check.specs.pns_rules.Shape.{shape_of};
    ghost use Rattle.cert_check.specs.pns_rules.Structure.{mats};
    ghost use Rattle.structure_commands.specs.Judged as specs;

    ghost Value = { specs.Judged };

    ghost view = { λ p. record { problem = p.problem.now; units = p.units } };

    ghost invariant = { λ p. has p.materials ≡ mats (shape_of p.problem.now) (has p.units) };
}

// The units of the maximal structure; none if there is no solution structure.
fn maximal_units(graph: &Graph) -> UnitSet
    ensures union { IsUnion (shape graph.now) (λ _. false) (has result) }
    ensures known { (u : ℕ) → has result u ≡ true → u < (shape graph.now).units }
{
    match maximal(graph, UnitSet::empty()) {
        Some(units) => units,
        None => UnitSet::empty(),
    }
}

fn material_of(problem: &Problem, x: u32) -> &Material
    requires { x < length problem.now.materials }
    ensures { result.now ≡ material_at problem.now x }
{
    &problem.materials()[x as usize]
}

fn unit_of(problem: &Problem, u: u32) -> &OperatingUnit
    requires { u < length problem.now.units }
    ensures { result.now ≡ unit_at problem.now u }
{
    &problem.units()[u as usize]
}

fn exclusion_of(problem: &Problem, k: u32) -> &Exclusion
    requires { k < length problem.now.exclusions }
    ensures same { result.now ≡ exclusion_at problem.now k }
    ensures members { (u : ℕ) → has result.now.units u ≡ true → u < 128 }
{
    problem.is_valid();
    valid_is_proper();
    &problem.exclusions()[k as usize]
}

fn has_twin(problem: &Problem, u: u32) -> bool
    requires { u < length problem.now.units }
    ensures { result ≡ has_twin problem.now u }
{
    let units = problem.units();
    is_like_one(unit_of(problem, u), &units[..u as usize])
}

impl<'a> Plant<'a> {
    /// The plant of a problem.
    pub(crate) fn of(alloc: Global, problem: &'a Problem) -> Result<Plant<'a>, AllocError>
        ensures same { IfOk result (λ plant. plant.problem ≡ problem.now) }
        ensures maximal { IfOk result
            (λ plant. IsUnion (shape_of problem.now) (λ _. false) (has plant.units)) }
    {
        let graph = Graph::of(alloc, problem)?;
        let units = maximal_units(&graph);
        let materials = graph.materials(units);
        Ok(Plant {
            problem,
            units,
            materials,
        })
    }

    /// The problem.
    pub(crate) fn problem(&self) -> &'a Problem
        ensures { result.now ≡ self.now.problem }
    {
        self.problem
    }

    /// The name of an item.
    pub(crate) fn name_of(&self, item: Item) -> &'a str
        requires { IsKnown self.now.problem item }
        ensures { result.now ≡ name_of self.now.problem item }
    {
        match item {
            Item::Material(x) => self.problem.material_name(x),
            Item::Unit(u) | Item::Rates(u) | Item::BareUnit(u) => self.problem.unit_name(u),
            Item::Exclusion(k) => exclusion_of(self.problem, k).name.as_str(),
        }
    }

    fn material_stands(&self, x: u32, kind: Warning) -> bool
        requires { x < length self.now.problem.materials }
        ensures { result ≡ material_stands self.now.problem (has self.now.units) x kind }
    {
        self.problem.is_valid();
        let material = material_of(self.problem, x);
        match kind {
            Warning::UnusedMaterial => !self.materials.has(x),
            Warning::NoDemand => has_no_demand(material),
            Warning::FreeRaw => is_free_raw(material),
            Warning::NoLimit => has_no_limit(material),
            _ => false,
        }
    }

    fn unit_stands(&self, u: u32, kind: Warning) -> bool
        requires { u < length self.now.problem.units }
        ensures { result ≡ unit_stands self.now.problem (has self.now.units) u kind }
    {
        self.problem.is_valid();
        let unit = unit_of(self.problem, u);
        match kind {
            Warning::NoNetwork => !self.units.has(u),
            Warning::DefaultCapacity => has_default_capacity(unit),
            Warning::Free => is_free(unit),
            Warning::Twins => has_twin(self.problem, u),
            _ => false,
        }
    }

    fn rates_stand(&self, u: u32, kind: Warning) -> bool
        requires { u < length self.now.problem.units }
        ensures { result ≡ rates_stand self.now.problem u kind }
    {
        match kind {
            Warning::FineRates => has_fine_rates(unit_of(self.problem, u)),
            _ => false,
        }
    }

    fn exclusion_stands(&self, k: u32, kind: Warning) -> bool
        requires { k < length self.now.problem.exclusions }
        ensures { result ≡ exclusion_stands self.now.problem (has self.now.units) k kind }
    {
        match kind {
            Warning::Alone => is_alone(self.units, exclusion_of(self.problem, k)),
            _ => false,
        }
    }

    /// Whether a kind of warning is due at an item.
    pub(crate) fn stands(&self, item: Item, kind: Warning) -> bool
        requires { IsKnown self.now.problem item }
        ensures { result ≡ stands self.now.problem (has self.now.units) item kind }
    {
        match item {
            Item::Material(x) => self.material_stands(x, kind),
            Item::Unit(u) => self.unit_stands(u, kind),
            Item::Rates(u) => self.rates_stand(u, kind),
            Item::BareUnit(u) => self.unit_stands(u, kind) || self.rates_stand(u, kind),
            Item::Exclusion(k) => self.exclusion_stands(k, kind),
        }
    }
}
