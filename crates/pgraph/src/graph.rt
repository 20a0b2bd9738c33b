//! The graph of a problem, and what it says of materials, units and sets of units.
ghost use Rattle.std.specs.Prelude.{◌≡◌, ◌<◌, ◌≤◌, ℕ, true, length, IfOk};
ghost use Rattle.flow_rules.specs.number_sets.Sets.{has};
ghost use Rattle.flow_rules.specs.pns_rules.Shape.{IsProper, shape_of};
ghost use Rattle.flow_rules.specs.pns_rules.Structure.{is_made, is_used, mats, is_needed};
ghost use Rattle.pgraph.specs.Tables.{shape, excluded_at, IsGraph};

use crate::arcs::{Arcs, Side};
use crate::tables::{excluded_units, raws_and_products};
use flow_rules::valid_is_proper;
use pns_problem::Problem;
use std::alloc::{AllocError, Global};
use std::marker::Model;
use unit_sets::{MatSet, UnitSet};

/// The P-graph of a problem, and its exclusions. Contracts see it through `shape`, the tests that
/// the axioms read.
#[derive(Drop)]
pub struct Graph {
    raws: MatSet,
    products: MatSet,
    inputs: Arcs,
    outputs: Arcs,
    exclusions: Vec<UnitSet>,
}

impl Model for Graph {
    ghost use Rattle.pgraph.specs.Tables.{Tables, IsGraph};

    ghost Value = { Tables };

    ghost view = { λ g. record {
      raws = g.raws;
      products = g.products;
      inputs = g.inputs;
      outputs =
          g.outputs;
      exclusions = g.exclusions.items;
    } };

    ghost invariant = { λ g. IsGraph
        (record {
          raws = g.raws;
          products = g.products;
          inputs = g.inputs;
          outputs =
              g.outputs;
          exclusions = g.exclusions.items;
        }) };
}

impl Graph {
    /// The graph of a problem.
    pub fn of(alloc: Global, problem: &Problem) -> Result<Graph, AllocError>
        ensures { IfOk result (λ g. shape g ≡ shape_of problem.now) }
    {
        problem.is_valid();
        valid_is_proper();
        let materials = problem.materials();
        let units = problem.units();
        let inputs = Arcs::of(alloc, materials.len(), units, Side::Inputs)?;
        let outputs = Arcs::of(alloc, materials.len(), units, Side::Outputs)?;
        let exclusions = excluded_units(alloc, problem.exclusions())?;
        let (raws, products) = raws_and_products(materials);
        Ok(Graph::new(raws, products, inputs, outputs, exclusions))
    }

    fn new(
        raws: MatSet,
        products: MatSet,
        inputs: Arcs,
        outputs: Arcs,
        exclusions: Vec<UnitSet>,
    ) -> Graph
        requires { IsGraph
            (record {
              raws = raws;
              products = products;
              inputs = inputs;
              outputs =
                  outputs;
              exclusions = exclusions.items;
            }) }
        ensures { result
            ≡ record {
              raws = raws;
              products = products;
              inputs = inputs;
              outputs =
                  outputs;
              exclusions = exclusions.items;
            } }
    {
        Graph {
            raws,
            products,
            inputs,
            outputs,
            exclusions,
        }
    }

    /// Every graph has this. A call gives it to a proof.
    pub fn is_proper(&self)
        ensures proper { IsProper (shape self.now) }
        ensures few_units { (shape self.now).units ≤ 128 }
        ensures few_materials { (shape self.now).materials ≤ 256 }
        ensures few_exclusions { (shape self.now).exclusions ≤ 64 }
    {
        let _raws = self.raws;
    }

    /// How many operating units there are, at most 128.
    pub fn unit_count(&self) -> u32
        ensures { result ≡ (shape self.now).units }
    {
        self.inputs.unit_count()
    }

    /// How many materials there are, at most 256.
    pub fn material_count(&self) -> u32
        ensures { result ≡ (shape self.now).materials }
    {
        self.inputs.material_count()
    }

    /// How many exclusions there are, at most 64.
    pub fn exclusion_count(&self) -> u32
        ensures { result ≡ (shape self.now).exclusions }
    {
        self.exclusions.len() as u32
    }

    /// The raw materials.
    pub fn raws(&self) -> MatSet
        ensures { has result ≡ (shape self.now).raw }
    {
        self.raws
    }

    /// The products.
    pub fn products(&self) -> MatSet
        ensures { has result ≡ (shape self.now).product }
    {
        self.products
    }

    /// The units that make the material.
    pub fn producers(&self, x: u32) -> UnitSet
        requires { x < (shape self.now).materials }
        ensures { has result ≡ (λ u. (shape self.now).makes u x) }
    {
        self.outputs.units(x)
    }

    /// The units that use the material.
    pub fn consumers(&self, x: u32) -> UnitSet
        requires { x < (shape self.now).materials }
        ensures { has result ≡ (λ u. (shape self.now).uses u x) }
    {
        self.inputs.units(x)
    }

    /// The materials that the unit uses.
    pub fn inputs(&self, u: u32) -> MatSet
        requires { u < (shape self.now).units }
        ensures { has result ≡ (shape self.now).uses u }
    {
        self.inputs.materials(u)
    }

    /// The materials that the unit makes.
    pub fn outputs(&self, u: u32) -> MatSet
        requires { u < (shape self.now).units }
        ensures { has result ≡ (shape self.now).makes u }
    {
        self.outputs.materials(u)
    }

    /// The units of the exclusion.
    pub fn excluded(&self, k: u32) -> UnitSet
        requires { k < (shape self.now).exclusions }
        ensures { has result ≡ (shape self.now).excludes k }
    {
        self.exclusions[k as usize]
    }

    /// Whether some unit of the set makes the material.
    pub fn is_made(&self, set: UnitSet, x: u32) -> bool
        requires { x < (shape self.now).materials }
        ensures { result ≡ is_made (shape self.now) (has set) x }
    {
        self.outputs.joins_some(set, x)
    }

    /// Whether some unit of the set uses the material.
    pub fn is_used(&self, set: UnitSet, x: u32) -> bool
        requires { x < (shape self.now).materials }
        ensures { result ≡ is_used (shape self.now) (has set) x }
    {
        self.inputs.joins_some(set, x)
    }

    /// The materials that some unit of the set makes.
    pub fn made(&self, set: UnitSet) -> MatSet
        requires { (u : ℕ) → has set u ≡ true → u < (shape self.now).units }
        ensures { has result ≡ is_made (shape self.now) (has set) }
    {
        self.outputs.materials_of(set)
    }

    /// The materials that some unit of the set uses.
    pub fn used(&self, set: UnitSet) -> MatSet
        requires { (u : ℕ) → has set u ≡ true → u < (shape self.now).units }
        ensures { has result ≡ is_used (shape self.now) (has set) }
    {
        self.inputs.materials_of(set)
    }

    /// The inputs and outputs of the units of the set.
    pub fn materials(&self, set: UnitSet) -> MatSet
        requires { (u : ℕ) → has set u ≡ true → u < (shape self.now).units }
        ensures { has result ≡ mats (shape self.now) (has set) }
    {
        self.used(set).union(self.made(set))
    }

    /// What the set needs: the products, and the inputs of its units that are not raw.
    pub fn needed(&self, set: UnitSet) -> MatSet
        requires { (u : ℕ) → has set u ≡ true → u < (shape self.now).units }
        ensures { has result ≡ is_needed (shape self.now) (has set) }
    {
        self.products().union(self.used(set).minus(self.raws()))
    }
}
