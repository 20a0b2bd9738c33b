//! What is drawn.
ghost use Rattle.std.specs.Prelude.{◌≡◌, ◌≤◌, ◌<◌, ℕ, true, IfSome, length, option_map};
ghost use Rattle.std.specs.Prelude.{unsigned_abs};
ghost use Rattle.report_amounts.specs.number_sets.Sets.{has};
ghost use Rattle.report_amounts.specs.problem_rules.Validity.{IsValid};
ghost use Rattle.report_amounts.specs.pns_rules.Shape.{IsProper, shape_of};
ghost use Rattle.report_amounts.specs.pgraph.Tables.{shape};
ghost use Rattle.report_amounts.specs.tree_rules.Claim.{IsFeasible};
ghost use Rattle.report_amounts.specs.report_rules.Drawn.{is_spread, is_taken, counts};
ghost use Rattle.report_amounts.specs.report_rules.Drawn.{greatest_flow};
ghost use Rattle.graph_text.specs.Kept.{picture_of};

use crate::greatest::greatest_flow;
use report_amounts::{Graph, Network, Problem, Site, UnitSet};
use std::marker::Model;

/// Some units of a plant with their materials, and a network in it if one is given.
#[derive(Drop)]
pub(crate) struct Picture<'a> {
    problem: &'a Problem,
    graph: &'a Graph,
    network: Option<&'a Network>,
    units: UnitSet,
    greatest: u128,
}

impl<'a> Model for Picture<'a> {
    ghost use Rattle.std.specs.Prelude.{option_map};
    ghost use Rattle.report_amounts.specs.pgraph.Tables.{shape};
    ghost use Rattle.graph_text.specs.Kept as specs;

    ghost Value = { specs.Drawing };

    ghost view = { λ d. record {
      problem = d.problem.now;
      network =
          option_map (λ n. n.now) d.network;
      units = d.units;
    } };

    ghost invariant = { λ d. specs.IsKept (shape d.graph.now) d.greatest
        (record {
          problem = d.problem.now;
          network = option_map (λ n. n.now) d.network;
          units =
              d.units;
        }) };
}

impl<'a> Picture<'a> {
    /// The picture of these units, with the network in it if one is given.
    pub(crate) fn of(site: &Site<'a>, network: Option<&'a Network>, units: UnitSet) -> Picture<'a>
        requires known { (u : ℕ) → has units u ≡ true → u < length site.now.units }
        requires feasible { IfSome network (λ n. IsFeasible site.now n.now) }
        ensures { result
            ≡ record {
              problem = site.now;
              network = option_map (λ n. n.now) network.entry;
              units =
                  units;
            } }
    {
        let problem = site.problem();
        let graph = site.graph();
        let greatest = greatest_flow(problem, network);
        Picture {
            problem,
            graph,
            network,
            units,
            greatest,
        }
    }

    /// The plant, which is valid.
    pub(crate) fn problem(&self) -> &'a Problem
        ensures same { result.now ≡ self.now.problem }
        ensures valid { IsValid self.now.problem }
    {
        self.problem.is_valid();
        self.problem
    }

    /// Its graph.
    pub(crate) fn graph(&self) -> &'a Graph
        ensures same { shape result.now ≡ shape_of self.now.problem }
        ensures proper { IsProper (shape_of self.now.problem) }
        ensures few_units { (shape_of self.now.problem).units ≤ 128 }
        ensures few_materials { (shape_of self.now.problem).materials ≤ 256 }
    {
        self.graph.is_proper();
        self.graph
    }

    /// The network, if one is given.
    pub(crate) fn network(&self) -> Option<&'a Network>
        ensures same { option_map (λ n. n.now) result ≡ self.now.network }
        ensures feasible { IfSome result (λ n. IsFeasible self.now.problem n.now) }
    {
        self.network
    }

    /// The units that are drawn.
    pub(crate) fn units(&self) -> UnitSet
        ensures same { result ≡ self.now.units }
        ensures known { (u : ℕ) → has result u ≡ true → u < length self.now.problem.units }
    {
        self.units
    }

    /// The greatest flow of an arc of the network, in 10^-12 over its `d`.
    pub(crate) fn greatest(&self) -> u128
        ensures { result ≡ greatest_flow self.now.problem self.now.network }
    {
        self.greatest
    }

    /// The units of the network, or none without a network.
    fn taken(&self) -> UnitSet
        ensures value { has result ≡ is_taken self.now.network }
        ensures known { (u : ℕ) → has result u ≡ true → u < length self.now.problem.units }
    {
        match self.network() {
            None => UnitSet::empty(),
            Some(network) => network.units(),
        }
    }

    /// The units that count if they use the material.
    fn counting(&self, j: u32) -> UnitSet
        requires { j < length self.now.problem.materials }
        ensures value { has result ≡ counts (picture_of self.now) j }
        ensures known { (u : ℕ) → has result u ≡ true → u < length self.now.problem.units }
    {
        if self.graph().raws().has(j) {
            self.units()
        } else {
            self.taken()
        }
    }

    /// Whether the material is drawn once for each of its users.
    pub(crate) fn is_spread(&self, j: u32) -> bool
        requires { j < length self.now.problem.materials }
        ensures { result ≡ is_spread (picture_of self.now) j }
    {
        let users = self.graph().consumers(j).meet(self.counting(j));
        users.rises();
        users.count() > 4
    }
}
