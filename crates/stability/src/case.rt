//! A network and a spot of a problem, and the values on both sides of the present one.
ghost use Rattle.std.specs.Prelude.{◌≡◌, ◌≤◌};
ghost use Rattle.stability_laws.specs.problem_rules.Validity.{IsValid};
ghost use Rattle.stability_laws.specs.pns_rules.Shape.{shape_of};
ghost use Rattle.solver.specs.pgraph.Tables.{shape};
ghost use Rattle.stability_laws.specs.tree_rules.Claim.{IsFeasible};
ghost use Rattle.stability_laws.specs.report_rules.Spot.{KnowsSpot, value_at, IsAllowedValue};
ghost use Rattle.stability_laws.specs.report_rules.Spot.{value_on};
ghost use Rattle.stability_laws.specs.report_rules.Spot.{limit_on, least_value, greatest_value};

use crate::setting::value_at;
use solver::{Graph, Network, Problem, Site};
use stability_laws::{Side, Spot, present_stays};
use std::alloc::Global;
use std::marker::Model;

/// What is sought: the range of a spot for a network, with a budget of nodes for each search.
#[derive(Drop)]
pub(crate) struct Case<'a> {
    pub(crate) alloc: Global,
    pub(crate) problem: &'a Problem,
    pub(crate) graph: &'a Graph,
    pub(crate) network: &'a Network,
    pub(crate) spot: Spot,
    pub(crate) present: i64,
    pub(crate) budget: u32,
}

impl<'a> Model for Case<'a> {
    ghost use Rattle.solver.specs.pgraph.Tables.{shape};
    ghost use Rattle.stability.specs.Case as cases;
    ghost use Rattle.stability.specs.Case.{IsCase};

    ghost Value = { cases.Case };

    ghost view = { λ c. record {
      problem = c.problem.now;
      network = c.network.now;
      spot =
          c.spot;
      budget = c.budget;
    } };

    ghost invariant = { λ c. IsCase c.problem.now (shape c.graph.now) c.network.now c.spot c.present
        c.budget };
}

fn least_value(spot: Spot) -> i64
    ensures { result ≡ least_value spot }
{
    match spot {
        Spot::Price(_) => -1_000_000_000_000_000,
        Spot::Fix(_) => 0,
        Spot::Proportional(_) => -1_000_000_000_000_000,
    }
}

fn greatest_value() -> i64
    ensures { result ≡ greatest_value }
{
    1_000_000_000_000_000
}

impl<'a> Case<'a> {
    pub(crate) fn of(
        alloc: Global,
        site: &Site<'a>,
        network: &'a Network,
        spot: Spot,
        budget: u32,
    ) -> Case<'a>
        requires passes { IsFeasible site.now network.now }
        requires known { KnowsSpot site.now spot }
        requires some { 1 ≤ budget }
        ensures { result
            ≡ record { problem = site.now; network = network.now; spot = spot; budget = budget } }
    {
        let problem = site.problem();
        present_stays();
        let present = value_at(problem, spot);
        Case {
            alloc,
            problem,
            graph: site.graph(),
            network,
            spot,
            present,
            budget,
        }
    }

    /// The problem is valid, the spot is one of it, its value is allowed, and the network passes as
    /// a claim. A call proves this, and does nothing.
    pub(crate) fn is_known(&self)
        ensures valid { IsValid self.now.problem }
        ensures known { KnowsSpot self.now.problem self.now.spot }
        ensures allowed { IsAllowedValue self.now.spot (value_at self.now.problem self.now.spot) }
        ensures feasible { IsFeasible self.now.problem self.now.network }
    {
        self.problem.is_valid();
    }

    /// The present value.
    pub(crate) fn value_now(&self) -> i64
        ensures { result ≡ value_at self.now.problem self.now.spot }
    {
        self.present
    }

    /// How far the limit of the values is from the present one.
    pub(crate) fn room(&self, side: Side) -> u64
        ensures { value_on side (value_at self.now.problem self.now.spot) result
            ≡ limit_on side self.now.spot }
    {
        match side {
            Side::Below => (self.present - least_value(self.spot)) as u64,
            Side::Above => (greatest_value() - self.present) as u64,
        }
    }

    /// The value that lies so far away from the present one.
    pub(crate) fn value(&self, side: Side, away: u64) -> i64
        requires { IsAllowedValue self.now.spot
            (value_on side (value_at self.now.problem self.now.spot) away) }
        ensures { result ≡ value_on side (value_at self.now.problem self.now.spot) away }
    {
        match side {
            Side::Below => self.present - away as i64,
            Side::Above => self.present + away as i64,
        }
    }
}
