//! A problem with its graph.
ghost use Rattle.std.specs.Prelude.{◌≡◌, ◌≤◌};
ghost use Rattle.flow_rules.specs.problem_rules.Validity.{IsValid};
ghost use Rattle.flow_rules.specs.pns_rules.Shape.{IsProper, shape_of};
ghost use Rattle.pgraph.specs.Tables.{shape};

use crate::graph::Graph;
use pns_problem::Problem;
use std::marker::Model;

/// A problem and its graph, which the same calls read. Rates, prices and bounds are in the problem;
/// the graph says what makes and uses a material. Contracts see a site as its problem.
#[derive(Drop)]
pub struct Site<'a> {
    problem: &'a Problem,
    graph: &'a Graph,
}

impl<'a> Model for Site<'a> {
    ghost use Rattle.std.specs.Prelude.{◌≡◌};
    ghost use Rattle.flow_rules.specs.problem_rules.Problem.{Problem};
    ghost use Rattle.flow_rules.specs.pns_rules.Shape.{shape_of};
    ghost use Rattle.pgraph.specs.Tables.{shape};

    ghost Value = { Problem };

    ghost view = { λ s. s.problem.now };

    ghost invariant = { λ s. shape s.graph.now ≡ shape_of s.problem.now };
}

impl<'a> Site<'a> {
    /// The site of a problem and its graph.
    pub fn of(problem: &'a Problem, graph: &'a Graph) -> Site<'a>
        requires { shape graph.now ≡ shape_of problem.now }
        ensures { result ≡ problem.now }
    {
        Site { problem, graph }
    }

    /// The problem, which is valid.
    pub fn problem(&self) -> &'a Problem
        ensures same { result.now ≡ self.now }
        ensures valid { IsValid self.now }
    {
        self.problem.is_valid();
        self.problem
    }

    /// The graph, which is the problem's.
    pub fn graph(&self) -> &'a Graph
        ensures same { shape result.now ≡ shape_of self.now }
        ensures proper { IsProper (shape_of self.now) }
        ensures few_units { (shape_of self.now).units ≤ 128 }
        ensures few_materials { (shape_of self.now).materials ≤ 256 }
        ensures few_exclusions { (shape_of self.now).exclusions ≤ 64 }
    {
        self.graph.is_proper();
        self.graph
    }
}
