//! The steps of a node.
ghost use Rattle.std.specs.Prelude.{◌≡◌, map};
ghost use Rattle.pgraph.specs.View.{step_of};

use pgraph::Step;
use std::marker::Model;

/// The steps that are taken at a node, in order. Contracts see them as the steps of the rules.
#[derive(Drop)]
pub struct Steps {
    steps: Vec<Step>,
}

impl Model for Steps {
    ghost use Rattle.std.specs.Prelude.{List, map};
    ghost use Rattle.tree_rules.specs.pns_rules.Nodes as rules;
    ghost use Rattle.pgraph.specs.View.{step_of};

    ghost Value = { List rules.Step };

    ghost view = { λ s. map step_of s.steps.items };
}

impl Steps {
    /// The list of these steps.
    pub fn from_vec(steps: Vec<Step>) -> Steps
        ensures { result ≡ map step_of steps.items }
    {
        Steps { steps }
    }

    /// The steps in order.
    pub fn steps(&self) -> &[Step]
        ensures { map step_of result.now ≡ self.now }
    {
        &self.steps
    }

    /// The steps, given back.
    pub fn into_vec(self) -> Vec<Step>
        ensures { map step_of result.items ≡ self }
    {
        self.steps
    }
}
