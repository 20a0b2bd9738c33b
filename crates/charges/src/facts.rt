//! What is known of the flows that matter at a node.
ghost use Rattle.std.specs.Prelude.{◌≡◌, ◌<◌};
ghost use Rattle.structure_list.specs.flow_rules.Net.{net_of};
ghost use Rattle.structure_list.specs.flow_rules.ChargeFacts.{own_facts};
ghost use Rattle.charges.specs.Known.{demand_of, asked_of, facts_of, at_one, known_at};

use structure_list::Problem;

/// A material of which at least so much is used, in millionths, and what the sum gets for each part
/// of its use.
#[derive(Clone, Copy, Debug)]
pub struct Demand {
    pub of: u32,
    pub amount: i128,
    pub worth: i128,
}

/// Between which sizes each unit is, and how much is used of each material at most. Of one material
/// it may be asked what follows if more is used.
#[derive(Clone, Copy)]
pub struct Facts {
    least: [i64; 128],
    most: [i64; 128],
    used: [Option<i64>; 256],
    demand: Option<Demand>,
}

impl Facts {
    /// What the problem's own numbers say: sizes between the bounds of the units, and no use.
    pub fn own(problem: &Problem) -> Facts
        ensures { facts_of result ≡ own_facts (net_of problem.now) }
    {
        problem.is_valid();
        let mut least = [0; 128];
        let mut most = [0; 128];
        let units = problem.units();
        for u in 0..units.len() {
            let unit = &units[u];
            least[u] = unit.lower;
            most[u] = unit.upper;
        }
        Facts {
            least,
            most,
            used: [None; 256],
            demand: None,
        }
    }

    /// The least size of a unit.
    pub fn least_of(&self, u: u32) -> i64
        requires { u < 128 }
        ensures { result ≡ (facts_of self.now).least u }
    {
        self.least[u as usize]
    }

    /// The greatest size of a unit.
    pub fn most_of(&self, u: u32) -> i64
        requires { u < 128 }
        ensures { result ≡ (facts_of self.now).most u }
    {
        self.most[u as usize]
    }

    /// How much is used of a material at most, if that is known.
    pub fn used_of(&self, j: u32) -> Option<i64>
        requires { j < 256 }
        ensures { result ≡ (facts_of self.now).used j }
    {
        self.used[j as usize]
    }

    /// These facts, but with another least size of a unit.
    pub fn with_least(&self, u: u32, size: i64) -> Facts
        requires { u < 128 }
        ensures { facts_of result ≡ record {
          least = at_one (facts_of self.now).least u size;
          most = (facts_of self.now).most;
          used = (facts_of self.now).used;
          demand = (facts_of self.now).demand;
        } }
    {
        let mut least = self.least;
        least[u as usize] = size;
        Facts {
            least,
            most: self.most,
            used: self.used,
            demand: self.demand,
        }
    }

    /// These facts, but with another greatest size of a unit.
    pub fn with_most(&self, u: u32, size: i64) -> Facts
        requires { u < 128 }
        ensures { facts_of result ≡ record {
          least = (facts_of self.now).least;
          most = at_one (facts_of self.now).most u size;
          used = (facts_of self.now).used;
          demand = (facts_of self.now).demand;
        } }
    {
        let mut most = self.most;
        most[u as usize] = size;
        Facts {
            least: self.least,
            most,
            used: self.used,
            demand: self.demand,
        }
    }

    /// The use that is asked for.
    pub(crate) fn demand(&self) -> Option<Demand>
        ensures { asked_of result ≡ (facts_of self.now).demand }
    {
        self.demand
    }

    /// These facts, but with another greatest use of a material.
    pub fn with_used(&self, j: u32, amount: i64) -> Facts
        requires { j < 256 }
        ensures { facts_of result ≡ record {
          least = (facts_of self.now).least;
          most = (facts_of self.now).most;
          used = known_at (facts_of self.now).used j amount;
          demand = (facts_of self.now).demand;
        } }
    {
        let mut used = self.used;
        used[j as usize] = Some(amount);
        Facts {
            least: self.least,
            most: self.most,
            used,
            demand: self.demand,
        }
    }

    /// These facts, and a use that is asked for.
    pub fn with_demand(&self, demand: Demand) -> Facts
        ensures { facts_of result ≡ record {
          least = (facts_of self.now).least;
          most = (facts_of self.now).most;
          used = (facts_of self.now).used;
          demand = Some (demand_of demand);
        } }
    {
        Facts {
            least: self.least,
            most: self.most,
            used: self.used,
            demand: Some(demand),
        }
    }
}
