//! Designs of a plant over its periods.
use flow_program::UnitSet;
use std::marker::Model;

/// The units that run in a period, with a size for each in rising order of units, in millionths
/// over the design's d.
#[derive(Drop)]
pub struct Run {
    pub units: UnitSet,
    pub sizes: Vec<i128>,
}

impl Model for Run {
    ghost use Rattle.plan_laws.specs.plan_rules.Folded as rules;

    ghost Value = { rules.Run };

    ghost view = { λ r. record { units = r.units; sizes = r.sizes.items } };
}

/// The units that are built, with a capacity for each in rising order of units, and how they run in
/// each period. Capacities and sizes are in millionths over d. The cost over d and the payout
/// period is in 10^-18 of the money unit.
#[derive(Drop)]
pub struct Design {
    pub built: UnitSet,
    pub capacities: Vec<i128>,
    pub runs: Vec<Run>,
    pub d: i128,
    pub cost: i128,
}

impl Model for Design {
    ghost use Rattle.plan_laws.specs.plan_rules.Folded as rules;

    ghost Value = { rules.Written };

    ghost view = { λ x. record {
      built = x.built;
      capacities = x.capacities.items;
      runs =
          x.runs.items;
      d = x.d;
      cost = x.cost;
    } };
}
