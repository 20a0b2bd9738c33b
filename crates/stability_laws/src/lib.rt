//! What is best at two values of a price or cost is best between them.
//!
//! These are the laws of sensitivity ranges. They say what a value in a spot does not change, and
//! that the cost of flows is a straight line in it. A network that is optimal now, and whose cost
//! rises on one side as little as any can, stays optimal there.
//!
//! `specs/Laws` states them. Each is the contract of a function that does nothing; a call gives a
//! proof its law.
#![tactic(auto)]

ghost use Rattle.stability_laws.specs.Laws.{ValuedIsValid, PresentIsAllowed, ValuedIsSame};
ghost use Rattle.stability_laws.specs.Laws.{ShapeStays, FeasibleStays, CostIsALine, BestBetween};
ghost use Rattle.stability_laws.specs.Laws.{RisesEnough, BestAway};

pub use report_rules::{Place, Side, Sort, Spot, SpotKind, sums_are_last};

/// An allowed value in the spot leaves a problem valid.
pub fn valued_is_valid()
    ensures { ValuedIsValid }
{}

/// The present value is an allowed one, and leaves the problem as it is.
pub fn present_stays()
    ensures allowed { PresentIsAllowed }
    ensures same { ValuedIsSame }
{}

/// The P-graph is the same with each value in the spot. A network is feasible there at what its
/// flows cost, if the numbers of this cost are in range.
pub fn structures_stay()
    ensures shape { ShapeStays }
    ensures feasible { FeasibleStays }
{}

/// The cost of flows is a straight line in the value. A network that is optimal at two values is
/// optimal at each value between.
pub fn best_between()
    ensures line { CostIsALine }
    ensures between { BestBetween }
{}

/// One step away from a value, the cost of each structure's flows rises by at least `least_rise`,
/// over their `d`. A network that is optimal now, and whose cost rises by no more on a side, is
/// optimal at each value there.
pub fn best_away()
    ensures rises { RisesEnough }
    ensures away { BestAway }
{}
