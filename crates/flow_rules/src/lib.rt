//! Flows, bounds that none of them undercuts, refutations, and the path of the simplex method.
//!
//! The first definitions are of flows of a set of operating units and their cost, of the relaxed
//! flow program of a node, its bounds and its refutations. Laws tie them, weak duality above all:
//! no flows in a node's family cost less than its bound, and a refuted node has none. Each law is
//! the contract of a function without a body. A proof elsewhere calls the function to use the law.
//!
//! The next definitions are of charges: no flows that fit what is known cost less than the charge.
//! The relaxed bound lets a free unit pay for its size instead of its fixed cost. A charge lets it
//! owe the whole fixed cost or nothing, so it is stronger. For units to owe at all, a charge takes
//! `Cover`s: sets of units of which each structure of the node has one. What is made of a material
//! beyond all that can be used of it is worth nothing (`Knee`). If so much of a material is used,
//! its use is worth something (`Demand`). [`ChargeWhy`] is why a leaf with a charge is refused.
//!
//! The other definitions are of the path on which the dual simplex method solves such a program. A
//! basis fixes its tableau. Each row is the one combination of the equations in lowest terms with a
//! positive entry at its column and 0 at the other columns of the basis. The path is a list of
//! bases, each fixed by the one before. So these definitions need only bases and equations, and
//! code that changes rows in place is proved to agree with them. [`Column`] and [`Place`] name the
//! place of a number of a simplex method, and so which number overflows at the end of a path.
//!
//! In `specs/`, of flows: `Net`, a problem as functions of numbers; `Flows`, `Relaxed` and
//! `Program`; `Steps`, `BoundSteps`, `CostSteps` and `FeasibleSteps`, the numbers that each sum
//! forms on its way, and which is the first out of range; `Laws`.
//!
//! In `specs/`, of charges: `ChargeFacts`, what is known of sizes and uses; `Cover`; `Charge`;
//! `ChargeSteps`, which number of the sum is the first out of range; `ChargeLeaf`, which leaves of
//! a tree pass by a charge; `ChargeLaws`.
//!
//! In `specs/`, of the path: `LinearProgram`, `Columns`, `Equations`, `Tableau`; `Vectors` with the
//! order `Lexicographic`; `Pivots` and `Path`; `Start`, the first tableau; `Rank`, a number that
//! rises along the path; `Multipliers` and `ReadFlows`, what is read off at the end; `Places`, when
//! a number overflows; `Named` and `PastPlace`, the same by the numbers of the problem.
#![tactic(auto)]

ghost use Rattle.flow_rules.specs.Laws.{RelaxedDuality, FlowsAreRelaxed, RelaxedCostsLess};
ghost use Rattle.flow_rules.specs.Laws.{SlopeIsGreatest, WeakDuality, RefutationHolds};
ghost use Rattle.flow_rules.specs.Laws.{RefutedIsEmpty, BoundIsLast, CostIsLast, ReducedIsLast};
ghost use Rattle.flow_rules.specs.Laws.{BalanceIsLast};
ghost use Rattle.flow_rules.specs.ChargeLaws.{ChargeDuality, ChargeRefutes, OwnFactsHold, FlowsFit};

mod charge_why;
mod place;

pub use charge_why::ChargeWhy;
pub use integer_laws::Which;
pub use place::{Column, FlowStep, Place};
pub use pns_rules::{
    Axiom, Verdict, children_split_families, ends_are_empty, listing_exists, steps_keep_families,
    valid_is_proper,
};

/// For any multipliers and any scale of the cost from 0 on: no flows for a solution structure cost
/// less than a bound of a node, if the structure has the units that are taken in at the node and
/// none that is left out.
pub fn weak_duality()
    ensures { WeakDuality }
{}

/// If multipliers refute a node, no such structure has flows, and the node has no relaxed flows.
pub fn refutation()
    ensures structures { RefutationHolds }
    ensures relaxed { RefutedIsEmpty }
{}

/// No relaxed flows of a node cost less than a bound of it.
pub fn relaxed_duality()
    ensures { RelaxedDuality }
{}

/// Flows for a structure of a node are relaxed flows of the node, and their relaxed cost is at most
/// their cost.
pub fn flows_are_relaxed()
    ensures relaxed { FlowsAreRelaxed }
    ensures cost { RelaxedCostsLess }
{}

/// The slope by which a free unit pays for its fixed cost is the greatest that does not pay more
/// than that cost.
pub fn slope_is_greatest()
    ensures { SlopeIsGreatest }
{}

/// The last step of each sum is its value.
pub fn sums_are_last()
    ensures bound { BoundIsLast }
    ensures cost { CostIsLast }
    ensures reduced { ReducedIsLast }
    ensures balance { BalanceIsLast }
{}

/// No flows that fit the facts cost less than a charge, for any multipliers, any covers and any
/// scale of the cost.
pub fn charge_duality()
    ensures duality { ChargeDuality }
    ensures refutes { ChargeRefutes }
{}

/// All flows fit the problem's own numbers.
pub fn flows_fit()
    ensures own { OwnFactsHold }
    ensures fit { FlowsFit }
{}
