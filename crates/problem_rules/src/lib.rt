//! What a synthesis problem is, how its items are named, and which problems are valid.
//!
//! The definitions are in `specs/`. `Problem` has materials, operating units and exclusions, and
//! `Names` their names. `Validity` has the faults of a problem in the order in which they are
//! judged. `WellFormed` says what is true of each item of a problem without a fault. `Draws` and
//! `Generated` give a problem for each number and count of units.
#![tactic(auto)]

ghost use Rattle.problem_rules.specs.WellFormed.{ValidIsWellFormed};

/// A problem is valid, that is, has none of the faults, exactly if it is well formed: each item is
/// well formed, names of items of one sort differ, and it has a product and a payout period of 1 to
/// 100 years. A call gives this law to a proof, and does nothing when it runs.
pub fn valid_is_well_formed()
    ensures { ValidIsWellFormed }
{}
