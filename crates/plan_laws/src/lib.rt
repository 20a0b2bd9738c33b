//! The problem of a valid plan is valid; its least networks are the least designs.
//!
//! These are laws of plans and of designs, over the definitions of `plan_rules`. The problem into
//! which a valid plant and a plan for it are expanded is valid, and plans have at most 256 periods.
//! The solution structures of an expanded problem are the families of solution structures of the
//! plant, one for each period, with their union. Its networks are the designs of the plant over its
//! periods, at the same cost. So a network that no other undercuts is a design that no design
//! undercuts.
//!
//! `specs/Laws` states the laws of plans, and `specs/DesignLaws` those of designs. Each is the
//! contract of a function that does nothing; a call gives a proof its law.
#![tactic(auto)]

ghost use Rattle.plan_laws.specs.Laws.{ExpandedIsValid, PlansAreShort};

use plan_rules::valid_is_well_formed;

mod laws;

pub use laws::{
    designs_are_networks, families_are_structures, least_network_is_least_design,
    no_network_is_no_design, structures_are_families,
};
pub use plan_rules::{PlanKind, PlanWord};

/// A valid problem and a plan for it give a valid expanded problem.
pub fn expanded_is_valid()
    ensures { ExpandedIsValid }
{
    valid_is_well_formed();
}

/// A plan for a valid problem has at most 256 periods.
pub fn plans_are_short()
    ensures { PlansAreShort }
{
    valid_is_well_formed();
}
