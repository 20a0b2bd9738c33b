//! Reads plans for several periods, expands them into one problem, and gives its designs, exactly.
//!
//! A plan is a value here, a [`Plan`] of [`Period`]s. [`read_plan`] gives the one plan for a
//! problem that a text stands for, or exactly the text's first fault. [`expand`] gives the one
//! ordinary problem into which a plant and its plan are expanded. [`fold`] gives the [`Design`]
//! that a network of this problem stands for: the units that are built, with their capacities, and
//! how they run in each period.
//!
//! Contracts see plans, periods and designs as the records of `plan_rules`, and the definitions
//! there say which plan, problem and design they are.
//!
//! Modules: `plan` (plans and periods); `line` (what one line says alone), `reading` (what the
//! lines so far stand for) and `text` (all of it); `number` (names and terms), `materials`, `units`
//! and `expansion` (the expanded problem); `design` and `folding`.
#![tactic(auto)]

mod design;
mod expansion;
mod folding;
mod line;
mod materials;
mod number;
mod plan;
mod reading;
mod text;
mod units;

pub use design::{Design, Run};
pub use expansion::expand;
pub use folding::fold;
pub use plan::{Period, Plan};
pub use plan_laws::{
    PlanKind, expanded_is_valid, least_network_is_least_design, no_network_is_no_design,
    plans_are_short,
};
pub use text::{PlanFault, read_plan};
