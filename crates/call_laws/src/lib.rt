//! Laws over what several calls of the program print; searches that are sure to finish.
//!
//! What one call prints is a file of the next. The laws use the definitions of `studio_rules`, in
//! the words of what each call says. The main ones are also over calls of `studio` with their
//! shelves and sinks. `specs/` states them. Each is the contract of a function that does nothing: a
//! proof that calls it may use the law after the call.
//!
//! A search is sure to finish if the plant has no demands: nothing has to be made and no size
//! earns. At each node of such a plant the simplex method has least flows before its first pivot,
//! with all sizes 0, and none of its numbers overflows. `specs/NoDemands` says which plants these
//! are, and `specs/Laws` what is true of them. `specs/Calls` says how a call ends that searches
//! one.
//!
//! `specs/OneUnit` is a worked plant, and [`solve_one_unit`] a worked call, `solve` of this plant
//! in memory. Its contract says that it ends with status 0, unless a read, an output or memory
//! fails.
//!
//! Modules of laws over several calls: `costs` (claims of two proofs), `optimum` (`list`, `flows`,
//! `solve` and `rank`), `edits` (`edit` and `undo`), `leaves`, `parts` and `orders` (searches in
//! parts), `period_costs` (`periods`), `ranges` (`stable`), `texts` (canonical texts), and `calls`,
//! for calls of `studio` on `periods` and `stable`. Modules of plants without demands: `laws`;
//! `one_unit`, the shelf and the words; `call`, the worked call.
#![tactic(auto)]

mod call;
mod calls;
mod costs;
mod edits;
mod laws;
mod leaves;
mod one_unit;
mod optimum;
mod orders;
mod parts;
mod period_costs;
mod ranges;
mod texts;

pub use call::solve_one_unit;
pub use calls::{check_certifies_periods, stable_agrees};
pub use costs::{one_cost, solves_agree};
pub use edits::{call_gives_back, edit_is_undone};
pub use laws::{nothing_is_past, nothing_stops, one_unit_is_sure, sure_call_is_done};
pub use leaves::spent_leaves_are_nodes;
pub use optimum::{
    calls_agree, first_is_optimal, listed_cost_enough, one_cost_is_told, optimum_is_listed,
};
pub use orders::{each_order_merges, merges_agree};
pub use parts::merge_takes_part;
pub use period_costs::{expanded_is_read, periods_are_certified, read_is_plan};
pub use ranges::{best_is_claimed, ranges_are_solved, settings_set_spots, values_are_edited};
pub use texts::canonical_is_short;
