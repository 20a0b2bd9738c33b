//! Listed networks are least for their units; no other undercuts the last.
//!
//! No flows for the units of a listed network cost less than it. Every other clash-free structure
//! costs at least what the last network does; if fewer networks are listed than were asked for, it
//! has no flows. A list of alternatives is right. A ranked tree has no fault, and any other tree
//! has one first fault.
//!
//! The laws are in `specs/Laws`, over the definitions of `rank_rules`. Each is the contract of a
//! function without a body. A proof elsewhere calls the function to use the law. They follow from
//! what `tree_laws` proves of trees over any leaves.
#![tactic(auto)]

mod faults;
mod ranked;

pub use faults::{network_has_one_fault, ranking_has_one_fault};
pub use rank_rules::{Naming, RankWhy, Refusal, Why};
pub use ranked::{alternatives_are_right, listed_are_least, others_are_no_better};
pub use tree_laws::accepted_is_optimal;
