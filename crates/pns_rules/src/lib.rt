//! P-graphs, structures and nodes: structures unite, steps keep families, children split them.
//!
//! The definitions are in `specs/`. They read a `Shape`, which is the graph of a problem without
//! its rates. `Shape` and `Structure` have the axioms, `Trace` and `Listing` the order of
//! structures, `Nodes` and `Ends` the steps and the options of a node. `Breaks` and `Verdict` say
//! at which place a set of units breaks an axiom. `Tokens` says how words and files write such a
//! set.
//!
//! Each law is the contract of a function without a body. A proof elsewhere calls the function to
//! use the law.
#![tactic(auto)]

mod families;
mod listing;
mod options;
mod order;
mod shape;
mod structures;
mod traces;
mod verdict;

pub use families::{ends_are_empty, steps_keep_families};
pub use listing::{listing_exists, listing_resumes};
pub use options::{children_split_families, options_are_all};
pub use order::{order_is_total, traces_branch};
pub use shape::valid_is_proper;
pub use structures::structures_unite;
pub use traces::{traces_exist, traces_tell};
pub use verdict::{Axiom, Verdict};
