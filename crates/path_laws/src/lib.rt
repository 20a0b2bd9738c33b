//! A program has one path, no basis twice; its end gives least flows or a refutation.
//!
//! These are laws of bases, tableaux and the path of the dual simplex method of `flow_rules`. There
//! is no code: each law is the contract of a function without a body, and `specs/` states it. A
//! proof elsewhere calls the function to use the law.
//!
//! Modules: `tableaux` (the rows of a basis), `paths` (the path is one, and a rank rises along it),
//! `phases` (no basis is on it twice), `ranges` (which numbers can leave the range), `ends` (what
//! is read off at its end).
#![tactic(auto)]

mod ends;
mod paths;
mod phases;
mod ranges;
mod tableaux;

pub use ends::{least_flows, read_flows, row_refutes, split_nodes};
pub use paths::{columns_are_ordered, ends_are_last, first_phase, path_is_one, second_phase};
pub use phases::{first_unit_has_pivot, no_basis_twice, path_is_complete};
pub use ranges::{first_kind_fits, rows_are_combined, values_are_within};
pub use tableaux::{pivots_keep_tableaux, start_is_tableau, tableau_is_one};
