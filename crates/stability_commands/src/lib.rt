//! The command `stable` judges the claim, and not the nodes.
//!
//! It prints how far one price or cost may move while the network of a claim stays optimal, or how
//! far each of them may. [`stable::stable`] reads a problem and a tree, looks the name up, judges
//! the lines of the claim, and prints the range. [`ranges::ranges`] prints the ranges of all prices
//! and costs of the network in one table. `Stable` and `StableTable` of `studio_rules` say which
//! lines are printed with which status.
//!
//! Modules: `stable`, the command on one price or cost; `text`, its lines; `ranges`, the command on
//! all; `spots`, what is varied, `cells`, a row, and `table`, its lines.
#![tactic(auto)]

pub use stability::{SpotKind, valued_is_valid};

mod cells;
pub mod ranges;
mod spots;
pub mod stable;
mod table;
mod text;
