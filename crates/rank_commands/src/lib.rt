//! The commands `rank`, `alternatives` and `rankcheck`: the best networks and their proof.
//!
//! [`rank`] prints as many of the best networks of a problem as are asked for, with the tree that
//! proves it. [`alternatives`] leaves out those that are another one with something idle.
//! [`rankcheck`] reads the problem of a file and the ranking of another, and prints whether the
//! tree of the ranking proves it.
//!
//! The contract of each says which text is printed with which status. In `studio_rules`, `Rank`,
//! `Alternates` and `Rankcheck` have what is printed, and `RankWords` the word of each cause for
//! which a ranked tree is refused.
//!
//! Modules: `command` and `alternates`, the commands that search; `ranking`, the text of what was
//! found; `rank_file`, the ranking of a file; `judge`, the command `rankcheck`.
#![tactic(auto)]

mod alternates;
mod command;
mod judge;
mod rank_file;
mod ranking;

pub use alternates::alternatives;
pub use command::rank;
pub use judge::{accepted_are_best, rankcheck};
