//! A script is applied exactly, with its undo, or its first fault is named.
//!
//! [`apply`] gives the problem after a script and the script that leads back, or the first fault of
//! meaning at the line of its edit. [`migrate`] gives the script that turns yearly costs into
//! investment costs. Contracts see problems, edits and scripts as the records of `problem_rules`
//! and `edit_rules`, and state the result in the words of `edit_rules`: `applied`, `undoing`,
//! `CanApply`, `IsFirstFault`, `migration`.
//!
//! A script changes one copy of the parts in place, line by line, and the problem is built once
//! after the last line. Modules: `material`, `unit` and `exclusion` (the edits of each, with what
//! undoes them), `place` (names), `numbering` (places that move), `terms` and `members` (names to
//! numbers and back), `fault`, `inverse`, `script`, `migration`.
#![tactic(auto)]

mod exclusion;
mod fault;
mod inverse;
mod material;
mod members;
mod migration;
mod numbering;
mod place;
mod script;
mod terms;
mod unit;

pub use edit_laws::{printed_scripts_read, scripts_are_undone};
pub use edit_scripts::{EditFault, EditKind, Script, print_script, read_script};
pub use migration::{MigrateFault, migrate};
pub use script::apply;
