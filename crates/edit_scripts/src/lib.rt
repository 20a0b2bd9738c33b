//! Edit scripts as values, with their reader and their printer.
//!
//! A script has edits of a problem. `read_script` gives the edits with the numbers of their lines,
//! or the first fault of form. `print_script` gives the one text of a script. No edit of a `Script`
//! has a fault of form.
//!
//! Modules: `edit`, `term`, `script` and `fault` (the values), `token` (what is wrong with one
//! token), `sides` (the terms of a new unit), `fields` and `insertion` (the forms of lines), `line`
//! (one line), `read`, `print`. Other texts with the same names and amounts are read with `fields`.
#![tactic(auto)]

mod edit;
mod fault;
pub mod fields;
mod insertion;
mod line;
mod print;
mod read;
mod script;
mod sides;
mod term;
mod token;

pub use edit::Edit;
pub use fault::{EditFault, LineFault};
pub use pns_problem::{Exclusion, Kind, Material, OperatingUnit, Parts, Problem, Term};
pub use print::print_script;
pub use read::read_script;
pub use script::Script;
pub use term::NamedTerm;
pub use text_lines::EditKind;
