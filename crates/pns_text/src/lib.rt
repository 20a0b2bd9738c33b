//! A text gives its problem, or exactly its first fault.
//!
//! `read_problem` gives the problem that a problem text stands for, or the first fault with its
//! line and kind. `read_amount` gives one number in millionths.
//!
//! The first pass goes over the bytes (`walk`). It judges the form of each line by what was seen
//! before it (`seen`, and a module for the lines of each section). It keeps the lines that have a
//! meaning, each split once (`cut`, `item`) and borrowed from the text. The second pass judges the
//! meaning of these lines, with defaults filled in (`meaning`), and makes the parts of the problem
//! (`value`). A kept line is well formed by its type, so the second pass meets no fault of form.
#![tactic(auto)]

mod cut;
mod default_line;
mod exclusion_line;
mod fault;
mod item;
mod material_line;
mod meaning;
mod rates_line;
mod read;
mod seen;
mod settings;
mod unit_line;
mod value;
mod walk;

pub use fault::TextFault;
pub use pns_problem::{Material, OperatingUnit, Problem};
pub use read::read_problem;
pub use text_lines::amount::read_amount;
pub use text_lines::{TextKind, canonical_reads, line};
