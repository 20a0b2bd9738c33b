//! Lines, names, terms and numbers are read exactly by the grammar.
//!
//! The grammar is that of `text_rules`, or of `edit_rules` for what only the other texts have,
//! and each call answers in its words. All that a call hands out borrows from the text.
//!
//! `lines` reads a text line by line, `line` gives what is before and after a mark in a line, and
//! `section` the headers and their sections. `field` has the items of a line, with keys and values,
//! `term` the terms of a line of rates, and `token` the tokens. `words` looks a word up in a table,
//! `name` tests names, and `name_set` has the names that were seen. `amount` and `whole_number`
//! read numbers, and `fault` is what the readers of texts report.
#![tactic(auto)]

pub mod amount;
pub mod fault;
pub mod field;
pub mod line;
pub mod lines;
pub mod name;
pub mod name_set;
pub mod section;
pub mod term;
pub mod token;
pub mod whole_number;
pub mod words;

pub use edit_rules::{EditKind, Section, TextKind, Word};
pub use text_laws::{canonical_reads, read_is_valid};
