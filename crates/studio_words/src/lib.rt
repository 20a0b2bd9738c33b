//! The words of a call and their command, the help pages, and the second lines of refusals.
//!
//! [`command_of`] gives a command exactly if the words have a form. `Command` of `studio_rules` has
//! the forms, and the ranges of a command's numbers.
//!
//! Help is what the program says of itself: the commands on one screen, a page on each command and
//! on the statuses, its version. The texts are constants of `studio_rules`, which its definitions
//! and this crate take. A new command gets an entry in `COMMAND_PAGES` there, and a line in
//! `OVERVIEW`. `tools/help write` then writes the manual page and the completions anew, and says
//! what does not agree.
//!
//! Second lines follow the first line of a refusal, for people: what was wrong, in which place, and
//! how to mend it. [`Notes`] has the lines. Contracts promise their shape, `Seconds` of
//! `studio_rules`: they are printable, after two blanks. Their wording has no clause, and no caller
//! decides by it. If memory is refused, a note is left out, and the call goes on.
//!
//! Modules of words: `command`, the commands; `file_words`, words that are files; `merging`, the
//! words of `merge`; `unit_names`, the word UNITS; `number`, numbers in words.
//!
//! Modules of help: `overview`; `pages`, the page on each topic.
//!
//! Modules of second lines: `notes`, the lines; `cut`, pieces of a text; `nearest`, the known word
//! that is nearest to another; `form`, the form of a command and the first word that does not fit
//! it; `call_words`, `faults` and `reasons`, what is said of words, of a text with a fault, and of
//! the other refusals.
#![tactic(auto)]

mod call_words;
mod command;
mod cut;
mod faults;
mod file_words;
mod form;
mod merging;
mod nearest;
mod notes;
mod number;
mod overview;
mod pages;
mod reasons;
mod unit_names;

pub use call_words::usage;
pub use command::{Command, command_of};
pub use faults::{Format, Source, fault};
pub use notes::{Notes, Piece};
pub use overview::{overview_text, version_text};
pub use pages::{command_page_on, page_on};
pub use reasons::{
    Stop, bad_node, bad_token, has_payout, no_leaf, no_network, not_finished, out_of_range,
    read_fault, refused, too_long, unknown_material, unknown_unit,
};
pub use studio_rules::{Item, RankWhy, Scene, Status, Warning};
pub use unit_names::UnitNames;
