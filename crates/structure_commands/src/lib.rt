//! The commands on a plant, its structures and its flows: what each prints, and with which status.
//!
//! - `max` prints the maximal structure, `axioms` whether named units are a solution structure, and
//!   `list` the clash-free solution structures.
//! - `lint` prints what looks odd in a plant.
//! - `edit` applies a script, `undo` prints the script that leads back, `migrate` turns yearly
//!   costs into investments, and `make` prints a problem out of numbers.
//! - `flows` prints least flows of named units with multipliers that prove them, and `check`
//!   whether a tree proves its claim.
//!
//! All but `make` read the problem of a file. The contract of each says which text is printed with
//! which status. What it prints is in a file of `studio_rules`: `Max`, `Axioms`, `Listing`, `Lint`,
//! `Edits`, `Migrate`, `Make`, `Flows` or `Check`. `Best` says what it means that a tree is
//! accepted. `specs/ListingLaws` says that a listing may be printed in parts.
//!
//! [`lint_text`] gives the warnings of a plant: exactly those of `report_rules`, in the order of
//! its lines. It goes once over the lines of a text that have a meaning (`line`), asks which item
//! of the problem a line is of (`item`), tries each kind of warning at it (`plant`, by the tests of
//! `material`, `unit` and `exclusion`), and appends two lines for each that is due (`text`,
//! `words`).
//!
//! Modules: `max`, `axioms`, `list`, `edits` (`edit` and `undo`), `migrate`, `make`, `flows` and
//! `check`, the commands; `command`, the command `lint`; `line`, `item`, `plant`, `material`,
//! `unit`, `exclusion`, `text` and `words`, its warnings.
#![tactic(auto)]

pub mod axioms;
pub mod check;
mod command;
pub mod edits;
mod exclusion;
pub mod flows;
mod item;
mod line;
pub mod list;
pub mod make;
mod material;
pub mod max;
pub mod migrate;
mod plant;
mod text;
mod unit;
mod words;

pub use cert_check::{
    claim_has_one_fault, empty_head_is_none, one_fault, open_leaves_decide, tree_has_one_fault,
    tree_has_one_fault_by, valid_is_proper, valid_is_well_formed,
};
pub use command::lint;
pub use command_files::{
    Command, Effort, Failed, FileShelf, MemShelf, MemSink, NoWatch, OutSink, Outputs, Progress,
    Shelf, Sink, Status, Watch, canonical_reads, code_of, command_of, expanded_is_valid,
    printed_scripts_read, say, scripts_are_undone, usage,
};
pub use text::lint_text;
