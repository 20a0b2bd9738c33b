//! The top call of the synthesis studio.
//!
//! [`studio`] takes words, files and two outputs. It judges the form of the words, reads and judges
//! the files that they name, does the work of the command and puts its text line by line. Its
//! contract says which text is written with which status, and on which output, from the words and
//! the bytes that the shelf has. Each status has its cause; only that memory runs out is left open.
//! The definitions of all this are in `studio_rules`.
//!
//! `studio_words` reads the words. The commands are in `searches` and in crates of their own with
//! `commands` in their names, over the files of `command_files`. Modules: `call`, which calls the
//! commands; `laws`.
#![tactic(auto)]

mod call;
mod laws;

pub use call::studio;
pub use laws::{
    alternatives_are_accepted, check_accepts_merged, check_accepts_solved, listings_join,
    parts_join, rankcheck_accepts_alternatives, rankcheck_accepts_ranked, ranked_is_accepted,
    solved_is_accepted,
};
pub use part_commands::{
    grafts_are_partial, open_leaves_stand, order_is_free, parts_are_read_once, push_six_digits,
    read_parts_are_spelled, read_texts_are_spelled, spelled_texts_read,
};
pub use stability_commands::valued_is_valid;
pub use structure_commands::{
    FileShelf, MemShelf, MemSink, NoWatch, OutSink, Outputs, Progress, Sink, Status, Watch,
    canonical_reads, claim_has_one_fault, code_of, expanded_is_valid, open_leaves_decide,
    printed_scripts_read, scripts_are_undone, tree_has_one_fault, valid_is_proper,
    valid_is_well_formed,
};
