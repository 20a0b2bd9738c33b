//! The commands of a search in parts: `split`, `part` and `merge`.
//!
//! [`split::split`] lists the open leaves of a tree. A run of its own may search the structures of
//! each of them: [`part::part`] prints what it finds as the text of a part, and
//! [`part::part_against`] begins the search with a network that is known. [`merge::merge`] puts
//! back what such runs found.
//!
//! In `studio_rules`, `Split`, `Part` and `Merge` say which lines are printed with which status,
//! `Start` which words name a node, and `PartFile` what is printed of the files of parts.
//!
//! Modules: `split`; `start`, the node at which a run begins; `found`, the part that a search
//! found; `part`; `part_file`, which reads parts; `merge`.
#![tactic(auto)]

mod found;
pub mod merge;
pub mod part;
mod part_file;
pub mod split;
mod start;

pub use network_commands::{
    grafts_are_partial, graph, network_has_one_fault, open_leaves_stand, order_is_free,
    parts_are_read_once, plain_texts_are_headed, push_six_digits, ranking_has_one_fault,
    read_parts_are_spelled, read_texts_are_spelled, spelled_texts_read, table,
};
pub use searches::{expansion, planned, solve, trial};
