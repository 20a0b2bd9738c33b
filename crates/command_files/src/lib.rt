//! The files of a call, read and judged, and the text and status with which a command ends.
//!
//! [`problem_of`], [`plant_of`], [`edited_of`], [`plan_of`], [`tree_of`] and [`headed_of`] give
//! what the named file stands for. If it gives nothing, they put the text that says why and give
//! the status of the call. `Reading`, `Script`, `Plan`, `TreeFile` and `HeadedFile` of
//! `studio_rules` say which text that is, and what a command on such files says.
//!
//! A command ends with a status, and a text that is put line by line. `Ending` of `studio_rules`
//! says which text may be written with a status, and on which output:
//!
//! - an answer on standard output;
//! - the line that says why there is none, on standard error;
//! - a front of either, if an output failed;
//! - the first lines of an answer and the line `memory`, if memory ran out.
//!
//! The contract of each call that puts lines is in these words.
//!
//! The words of causes say why a claim, a line at the head of a tree, or a node is refused. They
//! are exact: `RefusalWords` of `studio_rules` has the word of each cause, and the lines of what is
//! refused. [`say_node`] and [`tell_node`] put the line of a node, [`say_head`] that of a line of a
//! head. [`rank_why_word`] and [`network_line`] do so of a ranking, as `RankWords` has them.
//!
//! Modules: `file`, the bytes of a file; `problem_file`, `script_file`, `plan_file` and
//! `tree_file`; `status`, the numbers of the statuses; `line`, lines of names; `outputs`, bytes on
//! one of the outputs; `say`, how lines are put; `words` and `rank_words`, the words of causes.
#![tactic(auto)]

mod file;
pub mod line;
pub mod outputs;
mod plan_file;
mod problem_file;
mod rank_words;
pub mod say;
mod script_file;
mod status;
mod tree_file;
mod words;

pub use file::bytes_of;
pub use periods::{
    Design, Plan, Run, expand, expanded_is_valid, fold, least_network_is_least_design,
    no_network_is_no_design, plans_are_short,
};
pub use plan_file::plan_of;
pub use pns_edits::{
    MigrateFault, migrate, print_script, printed_scripts_read, scripts_are_undone,
};
pub use pns_text::canonical_reads;
pub use problem_file::{plant_of, problem_of};
pub use rank_words::{network_line, rank_why_word};
pub use script_file::edited_of;
pub use status::code_of;
pub use studio_words::{
    Command, Format, Item, Notes, Scene, Source, Status, Stop, UnitNames, Warning, bad_node,
    bad_token, command_of, fault, has_payout, no_leaf, no_network, not_finished, out_of_range,
    refused, unknown_material, unknown_unit, usage,
};
pub use tree_file::{headed_of, say_tree_fault, tree_kind_word, tree_of};
pub use tree_reading::Headed;
pub use tree_text::{
    Effort, Failed, FileShelf, MemShelf, MemSink, NoWatch, OutSink, Outputs, PrintFault, Progress,
    Shelf, Sink, Watch, print_end, print_network, print_place,
};
pub use words::{line_word, say_head, say_node, tell_node, why_word};
