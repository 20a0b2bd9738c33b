//! The commands `table`, `graph` and `report` judge the claim; `report` says `PROVED` exactly if
//! `check` accepts.
//!
//! Each reads a problem, and all but `graph FILE` read a tree, too. They print the network of its
//! claim, and `graph` the graph that it lies in. `table` and `graph` judge the lines of the claim
//! alone. `report` judges the nodes too, and prints what they prove. The contract of each says
//! which text is printed with which status. In `studio_rules`, `Network` has what all of them print
//! of a claim that is refused, and `Table`, `Graph` and `Report` have the texts.
//!
//! Modules: `claim`, which gives the network of a claim or refuses it; `network`, the text of the
//! network of a claim; `table` and `graph`; `report`, the report of a tree; `verdict_lines`, its
//! text, and `headed`, that of a tree that may have a head. For `report`, and for `graph` with a
//! tree, `report_commands` reads the files.
#![tactic(auto)]

mod claim;
pub mod graph;
mod headed;
mod network;
mod report;
pub mod table;
mod verdict_lines;

pub use claim::{network_of, say_refused};
pub use command_files::{
    Format, Notes, Scene, Source, Status, bad_node, bytes_of, fault, headed_of, line_word,
    network_line, no_leaf, outputs, plant_of, problem_of, rank_why_word, refused, say,
    say_tree_fault, tell_node, tree_kind_word, tree_of, unknown_material, unknown_unit, why_word,
};
pub use graph::list_graph;
pub use headed::{headed_report_text, report_text_by};
pub use network::{NetworkText, say_claimed};
pub use report::say_reported;
pub use report_tables::{Row, materials_in, push_six_digits, push_table, push_words};
pub use verdict_lines::{push_gap_behind, push_low_words, verdict_text};
pub use verdicts::{
    Claim, Effort, Graph, Headed, MergeFault, Network, Node, OpenLeaf, Outputs, Part, PrintFault,
    Problem, RankUnjudged, Refusal, Shelf, Sink, Site, Tail, Tree, TreeFault, TreeKind, UnitSet,
    Unjudged, Watch, Why, grafts_are_partial, headed_verdict_of, is_plain, is_sound, merge_all,
    network_has_one_fault, open_leaves, open_leaves_stand, order_is_free, parts_are_read_once,
    plain_texts_are_headed, print_network, print_part, print_token, print_tree, rank_verdict_of,
    ranking_has_one_fault, read_part, read_parts_are_spelled, read_texts_are_spelled,
    spelled_parts_read, spelled_texts_read, units_named, verdict_of,
};
