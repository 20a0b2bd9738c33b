//! The text PNS_rank_v1 of a ranking.
//!
//! [`print_rank`] writes the one text of a ranked tree: the networks, best first, and the tree that
//! proves that no other is better. [`read_rank`] gives the ranked tree that a text stands for, or
//! its first fault. A leaf that names a network has a line of its own, `named K D Y ..`; in a list
//! of alternatives, which has the line `distinct`, it may be `over K D Y ..`. All other lines are
//! those of a tree text. In `rank_rules`, `Spelling` has the text, `Opened` the lines of open
//! leaves, and `Read` what a text stands for. The text of a ranking reads back as the ranking, and
//! what a text stands for has no other text. [`laws`] has both laws (`specs/Laws`) as contracts of
//! functions that do nothing.
//!
//! Modules: `line`, lines that no tree text has; `print`; `front`, what a line begins with and the
//! first three lines; `networks`; `mark`, the line of an open leaf; `opening`, a tree text made of
//! the lines of tree and tail, with `open` for each line that names a network, and its marks;
//! `read`.
#![tactic(auto)]

mod front;
pub mod laws;
mod line;
mod mark;
mod networks;
mod opening;
mod print;
mod read;

pub use laws::{read_ranks_are_spelled, spelled_ranks_read};
pub use print::print_rank;
pub use rank_check::{
    Asked, Mark, RankRefusal, RankText, RankWhy, accepted_is_optimal, alternatives_are_right,
    check_rank, judge_networks, listed_are_least, others_are_no_better,
};
pub use read::{is_ranking, read_rank};
pub use tree_reading::{Headed, TreeFault, read_headed};
pub use tree_text::{Effort, Outputs, Shelf, Sink, Watch};
pub use tree_text_laws::{Claim, Graph, Head, Network, Problem, Site, Tail, Tree, Why};
