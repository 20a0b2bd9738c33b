//! A text gives its claim, tree and tail, or exactly its first fault.
//!
//! `read_tree` reads a whole text, `read_headed` one whose tree may have a head. `read_network`,
//! `read_head`, `read_end`, `read_tail` and `read_rest` read a part of one, from a [`Cut`], a place
//! in it, on. The text is read once from front to end and stays borrowed. Only what is read takes
//! memory; a promised number of children reserves none. Texts that have other lines besides those
//! of a tree read their tokens by the same calls.
//!
//! Modules of one line: `line`, `apart` (its parts), `word`, `number`, `name`, `column` (one
//! token), `list`, `unit_list`, `column_list` (all that are left), `place`, and the lines:
//! `claim_line`, `node_line`, `steps`, `ends`, `sets`, `front_line` (the head of a tree),
//! `tail_line`. `fault_order` gives the least of several faults. Modules of a text: `cut`, `fault`,
//! `claim`, `front` (the head of a tree), `head` (a node without its end), `node`, `nodes` (the
//! tree), `tail`, `text`.
#![tactic(auto)]

mod apart;
mod claim;
mod claim_line;
mod column;
mod column_list;
mod cut;
mod ends;
mod fault;
mod fault_order;
mod front;
mod front_line;
mod head;
mod line;
mod line_fault;
mod list;
mod name;
mod node;
mod node_line;
mod nodes;
mod number;
mod opening;
mod place;
mod sets;
mod steps;
mod tail;
mod tail_line;
mod text;
mod unit_list;
mod word;

pub use apart::{LineParts, parts_of};
pub use branch_tree::{Claim, MatSet, Network, Problem, Site, Tree, UnitSet};
pub use claim::read_network;
pub use cut::{Cut, line_at};
pub use ends::end_line;
pub use fault::{TreeFault, kind_at};
pub use fault_order::lesser;
pub use head::read_head;
pub use line::{Line, first_token, next_token};
pub use line_fault::LineFault;
pub use node::read_end;
pub use number::{children_of, one_count};
pub use tail::read_tail;
pub use text::{Headed, read_headed, read_rest, read_tree};
pub use text_lines::amount;
pub use tree_text_rules::{LineWhy, TreeKind, Why};
