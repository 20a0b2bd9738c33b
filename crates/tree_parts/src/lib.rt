//! Open leaves are exact; a part merges exactly if tree and part pass and its leaf is there.
//!
//! [`open_leaves`] judges a tree that may have open leaves. It gives these in preorder, each with
//! the node that its steps leave, from which a search in parts goes on. [`is_sound`] decides
//! whether a search may begin at a node. [`check_part`] judges what a run from such a node found, a
//! [`Part`], and [`merge`] puts it in the place of the open leaf. [`merge_all`] puts several parts
//! back in turn.
//!
//! The list of the open leaves has each of them with its node. A part in the place of an open leaf
//! makes one whole tree, which proves the cheaper claim of the two, and leaves the other leaves
//! open. Parts of different nodes may be put back in any order. `specs/Laws` and `specs/Order`
//! state these laws, over the definitions of `tree_rules` and `tree_text_rules`.
//!
//! The text PNS_part_v1 of a part has the node at which the part's run began, by the tokens of the
//! units taken in and of those left out. After these it has what a tree text has after its first
//! line. [`print_part`] writes the one text of a part. [`read_part`] gives the part that a text
//! stands for, or its first fault. The text of a part reads back as the part, and what a text
//! stands for has no other text. No text stands for two parts or has two first faults
//! (`specs/PartLaws`). In `tree_text_rules`, `PartSpelling` has the text, and `PartRead` what a
//! text stands for.
//!
//! Each law is the contract of a function that does nothing. A proof elsewhere calls the function
//! to use the law.
//!
//! Modules: `sound`, `open`; `part`, what a run found; `copies` of nodes and networks; `merging`;
//! `waiting`, parts that wait for their places; `splicing`, which puts them there in one pass;
//! `several`; `laws`. Modules of the text: `print`; `set`, the sets of units that tokens and lines
//! stand for; `read`; `part_laws`.
#![tactic(auto)]

mod copies;
mod laws;
mod merging;
mod open;
mod part;
pub mod part_laws;
mod print;
mod read;
mod set;
mod several;
mod sound;
mod splicing;
mod waiting;

pub use cert_check::{
    Facts, Known, OpenLeaf, accepted_is_optimal, capped_claim, capped_shape, check_claim,
    check_from, check_headed, check_tree, judge_head, judge_line, lower_bound_holds, maximal,
    print_token, rate_of, recharged_is_lean, recharged_is_tree, recharged_knows,
};
pub use copies::{copied_end, copied_network, copied_scaled};
pub use laws::{grafts_are_partial, open_leaves_stand, order_is_free, others_stay_open};
pub use merging::merge;
pub use open::{check_part, open_leaves};
pub use part::Part;
pub use part_laws::{parts_are_read_once, read_parts_are_spelled, spelled_parts_read};
pub use print::print_part;
pub use read::read_part;
pub use set::units_named;
pub use several::{PartFault, merge_all};
pub use sound::is_sound;
pub use tree_reading::{Cut, Headed, TreeFault, read_head};
pub use tree_text::{
    CostOver, Effort, FileShelf, Mixed, OutSink, Outputs, PrintFault, Shelf, Sink, Watch, bound_of,
    print_network, print_tree, read_all, sets_of,
};
pub use tree_text_laws::{
    Claim, Cover, Covers, End, Graph, Head, HeadLine, MatSet, Network, Node, OperatingUnit, Parts,
    Place, Problem, Scaled, Site, Step, Steps, Tail, Tree, TreeNode, UnitSet, generate,
    plain_texts_are_headed, read_texts_are_spelled, spelled_headed_texts_read, spelled_texts_read,
};
