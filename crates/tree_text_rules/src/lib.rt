//! The texts of branch trees and of their parts, and how a part is put back, as definitions.
//!
//! The text of a tree has the format PNS_tree_v1. A text without a fault stands for a claim, a tree
//! and a tail, and each of these has one text. In `specs/`: `Line` (lines, tokens, first words);
//! `Spelling` (the lines of each value, and the whole text); `Token` (what a token stands for at
//! its place); `LineRead` (what a line stands for); and `Read`. There `read_text` gives what a text
//! stands for, or its first fault with its line, and other definitions do the same for parts of a
//! text. `read_headed_text` reads a text in which the lines of a head may come before the first
//! node. `proofs/` reads and spells small texts by computation.
//!
//! A part is a tree for the node of an open leaf, which is put in the leaf's place. `OpenLeaves`
//! has the open leaves of a tree in preorder, `Graft` the tree and the claim when a part is put
//! back, and `Part` what a run from a node found. `Merge` and `Several` say what is answered if one
//! part, or several, are put back; [`MergeFault`] is why one is not. `PartSpelling` has the one
//! text PNS_part_v1 of a part, and `PartRead` what a text stands for. The laws of parts are in
//! `tree_parts`.
#![tactic(auto)]

mod merge_fault;

pub use edit_rules::{Section, valid_is_well_formed};
pub use merge_fault::MergeFault;
pub use tree_rules::{
    Axiom, ChargeWhy, Column, FlowStep, HeadRefusal, LineWhy, Place, Refusal, Verdict, Which, Why,
    one_fault, sums_are_last, valid_is_proper,
};

/// A fault of a tree's text. The variants are in the order of their numbers, 1 to 9. The least line
/// that has a fault is reported, and of its faults the one with the least number. But `MoreNodes`
/// and `FewerNodes` come before `BadLine`.
#[derive(Clone, Copy, Debug, PartialEq, Eq)]
pub enum TreeKind {
    /// The first line is another text than `file_type=PNS_tree_v1`, or is missing.
    FileType,
    /// A line that is none of the forms that may come there, or a missing line. After the line of a
    /// charge, a cap, a unit that is left out or a use a million sets may come.
    BadLine,
    /// A name that the problem does not have.
    UnknownName,
    /// A text in a number's place that is no number, or one out of its range.
    BadNumber,
    /// Names of one set that do not rise in file order.
    Order,
    /// More or fewer sizes than units.
    WrongCount,
    /// A node's line where a line of the tail must come.
    MoreNodes,
    /// A line of the tail in the place of a node's line.
    FewerNodes,
    /// A byte after the last line.
    AfterEnd,
}

/// The first word of a line.
#[derive(Clone, Copy, Debug, PartialEq, Eq)]
pub enum Word {
    Network,
    Sizes,
    Cost,
    Infeasible,
    Unknown,
    Node,
    Raw,
    Rival,
    Starve,
    Loose,
    Sole,
    Dead,
    Clash,
    Refuted,
    Bound,
    Charge,
    SomeOf,
    With,
    Branch,
    Either,
    Open,
    Cap,
    Out,
    Trim,
    Use,
    Spent,
    Past,
    Nonbasic,
    Place,
    End,
}
