//! What a ranked tree is, and why another tree is not one.
//!
//! It is a list of networks in rising order of cost, with one branch tree that proves that no other
//! structure is better. Its leaves are those of any branch tree, or name one of the networks. At
//! such a leaf no unit is free, and the units that are taken in are exactly those of the network.
//!
//! A list of alternatives is a ranking in which no network is another with something idle. Its tree
//! may leave out what contains a listed network and costs no less. Such a leaf names the network
//! too; its units are all taken in, and others may be free.
//!
//! The definitions are in `specs/`, over those of `tree_rules`: `Networks` (the list, its order and
//! its first fault), `Leaf` (the leaves, which pass and why one fails) and `Ranked` (whole and
//! partial ranked trees, and their first fault). `Alternatives` says of structures alone when a
//! list of alternatives is right. Their laws are those of `rank_laws`.
//!
//! The text PNS_rank_v1 of a ranking is that of an ordinary tree with a mark for each open leaf.
//! `Marked` and `Text` have what it says, `Spelling` the one text of a ranking, `Opened` the lines
//! of open leaves, and `Read` what a text stands for.
#![tactic(auto)]

mod naming;
mod why;

pub use naming::Naming;
pub use tree_text_rules::{
    HeadRefusal, LineWhy, MergeFault, Place, Refusal, TreeKind, Why, sums_are_last, valid_is_proper,
};
pub use why::RankWhy;
