//! What a branch tree proves of its claim or of its ranking, and which lower bound it gives.
//!
//! A tree proves all of its claim, all but its open leaves, or nothing. `Verdict` of `report_rules`
//! says when a verdict is the one of a claim and its tree. If the claim passes, [`verdict_of`]
//! gives this verdict. It is `Proved` if and only if the tree is accepted. [`headed_verdict_of`]
//! does the same for a tree with a head, by `HeadedVerdict`, and [`low_of`] gives the lower bound
//! of a tree alone.
//!
//! The tree of a ranking proves all of it, or it stops at a node. `RankVerdict` of `report_rules`
//! says when a verdict is the one of a ranking. If each network passes, [`rank_verdict_of`] gives
//! this verdict. It is `Proved` if and only if `rankcheck` accepts the ranking. If a node is open
//! it has the lower bound: the ranking is made an ordinary tree (`RankLow`), and the bound is that
//! of this tree.
//!
//! Modules: `verdict`; `headed`; `lower`, the lower bound of a tree with open leaves; `low`, the
//! same of a tree that is judged for it; `rank_verdict`; `plain`, a ranking as an ordinary tree;
//! `rank_low`, the lower bound of a ranking.
#![tactic(auto)]

mod headed;
mod low;
mod lower;
mod plain;
mod rank_low;
mod rank_verdict;
mod verdict;

pub use headed::{headed_verdict_of, is_plain};
pub use low::low_of;
pub use rank_check::{network_has_one_fault, ranking_has_one_fault};
pub use rank_verdict::{RankUnjudged, rank_verdict_of};
pub use report_rules::{
    HeadedVerdict, LineWhy, LowerBound, MergeFault, Refusal, TreeKind, Verdict, Why,
};
pub use tree_parts::{
    Claim, Effort, Graph, Head, Headed, Network, Node, OpenLeaf, Outputs, Part, PrintFault,
    Problem, Shelf, Sink, Site, Tail, Tree, TreeFault, UnitSet, Watch, check_claim,
    grafts_are_partial, is_sound, maximal, merge_all, open_leaves, open_leaves_stand,
    order_is_free, parts_are_read_once, plain_texts_are_headed, print_network, print_part,
    print_token, print_tree, read_part, read_parts_are_spelled, read_texts_are_spelled,
    spelled_parts_read, spelled_texts_read, units_named,
};
pub use verdict::{Unjudged, verdict_of};
