//! A ranking is accepted exactly if it is ranked, else its first fault comes.
//!
//! A ranking is a [`RankText`]: its networks, best first, with the tree that proves that no other
//! is better. The tree is an ordinary [`branch_tree::Tree`], in which a leaf that names a network
//! is an open leaf. With the tree there is a [`Mark`] for each open leaf, in preorder. It says that
//! the leaf is open, or which network it names and how. So the code that reads, prints or judges
//! trees serves ranked trees too. Contracts see a `RankText` as the record of its parts. `Marked`
//! of `rank_rules` says which ranking it is.
//!
//! The checker trusts nobody. [`check_rank`] names the first network, or the first node in
//! preorder, that fails, and why. [`judge_networks`] judges the networks alone. The checker of
//! branch trees walks the tree, and gives the open leaves before the first node that fails. Each of
//! these is then judged by its mark.
//!
//! Modules: `mark` and `text`, the values; `networks` judges the list of networks, with their
//! `order`; `leaf` judges a leaf that names one, `marks` the open leaves, and `check` all;
//! `refusal`.
#![tactic(auto)]

mod check;
mod leaf;
mod mark;
mod marks;
mod networks;
mod order;
mod refusal;
mod text;

pub use cert_check::{End, Mixed, Network, Node, Scaled, Site, Tail, Tree, TreeNode, UnitSet};
pub use check::check_rank;
pub use mark::{Mark, Name};
pub use networks::judge_networks;
pub use rank_laws::{
    Naming, RankWhy, accepted_is_optimal, alternatives_are_right, listed_are_least,
    network_has_one_fault, others_are_no_better, ranking_has_one_fault,
};
pub use refusal::RankRefusal;
pub use text::{Asked, RankText};
