//! A tree is accepted exactly if it proves its claim, else its first fault comes.
//!
//! [`check_tree`] judges a claim and its tree, and [`check_headed`] a claim and a tree with a head.
//! If they accept, no clash-free solution structure undercuts the claim. Else the refusal names the
//! claim, the line of the head, or the first node in preorder, that fails, and there the first
//! cause of the table of causes. [`check_claim`] judges a claim alone, [`check_from`] also partial
//! trees from any start. [`check_nodes`] judges the nodes alone, for callers that judge open leaves
//! by further rules. The last two give the open leaves. The checker trusts nobody: it shares with
//! the search only the sets, the graph and the sums of flows, which have proofs of their own.
//!
//! The parts of a claim and its tree are judged one by one, over problems and graphs alone: a
//! network, a step at a node and the node that it leaves, the options of a branch, and each leaf.
//! No judgement depends on how a tree is found. Each is exact: what passes is what the definitions
//! of `tree_rules` let pass, and a refusal is the first line of their table that fails, with its
//! cause. No judgement needs numbers that the problem has: whatever uses another number fails.
//!
//! [`judge_head`] judges the lines of a head in order, from the node at which nothing is decided.
//! It gives what is [`Known`] after them: a node, and facts of sizes and uses. If a line fails, it
//! gives the first that does, counted from 0, and why. [`judge_line`] judges one line by what is
//! known at its place, also for those who look for lines. A charge is formed anew, a step is judged
//! as in a tree, and what can be of use of a unit is computed. Each is exact, by the definitions of
//! `tree_rules`.
//!
//! No call that judges one part or a head takes memory. A walk over a tree keeps a list of the
//! nodes that are left, and has no recursion. So a tree of any depth costs its steps, one judgement
//! for each leaf, and a few numbers for each node.
//!
//! Modules of trees: `claim` judges claims, `leaf` leaves; `subtrees` finds the ends of subtrees,
//! `children` puts children on the stack; `visit` is one node, `walk` all, `open_leaf` what is
//! still open; `check` and `headed` are the calls.
//!
//! Modules of parts: `sets` and `materials` are tests of sets and what a node needs; `steps` which
//! steps are possible; `nodes` the nodes that steps and options leave, `options` whether given sets
//! are all options of a material: they can be as many as 2^128, so their list is walked and never
//! made; `either` branches in two at one unit; `network` and `leaves` judge claims and leaves, and
//! `charge` what charges a node, with facts that are known of sizes.
//!
//! Modules of heads: `known`; `charged` forms the charge of a line, `sizes` tests the size of a
//! cap, `uses` the amount of a use, `trim` computes what can be of use; `line` judges one line, and
//! `head` all of them.
#![tactic(auto)]

mod charge;
mod charged;
mod check;
mod children;
mod claim;
mod either;
mod head;
mod headed;
mod known;
mod leaf;
mod leaves;
mod line;
mod materials;
mod network;
mod nodes;
mod open_leaf;
mod options;
mod sets;
mod sizes;
mod steps;
mod subtrees;
mod trim;
mod uses;
mod visit;
mod walk;

pub use branch_tree::{End, Network, Scaled, Steps, Tail, Tree, TreeNode};
pub use charge::judge_charge;
pub use charges::{
    CostOver, Exclusion, Facts, Frac, Graph, Kind, MatSet, Material, Mixed, Node, NodeSets,
    OpenFault, OperatingUnit, Problem, Site, StructureList, Term, UnitSet, by_material,
    checked_product, generate, maximal, print_token, put_rates, rate_of, read_token, sets_of,
    unit_numbers,
};
pub use check::{check_from, check_nodes, check_tree};
pub use claim::check_claim;
pub use either::{are_options_of_unit, with_unit, without_unit};
pub use head::{HeadFault, judge_head};
pub use headed::check_headed;
pub use known::Known;
pub use leaves::{judge_bound, judge_clash, judge_dead, judge_low, judge_open, judge_refutation};
pub use line::judge_line;
pub use network::judge_network;
pub use nodes::{after_steps, are_all_options, child};
pub use open_leaf::OpenLeaf;
pub use tree_laws::{
    accepted_by_has_flows, accepted_by_is_optimal, accepted_is_optimal, capped_claim, capped_shape,
    claim_has_one_fault, empty_head_is_none, lower_bound_holds, open_leaves_decide,
    recharged_is_lean, recharged_is_tree, recharged_knows, tree_has_one_fault,
    tree_has_one_fault_by,
};
pub use tree_text_rules::{
    Axiom, HeadRefusal, Section, Verdict, one_fault, valid_is_proper, valid_is_well_formed,
};
pub use walk::Stop;
