//! An accepted tree, with a head or not, proves its claim; a partial one but for open leaves.
//!
//! No clash-free solution structure undercuts an accepted claim, and what is claimed has flows.
//! Other laws say how many nodes a lean tree has at most, and that a tree passes or has one first
//! fault, never both. They are the same for each way to branch, since the families of the children
//! split the family of their node.
//!
//! The lines of a head bound sizes and leave units out, and the tree is judged with what they say.
//! What the head rules out costs no less than what is claimed. So the claim is not undercut by a
//! structure that the head rules out either. A tree without a head is one whose head has no lines.
//!
//! A capped plant is the plant but for the greatest sizes of units, and none is greater than it
//! was. A node's relaxed flows of the capped plant are relaxed flows of the plant, and cost no more
//! there. So a whole tree that is lean for the one is lean for the other. A leaf that is refuted,
//! or has a bound, is made one that charges its node by the same multipliers: then the facts of a
//! head can take the place of the smaller sizes.
//!
//! Each law is the contract of a function without a body. A proof elsewhere calls the function to
//! use the law. In `specs/`, `Laws` has the laws of trees, over the definitions of `tree_rules`,
//! `HeadLaws` those of trees with a head, over `tree_rules`, and `CappingLaws` those of capped
//! plants; `Capped` and `Recharged` define what the last ones speak of. The lemmas in `proofs/` are
//! over any leaves: `P` says which pass, and `F` for which cause one fails (`AreLeafRules`).
//!
//! Modules: `ways` (children), `leaves` (open ones), `accepted`, `lean`, `faults`; `capped` and
//! `recharged` (capped plants). The laws of trees with a head are below.
#![tactic(auto)]

ghost use Rattle.tree_laws.specs.HeadLaws.{EmptyHeadProves, EmptyHeadFails, AcceptedByIsLeast};
ghost use Rattle.tree_laws.specs.HeadLaws.{AcceptedByIsOptimal, AcceptedByHasFlows};
ghost use Rattle.tree_laws.specs.HeadLaws.{PartialByIsLeast, PartialByIsLeastOfAll};
ghost use Rattle.tree_laws.specs.HeadLaws.{AcceptedByIsPartialBy, PartialByIsAcceptedBy};
ghost use Rattle.tree_laws.specs.HeadLaws.{LeavesHaveRulesBy, PassingTreeHasNoFaultBy};
ghost use Rattle.tree_laws.specs.HeadLaws.{TreeHasOneFaultBy};

mod accepted;
mod capped;
mod faults;
mod lean;
mod leaves;
mod recharged;
mod ways;

pub use accepted::{accepted_has_flows, accepted_is_least, accepted_is_optimal};
pub use capped::{capped_claim, capped_shape};
pub use faults::{claim_has_one_fault, leaf_has_one_fault, tree_has_one_fault};
pub use lean::lean_is_small;
pub use leaves::{leaves_cover, lower_bound_holds, open_leaves_decide, partial_is_least};
pub use recharged::{recharged_is_lean, recharged_is_tree, recharged_knows};
pub use ways::{children_are_many, children_at_a_unit, children_part_families};

/// A head without lines is as none: the same trees pass, and the others have the same first fault.
pub fn empty_head_is_none()
    ensures proves { EmptyHeadProves }
    ensures fails { EmptyHeadFails }
{}

/// Each clash-free solution structure of the start costs at least what an accepted tree claims,
/// with any flows. If the claim is that no network has flows, it has none.
pub fn accepted_by_is_least()
    ensures { AcceptedByIsLeast }
{}

/// If the tree begins at the node that its head leaves, this is true of each clash-free solution
/// structure of the problem.
pub fn accepted_by_is_optimal()
    ensures { AcceptedByIsOptimal }
{}

/// What an accepted tree claims is a clash-free solution structure with flows of the claimed cost.
pub fn accepted_by_has_flows()
    ensures { AcceptedByHasFlows }
{}

/// Each clash-free solution structure of the start that no open leaf has costs at least what a
/// partial tree claims, with any flows. If the tree begins at the node that its head leaves, this
/// is true of each clash-free solution structure of the problem.
pub fn partial_by_is_least()
    ensures start { PartialByIsLeast }
    ensures all { PartialByIsLeastOfAll }
{}

/// A partial tree that claims something is accepted exactly if no leaf is open.
pub fn open_leaves_decide_by()
    ensures whole { AcceptedByIsPartialBy }
    ensures closed { PartialByIsAcceptedBy }
{}

/// A leaf or tree that passes has no fault, and one that does not has one, for one cause.
pub fn tree_has_one_fault_by()
    ensures leaves { LeavesHaveRulesBy }
    ensures passes { PassingTreeHasNoFaultBy }
    ensures one { TreeHasOneFaultBy }
{}
