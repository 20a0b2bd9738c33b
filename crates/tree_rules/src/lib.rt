//! Claims, branch trees and their heads, which are accepted, and the one cause why another is not.
//!
//! A tree is a list of nodes in preorder. By its option and its steps each node takes units in and
//! leaves units out. Then it is branched, or ends in a leaf. A claim is a network with its cost,
//! that there is none, or nothing. [`Refusal`] is why a claim with a tree is refused, by a [`Why`].
//!
//! The head of a branch tree is lines with facts that are found before the first branch. A line
//! takes units in or leaves them out, or bounds the size of a unit or the use of a material. It
//! passes by what is known at its place, and by the cost that is claimed: what it rules out has no
//! flows that cost less. [`LineWhy`] is why a line fails, and [`HeadRefusal`] why a claim with a
//! head and a tree is refused.
//!
//! Each law of heads is the contract of a function without a body. A proof elsewhere calls the
//! function to use the law.
//!
//! In `specs/`, of trees: `Ways` to branch at a node; `Tree`, trees and when one passes; `Fault`,
//! its first fault; `Claim`, `Costs` and `Leaf`; `Accepted`, whole and partial trees; `Refusals`,
//! what a refusal says; `Lower`, below which cost no structure is; `Lean`, `Stops` and `Proved`,
//! what a search promises of its trees and when it stops; `Tail`, at which node a search stopped;
//! `Past`, when a number of a node overflows; `Known`, when the numbers of a value are below the
//! counts of a problem; `LeastFlows`, what can be said of the flows of one solution structure.
//!
//! In `specs/`, of heads: `Charged`, nodes whose charge reaches the claim; `Trim`, units of which
//! no more than so much can be of use; `Head`, the lines; `Keeps`, what is not lost; `HeadFaults`,
//! the first line that fails, and its cause; `Headed`, trees with a head, when one is accepted, and
//! what a refusal says of it; `HeadKnown`, when the numbers of a line are below the counts of a
//! problem; `HeadedProved`, when a head and a tree prove a claim as a search promises it;
//! `HeadLaws`.
#![tactic(auto)]

ghost use Rattle.tree_rules.specs.HeadLaws.{ChargedIsEmpty, CheaperIsCharged, CheaperPasses};
ghost use Rattle.tree_rules.specs.HeadLaws.{HeadKeeps, HeadHasFacts, HeadKeepsLeast};
ghost use Rattle.tree_rules.specs.HeadLaws.{PassingHasNoFault, FaultIsOne, ChargedHasNoFault};
ghost use Rattle.tree_rules.specs.HeadLaws.{ChargeFaultIsOne};

mod head_refusal;
mod line_why;
mod refusal;
mod why;

pub use flow_rules::{
    Axiom, ChargeWhy, Column, FlowStep, Place, Verdict, Which, relaxed_duality, sums_are_last,
    valid_is_proper,
};
pub use head_refusal::HeadRefusal;
pub use line_why::LineWhy;
pub use refusal::Refusal;
pub use why::Why;

/// A node that is charged what is claimed has no structure with flows that fit its facts and cost
/// less.
pub fn charged_is_empty()
    ensures { ChargedIsEmpty }
{}

/// What passes for a claim passes for each that costs no more.
pub fn cheaper_passes()
    ensures charged { CheaperIsCharged }
    ensures lines { CheaperPasses }
{}

/// Lines that pass lose nothing that costs less than what is claimed. What is known after them are
/// facts.
pub fn head_keeps()
    ensures keeps { HeadKeeps }
    ensures facts { HeadHasFacts }
    ensures least { HeadKeepsLeast }
{}

/// Lines that pass have no fault. Lines that do not pass have at most one, for one cause. The same
/// is true of a charged node.
pub fn one_fault()
    ensures passing { PassingHasNoFault }
    ensures one { FaultIsOne }
    ensures charged { ChargedHasNoFault }
    ensures charge_one { ChargeFaultIsOne }
{}
