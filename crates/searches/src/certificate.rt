//! What a search found, as a text of a claim, a tree and a tail.
ghost use Rattle.std.specs.Prelude.{◌≡◌, ◌≤◌, ◌<◌, ◌^◌, ℕ, Ok, length};
ghost use Rattle.tree_text.specs.tree_rules.Known.{KnowsClaim, KnowsTree, KnowsTail};
ghost use Rattle.tree_text.specs.branch_tree.View.{claim_of, tail_of};
ghost use Rattle.tree_text.specs.tree_rules.Accepted.{first_node};
ghost use Rattle.tree_text.specs.tree_text_rules.Read.{read_text};
ghost use Rattle.tree_text.specs.tree_text_rules.Spelling.{tree_text, tree_text_lines};
ghost use Rattle.tree_text.specs.Prints.{Prints};
ghost use Rattle.headed_search.specs.tree_text_laws.Fits.{CountsTail, KeepsClaim};
ghost use Rattle.headed_search.specs.tree_text_laws.LineFits.{CountsPlace};
ghost use Rattle.headed_search.specs.node_evaluation.Children.{claim_with};
ghost use Rattle.headed_search.specs.abb_search.Found.{IsFound};
ghost use Rattle.command_files.specs.studio_rules.Ending.{Ends, Tells};
ghost use Rattle.command_files.specs.studio_rules.Solve.{status_of};
ghost use Rattle.searches.specs.Found.{certificate_of, CertificateSays, FoundSays};

use crate::stopped::{claimed, stopped_notes};
use command_files::Status;
use command_files::say::{say_memory, say_searched};
use headed_search::{
    Claim, Found, Network, Outputs, Place, Problem, Sink, Tail, Tree, spelled_texts_read,
};
use std::alloc::Global;
use std::marker::Model;
use tree_text::{PrintFault, print_tree};

/// What is claimed, the tree, and a tail that says at which node the search stopped, if it did.
#[derive(Drop)]
pub struct Certificate {
    claim: Claim,
    tree: Tree,
    tail: Tail,
}

impl Model for Certificate {
    ghost use Rattle.tree_text.specs.tree_text_rules.Read as rules;
    ghost use Rattle.tree_text.specs.branch_tree.View.{claim_of, tail_of};

    ghost Value = { rules.Certificate };

    ghost view = { λ c. record { claim = claim_of c.claim; tree = c.tree; tail = tail_of c.tail } };
}

/// The claim of the cheapest network that was found so far.
fn claim_with(best: Option<Network>) -> Claim
    ensures { claim_of result ≡ claim_with best }
{
    match best {
        Some(network) => Claim::Network(network),
        None => Claim::Unknown,
    }
}

/// What was found, as it is printed. It is `None` if and only if there was no memory for the
/// search.
pub fn certificate_of(found: Found) -> Option<Certificate>
    ensures { result ≡ certificate_of found }
{
    match found {
        Found::Solved { network, tree } => Some(Certificate {
            claim: Claim::Network(network),
            tree,
            tail: Tail::Whole,
        }),
        Found::Infeasible { tree } => Some(Certificate {
            claim: Claim::Infeasible,
            tree,
            tail: Tail::Whole,
        }),
        Found::Spent {
            best,
            tree,
            next,
            options,
        } => Some(Certificate {
            claim: claim_with(best),
            tree,
            tail: Tail::Spent { next, options },
        }),
        Found::Past {
            best,
            tree,
            node,
            nonbasic,
            place,
        } => Some(Certificate {
            claim: claim_with(best),
            tree,
            tail: Tail::Past {
                node,
                nonbasic,
                place,
            },
        }),
        Found::Memory => None,
    }
}

/// The status with which a text of this tail is printed.
pub fn status_of(tail: &Tail) -> Status
    ensures { result ≡ status_of (tail_of tail.now) }
{
    match tail {
        Tail::Whole => Status::Done,
        Tail::Spent { .. } => Status::Spent,
        Tail::Past { .. } => Status::Past,
    }
}

// The step of a place is a number that a line can have. A call shows this to a proof, and does
// nothing.
fn place_is_counted(place: &Place)
    ensures { CountsPlace place.now }
{
    match place {
        Place::Entry { .. } | Place::Flow { .. } => {}
        Place::Cost { at }
        | Place::FlowSum { at }
        | Place::Bound { at }
        | Place::Refute { at, .. } => {
            let _at = *at;
        }
    }
}

/// The numbers of a tail are such that a line can have them. A call shows this to a proof, and does
/// nothing.
pub fn tail_is_counted(tail: &Tail)
    ensures { CountsTail (tail_of tail.now) }
{
    match tail {
        Tail::Whole => {}
        Tail::Spent { next, options } => {
            let _next = *next;
            let _options = *options;
        }
        Tail::Past { node, place, .. } => {
            let _node = *node;
            place_is_counted(place);
        }
    }
}

// The network of a claim is sized, and its numbers are in range. A call shows this to a proof, and
// does nothing.
fn claim_is_kept(claim: &Claim)
    ensures { KeepsClaim (claim_of claim.now) }
{
    match claim {
        Claim::Network(network) => network.is_sized(),
        Claim::Infeasible | Claim::Unknown => {}
    }
}

impl Certificate {
    /// The claim, the tree and the tail.
    pub fn into_parts(self) -> (Claim, Tree, Tail)
        ensures claim { claim_of result.0 ≡ self.claim }
        ensures tree { result.1 ≡ self.tree }
        ensures tail { tail_of result.2 ≡ self.tail }
    {
        (self.claim, self.tree, self.tail)
    }

    /// The text of a certificate reads back as it. A call shows this to a proof, and does nothing.
    pub fn reads_back(&self, problem: &Problem)
        requires claim { KnowsClaim problem.now self.now.claim }
        requires tree { KnowsTree problem.now self.now.tree }
        requires tail { KnowsTail problem.now self.now.tail }
        requires few { length self.now.tree < 2 ^ 32 }
        ensures { read_text problem.now
            (tree_text problem.now self.now.claim self.now.tree self.now.tail) ≡ Ok self.now }
    {
        problem.is_valid();
        self.tree.is_tree();
        claim_is_kept(&self.claim);
        tail_is_counted(&self.tail);
        spelled_texts_read();
    }

    /// The status with which the certificate is printed.
    pub fn status(&self) -> Status
        ensures { result ≡ status_of self.now.tail }
    {
        status_of(&self.tail)
    }

    /// Prints the certificate.
    pub fn print<K: Sink>(
        &self,
        alloc: Global,
        problem: &Problem,
        out: &mut K,
    ) -> Result<(), PrintFault>
        requires claim { KnowsClaim problem.now self.now.claim }
        requires tree { KnowsTree problem.now self.now.tree }
        requires tail { KnowsTail problem.now self.now.tail }
        ensures prints { Prints
            (tree_text_lines problem.now self.now.claim self.now.tree self.now.tail)
            (K.state out.old) (K.state out.new) result }
        ensures later { (K.state out.old).faults ≤ (K.state out.new).faults }
    {
        print_tree(alloc, problem, &self.claim, &self.tree, &self.tail, out)
    }

    /// Prints the certificate. The status is that of its tail, so it says why the search stopped.
    pub(crate) fn say<K: Sink, E: Sink>(
        &self,
        alloc: Global,
        out: &mut Outputs<K, E>,
        problem: &Problem,
        budget: u64,
    ) -> Status
        requires claim { KnowsClaim problem.now self.now.claim }
        requires tree { KnowsTree problem.now self.now.tree }
        requires tail { KnowsTail problem.now self.now.tail }
        requires few { length self.now.tree < 2 ^ 32 }
        ensures { Ends (Tells (CertificateSays problem.now self.now)) out.old out.new result }
    {
        self.reads_back(problem);
        let printed = print_tree(
            alloc,
            problem,
            &self.claim,
            &self.tree,
            &self.tail,
            &mut out.out,
        );
        let best = claimed(&self.claim);
        let notes = stopped_notes(alloc, problem, best, &self.tail, budget);
        say_searched(out, printed, notes.bytes(), status_of(&self.tail))
    }
}

/// Prints what a search with this budget found.
pub fn say_found<K: Sink, E: Sink>(
    alloc: Global,
    out: &mut Outputs<K, E>,
    problem: &Problem,
    found: Found,
    budget: u64,
) -> Status
    requires { (budget : ℕ) × IsFound problem.now first_node budget found }
    ensures { Ends (Tells (FoundSays problem.now found)) out.old out.new result }
{
    match certificate_of(found) {
        Some(certificate) => certificate.say(alloc, out, problem, budget),
        None => say_memory(out),
    }
}
