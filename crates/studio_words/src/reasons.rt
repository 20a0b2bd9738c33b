//! What follows the other refusals.

use crate::nearest::Nearest;
use crate::notes::{Notes, Piece};
use pns_problem::Problem;
use std::alloc::Global;
use studio_rules::Why;

// One line.
fn note(alloc: Global, pieces: &[Piece<'_>]) -> Notes {
    let mut notes = Notes::new(alloc);
    notes.add(pieces);
    notes
}

/// What follows `read fault`.
pub fn read_fault(alloc: Global, name: &str) -> Notes {
    let name = Piece::Foreign(name.as_bytes());
    let why = Piece::Own(" cannot be read: is it there, and is it a file?");
    note(alloc, &[name, why])
}

/// What follows `too long`, of a file that may have so many bytes.
pub fn too_long(alloc: Global, name: &str, limit: u64) -> Notes {
    let name = Piece::Foreign(name.as_bytes());
    let most = Piece::Number(limit);
    note(
        alloc,
        &[
            name,
            Piece::Own(" has more than "),
            most,
            Piece::Own(" bytes"),
        ],
    )
}

/// What follows `bad token`.
pub fn bad_token(alloc: Global, word: &str) -> Notes {
    let word = Piece::Foreign(word.as_bytes());
    let mut notes = note(
        alloc,
        &[
            word,
            Piece::Own(" is no token of a structure of this plant"),
        ],
    );
    notes.add(&[Piece::Own(
        "AFTER is start, or the token of a line that list printed for the same plant",
    )]);
    notes
}

fn add_nearest(notes: &mut Notes, nearest: Option<&str>) {
    match nearest {
        Some(name) => notes.add(&[
            Piece::Own("did you mean: "),
            Piece::Foreign(name.as_bytes()),
        ]),
        None => notes.add(&[Piece::Own(
            "small and capital letters differ; pns max lists the names",
        )]),
    }
}

/// What follows `unknown name`, of a word that has to be a material.
pub fn unknown_material(alloc: Global, problem: &Problem, word: &str) -> Notes {
    let mut nearest = Nearest::to(word);
    for material in problem.materials() {
        nearest.offer(alloc, &material.name);
    }
    let found = Piece::Foreign(word.as_bytes());
    let mut notes = note(alloc, &[found, Piece::Own(" is no material of the plant")]);
    add_nearest(&mut notes, nearest.word());
    notes
}

/// The same of a word that has to be a unit.
pub fn unknown_unit(alloc: Global, problem: &Problem, word: &str) -> Notes {
    let mut nearest = Nearest::to(word);
    for unit in problem.units() {
        nearest.offer(alloc, &unit.name);
    }
    let found = Piece::Foreign(word.as_bytes());
    let mut notes = note(alloc, &[found, Piece::Own(" is no unit of the plant")]);
    add_nearest(&mut notes, nearest.word());
    notes
}

/// What follows `bad node`.
pub fn bad_node(alloc: Global) -> Notes {
    note(
        alloc,
        &[Piece::Own(
            "INSIDE and OUTSIDE are both tokens of one line of pns split, for the same plant",
        )],
    )
}

/// What follows `no leaf`.
pub fn no_leaf(alloc: Global) -> Notes {
    note(
        alloc,
        &[Piece::Own(
            "no open leaf of TREE is the node of the part: is it of this tree, and not merged yet?",
        )],
    )
}

/// What follows `has payout`.
pub fn has_payout(alloc: Global) -> Notes {
    note(
        alloc,
        &[Piece::Own(
            "FILE has a payout period or an investment already; migrate takes a plant without",
        )],
    )
}

/// What follows `out of range`.
pub fn out_of_range(alloc: Global) -> Notes {
    note(
        alloc,
        &[Piece::Own("YEARS times a cost of this unit is above 1000000000: take fewer years")],
    )
}

fn sentence_of(why: Why) -> &'static str {
    match why {
        Why::Unknown =>
            "the text claims no network: its search found none; search with a greater budget",
        Why::Axiom => "the network of the claim breaks an axiom: see pns help axioms",
        Why::Exclusion => "an exclusion has two units of the network of the claim",
        Why::Flows => "the sizes of the claim break a bound of a material or of the size of a unit",
        Why::Cost => "the cost of the claim is not that of its sizes",
        Why::Step => "a step to this node is not possible at its place",
        Why::Options => "the children of this node are not all its options, in order",
        Why::Open => "this leaf is open: the search stopped before it was finished",
        Why::Dead => "the material of this leaf is not needed, or a unit can still make it",
        Why::Clash => "the exclusion of this leaf has no two units that are taken in",
        Why::Refuted => "the multipliers of this leaf do not prove that nothing meets the bounds",
        Why::Bound => "the multipliers of this leaf do not prove that nothing costs less",
        Why::Cover =>
            "some structure of this node has no unit of a set, or a unit of the set is not free",
        Why::Sum => "a number of this proof overflows 128 bits",
    }
}

/// What follows a refused claim or a refused node of a tree.
pub fn refused(alloc: Global, why: Why) -> Notes {
    let mut notes = note(alloc, &[Piece::Own(sentence_of(why))]);
    if why != Why::Unknown && why != Why::Open {
        notes.add(&[Piece::Own(
            "is FILE the plant that the text was made for, without a change since?",
        )]);
    }
    notes
}

/// What follows the refused claim of a tree that says `infeasible`, if a network is asked for.
pub fn no_network(alloc: Global) -> Notes {
    note(
        alloc,
        &[Piece::Own("the tree says that no network meets the bounds: see pns report")],
    )
}

/// Why a search stopped.
#[derive(Clone, Copy, Debug, PartialEq, Eq)]
pub enum Stop {
    /// It has as many nodes as it may.
    Spent { budget: u64 },
    /// A number of this node overflows.
    Past { node: u32 },
}

/// What follows the text of a search that stopped: why, the cost of the best network so far, as it
/// is printed, and what to do.
pub fn not_finished(alloc: Global, stop: Stop, cost: Option<&str>) -> Notes {
    let mut notes = Notes::new(alloc);
    match stop {
        Stop::Spent { budget } => notes.add(&[
            Piece::Own("not finished: budget of "),
            Piece::Number(budget),
            Piece::Own(" nodes spent"),
        ]),
        Stop::Past { node } => notes.add(&[
            Piece::Own("not finished: overflow of 128 bits at node "),
            Piece::Number(u64::from(node)),
        ]),
    }
    match cost {
        Some(cost) => notes.add(&[
            Piece::Own("the best network so far costs "),
            Piece::Foreign(cost.as_bytes()),
        ]),
        None => notes.add(&[Piece::Own("no network was found")]),
    }
    match stop {
        Stop::Spent { .. } => notes.add(&[Piece::Own(
            "call again with a greater budget, up to 1M",
        )]),
        Stop::Past { .. } => {
            notes.add(&[Piece::Own("write rates and costs with fewer digits, or tighter bounds")]);
        }
    }
    notes
}
