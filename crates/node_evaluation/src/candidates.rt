//! The free maker of a needed material that has the greatest score.
ghost use Rattle.std.specs.Prelude.{◌≡◌, ◌<◌, ◌⊎◌, ℕ, true};
ghost use Rattle.structure_list.specs.number_sets.Sets.{has};
ghost use Rattle.structure_list.specs.pns_rules.Structure.{is_needed};
ghost use Rattle.structure_list.specs.pns_rules.Ends.{IsUndecided};
ghost use Rattle.structure_list.specs.pgraph.Tables.{shape};
ghost use Rattle.structure_list.specs.pgraph.View.{node_of};
ghost use Rattle.node_evaluation.specs.Choices.{IsDecisive};

use crate::dues::Dues;
use structure_list::{Graph, MatSet, Node};

/// A unit and its score.
#[derive(Clone, Copy)]
struct Candidate {
    unit: u32,
    score: i128,
}

/// The one of greater score; of two with the same score, the one of the smaller number.
fn better(best: Candidate, next: Candidate) -> Candidate
    ensures { (result ≡ best) ⊎ (result ≡ next) }
{
    let is_equal = next.score == best.score;
    if next.score > best.score || (is_equal && next.unit < best.unit) {
        next
    } else {
        best
    }
}

/// Any free maker of a needed material.
fn some_maker(graph: &Graph, node: &Node, x: u32) -> u32
    requires { IsUndecided (shape graph.now) (node_of node.now) x }
    ensures { IsDecisive (shape graph.now) (node_of node.now) result }
{
    graph.is_proper();
    let (_base, free) = graph.options(*node, x);
    match free.least() {
        Some(u) => u,
        None => unreachable!(),
    }
}

/// The best candidate, with the free makers of one needed material more.
fn look_at(graph: &Graph, node: &Node, dues: &Dues, best: Candidate, x: u32) -> Candidate
    requires known { x < (shape graph.now).materials }
    requires needed { is_needed (shape graph.now) (node_of node.now).inside x ≡ true }
    requires best { IsDecisive (shape graph.now) (node_of node.now) best.unit }
    ensures { IsDecisive (shape graph.now) (node_of node.now) result.unit }
{
    let (base, free) = graph.options(*node, x);
    let owed = if base.is_empty() { dues.owed(free) } else { 0 };
    let mut best = best;
    for unit in free {
        let score = dues.score(unit, owed);
        best = better(best, Candidate { unit, score });
    }
    best
}

/// The free maker of a needed material that has the greatest score, with the least number among
/// equals. `first` has such a maker.
pub(crate) fn best_unit(graph: &Graph, node: &Node, needed: MatSet, dues: &Dues, first: u32) -> u32
    requires needed { has needed ≡ is_needed (shape graph.now) (node_of node.now).inside }
    requires first { IsUndecided (shape graph.now) (node_of node.now) first }
    ensures { IsDecisive (shape graph.now) (node_of node.now) result }
{
    graph.is_proper();
    let mut best = Candidate {
        unit: some_maker(graph, node, first),
        score: i128::MIN,
    };
    for x in needed {
        best = look_at(graph, node, dues, best, x);
    }
    best.unit
}
