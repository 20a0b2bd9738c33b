//! Which step comes next at a node, and what it does.
ghost use Rattle.std.specs.Prelude.{◌≡◌};
ghost use Rattle.pgraph.specs.number_sets.Sets.{has};
ghost use Rattle.pgraph.specs.pns_rules.Nodes.{IsPossible, after};
ghost use Rattle.pgraph.specs.pns_rules.Ends.{IsSound};
ghost use Rattle.pgraph.specs.Tables.{shape};
ghost use Rattle.pgraph.specs.View.{node_of, step_of};
ghost use Rattle.neutral_extension.specs.Moves.{IsMove, IsListedMove};
ghost use Rattle.neutral_extension.specs.OpenLeaf.{Stands, Follows, AllLead};

use crate::end::Stop;
use crate::makers::Makers;
use crate::materials::{dead_material, starved_material, undecided_material};
use crate::open_leaf::OpenLeaf;
use crate::units::{loose_units, raw_unit, rival_unit, sole_step};
use pgraph::{Graph, Node, Step, UnitSet};

/// What comes next at a node: a step, or the end.
#[derive(Clone, Copy, Debug)]
pub enum Move {
    Take(Step),
    End(Stop),
}

/// What comes next at the node. `leading` keeps from turn to turn which units lead to a product.
pub fn next_move(graph: &Graph, makers: &Makers, leaf: &OpenLeaf, leading: &mut UnitSet) -> Move
    requires sound { IsSound (shape graph.now) (node_of leaf.now.node) }
    requires stands { Stands (shape graph.now) leaf.now }
    requires follows { Follows (shape graph.now) makers.now leaf.now }
    requires leading { AllLead (shape graph.now) (has leading.old) }
    ensures comes { IsMove (shape graph.now) (node_of leaf.now.node) result }
    ensures set { IsListedMove (shape graph.now) result }
    ensures leading { AllLead (shape graph.now) (has leading.new) }
{
    if let Some(x) = dead_material(graph, leaf) {
        return Move::End(Stop::Dead(x));
    }
    if let Some(k) = leaf.intake.clash {
        return Move::End(Stop::Clash(k));
    }
    if let Some(u) = raw_unit(graph, leaf) {
        return Move::Take(Step::Raw(u));
    }
    if let Some(u) = rival_unit(graph, leaf) {
        return Move::Take(Step::Rival(u));
    }
    if let Some(x) = starved_material(graph, leaf) {
        return Move::Take(Step::Starve(x));
    }
    let loose = loose_units(graph, &leaf.node, leading);
    loose.rises();
    if !loose.is_empty() {
        return Move::Take(Step::Loose(loose));
    }
    if let Some((material, unit)) = sole_step(graph, makers, leaf) {
        return Move::Take(Step::Sole { material, unit });
    }
    match undecided_material(graph, leaf) {
        Some(x) => Move::End(Stop::Branch(x)),
        None => Move::End(Stop::Decided),
    }
}

/// The node after a step.
pub fn taken(graph: &Graph, node: &Node, step: &Step) -> Node
    requires { IsPossible (shape graph.now) (node_of node.now) (step_of step.now) }
    ensures { node_of result ≡ after (shape graph.now) (node_of node.now) (step_of step.now) }
{
    graph.is_proper();
    let inside = node.inside;
    let outside = node.outside;
    match *step {
        Step::Raw(u) => Node {
            inside,
            outside: outside.with(u),
        },
        Step::Rival(u) => Node {
            inside,
            outside: outside.with(u),
        },
        Step::Starve(x) => Node {
            inside,
            outside: graph.consumers(x).union(outside),
        },
        Step::Loose(set) => Node {
            inside,
            outside: set.union(outside),
        },
        Step::Sole { material: _, unit } => Node {
            inside: inside.with(unit),
            outside,
        },
    }
}
