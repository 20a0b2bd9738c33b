//! A node while it is extended, with what its steps need of it.
ghost use Rattle.std.specs.Prelude.{◌≡◌, ◌++◌, ℕ, true, false};
ghost use Rattle.pgraph.specs.number_sets.Sets.{has, minus};
ghost use Rattle.pgraph.specs.pns_rules.Nodes.{after};
ghost use Rattle.pgraph.specs.pns_rules.Ends.{IsSound, IsNextStep};
ghost use Rattle.pgraph.specs.Tables.{shape};
ghost use Rattle.pgraph.specs.View.{node_of, step_of};
ghost use Rattle.neutral_extension.specs.Candidates.{AreMakersOf};
ghost use Rattle.neutral_extension.specs.OpenLeaf.{Stands, Follows};

use crate::intake::{Intake, intake_after, intake_of};
use crate::makers::Makers;
use crate::scarce::{Scarce, scarce_after, scarce_of, used_after};
use crate::sets::remaining_units;
use crate::turn::taken;
use crate::units::raw_makers;
use pgraph::{Graph, MatSet, Node, Step, UnitSet};

/// A node with what its steps need of it. A step changes only what concerns the units that it takes
/// in or leaves out.
#[derive(Clone, Copy, Debug)]
pub struct OpenLeaf {
    pub node: Node,
    /// What the units taken in need, use, make and exclude.
    pub intake: Intake,
    /// The materials of which no maker is left, or one.
    pub scarce: Scarce,
    /// What some unit that is not left out uses.
    pub used: MatSet,
    /// The units that make a raw material.
    pub raw_makers: UnitSet,
}

/// Takes out the units of the set, the least first.
pub fn take_out_all(makers: &mut Makers, graph: &Graph, set: UnitSet)
    requires same { AreMakersOf (shape graph.now) makers.old.makers }
    requires fresh { (u : ℕ) → has set u ≡ true → has makers.old.taken u ≡ false }
    ensures { makers.new ≡ record { makers = makers.old.makers; taken = makers.old.taken ++ set } }
{
    for u in set {
        makers.take_out(graph, u);
    }
}

/// The node before its first step.
pub fn leaf_at(graph: &Graph, makers: &Makers, node: Node) -> OpenLeaf
    requires sound { IsSound (shape graph.now) (node_of node) }
    requires same { AreMakersOf (shape graph.now) makers.now.makers }
    requires out { (u : ℕ) → has makers.now.taken u ≡ has node.outside u }
    ensures node { result.node ≡ node }
    ensures stands { Stands (shape graph.now) result }
    ensures follows { Follows (shape graph.now) makers.now result }
{
    graph.is_proper();
    let rest = remaining_units(graph, &node);
    OpenLeaf {
        node,
        intake: intake_of(graph, node.inside),
        scarce: scarce_of(makers, graph.material_count()),
        used: graph.used(rest),
        raw_makers: raw_makers(graph),
    }
}

/// The node after its next step, with the units that go out taken out of the makers.
pub fn leaf_after(graph: &Graph, makers: &mut Makers, leaf: &OpenLeaf, step: &Step) -> OpenLeaf
    requires sound { IsSound (shape graph.now) (node_of leaf.now.node) }
    requires stands { Stands (shape graph.now) leaf.now }
    requires follows { Follows (shape graph.now) makers.old leaf.now }
    requires next { IsNextStep (shape graph.now) (node_of leaf.now.node) (step_of step.now) }
    ensures node { node_of result.node
        ≡ after (shape graph.now) (node_of leaf.now.node) (step_of step.now) }
    ensures stands { Stands (shape graph.now) result }
    ensures follows { Follows (shape graph.now) makers.new result }
    ensures taken { makers.new
        ≡ record {
          makers = makers.old.makers;
          taken =
              makers.old.taken ++ minus result.node.outside leaf.now.node.outside;
        } }
{
    graph.is_proper();
    let before = leaf.node;
    let node = taken(graph, &before, step);
    let gone = node.outside.minus(before.outside);
    take_out_all(makers, graph, gone);
    let rest = remaining_units(graph, &node);
    OpenLeaf {
        node,
        intake: intake_after(graph, &leaf.intake, before.inside, node.inside),
        scarce: scarce_after(graph, makers, &leaf.scarce, gone),
        used: used_after(graph, leaf.used, rest, gone),
        raw_makers: leaf.raw_makers,
    }
}
