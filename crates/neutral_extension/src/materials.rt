//! Materials at which an extension ends, and those whose consumers can all go.
ghost use Rattle.std.specs.Prelude.{◌≡◌, ◌<◌, ℕ, true, MatchOption};
ghost use Rattle.pgraph.specs.number_sets.Sets.{has};
ghost use Rattle.pgraph.specs.pns_rules.Nodes.{starve, IsPossible};
ghost use Rattle.pgraph.specs.pns_rules.Ends.{IsSound, IsDead, IsUndecided, IsFirst, IsNever};
ghost use Rattle.pgraph.specs.Tables.{shape};
ghost use Rattle.pgraph.specs.View.{node_of};
ghost use Rattle.neutral_extension.specs.OpenLeaf.{Stands};

use crate::open_leaf::OpenLeaf;
use crate::sets::free_units;
use pgraph::Graph;

/// The least needed material of which every maker is left out.
pub fn dead_material(graph: &Graph, leaf: &OpenLeaf) -> Option<u32>
    requires { Stands (shape graph.now) leaf.now }
    ensures { MatchOption result (IsNever (IsDead (shape graph.now) (node_of leaf.now.node)))
        (IsFirst (IsDead (shape graph.now) (node_of leaf.now.node))) }
{
    graph.is_proper();
    let dead = leaf.intake.needed.meet(leaf.scarce.unmade);
    dead.rises();
    dead.least()
}

/// The least material that is not raw, of which every maker is left out and some consumer is not,
/// while no consumer is taken in.
pub fn starved_material(graph: &Graph, leaf: &OpenLeaf) -> Option<u32>
    requires sound { IsSound (shape graph.now) (node_of leaf.now.node) }
    requires stands { Stands (shape graph.now) leaf.now }
    ensures { MatchOption result
        (IsNever (λ x. IsPossible (shape graph.now) (node_of leaf.now.node) (starve x)))
        (IsFirst (λ x. IsPossible (shape graph.now) (node_of leaf.now.node) (starve x))) }
{
    graph.is_proper();
    let unused = leaf.used.minus(leaf.intake.used);
    let starved = unused.meet(leaf.scarce.unmade).minus(graph.raws());
    starved.rises();
    starved.least()
}

/// The least needed material with a maker that is free.
pub fn undecided_material(graph: &Graph, leaf: &OpenLeaf) -> Option<u32>
    requires { Stands (shape graph.now) leaf.now }
    ensures { MatchOption result (IsNever (IsUndecided (shape graph.now) (node_of leaf.now.node)))
        (IsFirst (IsUndecided (shape graph.now) (node_of leaf.now.node))) }
{
    graph.is_proper();
    let free = free_units(graph, &leaf.node);
    let undecided = leaf.intake.needed.meet(graph.made(free));
    undecided.rises();
    undecided.least()
}
