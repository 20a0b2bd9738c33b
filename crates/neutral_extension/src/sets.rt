//! The units that a node has not left out, and its free units.
ghost use Rattle.std.specs.Prelude.{◌≡◌, ◌<◌, ℕ, true};
ghost use Rattle.pgraph.specs.number_sets.Sets.{has};
ghost use Rattle.pgraph.specs.pns_rules.Ends.{remaining};
ghost use Rattle.pgraph.specs.Tables.{shape};
ghost use Rattle.pgraph.specs.View.{node_of};
ghost use Rattle.neutral_extension.specs.Tests.{is_open};

use pgraph::{Graph, Node, UnitSet};

/// The units that are not left out.
pub fn remaining_units(graph: &Graph, node: &Node) -> UnitSet
    ensures is { has result ≡ remaining (shape graph.now) (node_of node.now) }
    ensures known { (u : ℕ) → has result u ≡ true → u < (shape graph.now).units }
{
    graph.is_proper();
    UnitSet::below(graph.unit_count()).minus(node.outside)
}

/// The units that are neither taken in nor left out.
pub fn free_units(graph: &Graph, node: &Node) -> UnitSet
    ensures is { has result ≡ is_open (shape graph.now) (node_of node.now) }
    ensures known { (u : ℕ) → has result u ≡ true → u < (shape graph.now).units }
{
    remaining_units(graph, node).minus(node.inside)
}
