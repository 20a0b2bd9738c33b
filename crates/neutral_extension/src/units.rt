//! Units that go out or in by a step.
ghost use Rattle.std.specs.Prelude.{◌≡◌, ◌<◌, ℕ, true, ◌↔◌, MatchOption};
ghost use Rattle.pgraph.specs.number_sets.Sets.{has};
ghost use Rattle.pgraph.specs.pns_rules.Nodes.{raw, rival, sole, IsPossible};
ghost use Rattle.pgraph.specs.pns_rules.Structure.{HasPath};
ghost use Rattle.pgraph.specs.pns_rules.Ends.{IsSound, IsFirst, IsNever};
ghost use Rattle.pgraph.specs.Tables.{shape};
ghost use Rattle.pgraph.specs.View.{node_of};
ghost use Rattle.neutral_extension.specs.OpenLeaf.{Stands, Follows, AllLead};
ghost use Rattle.neutral_extension.specs.Tests.{MakesRaw, IsLooseSet, IsLeastSole, HasNoSole};

use crate::makers::Makers;
use crate::open_leaf::OpenLeaf;
use crate::sets::{free_units, remaining_units};
use pgraph::{Graph, Node, UnitSet};

/// The units that make a raw material.
pub fn raw_makers(graph: &Graph) -> UnitSet
    ensures { (u : ℕ) → (has result u ≡ true) ↔ MakesRaw (shape graph.now) u }
{
    graph.is_proper();
    let raws = graph.raws();
    let mut found = UnitSet::empty();
    for x in 0..graph.material_count() {
        if raws.has(x) {
            found = found.union(graph.producers(x));
        }
    }
    found
}

/// The least free unit that makes a raw material.
pub fn raw_unit(graph: &Graph, leaf: &OpenLeaf) -> Option<u32>
    requires { Stands (shape graph.now) leaf.now }
    ensures { MatchOption result
        (IsNever (λ u. IsPossible (shape graph.now) (node_of leaf.now.node) (raw u)))
        (IsFirst (λ u. IsPossible (shape graph.now) (node_of leaf.now.node) (raw u))) }
{
    let found = free_units(graph, &leaf.node).meet(leaf.raw_makers);
    found.rises();
    found.least()
}

/// The least free unit that shares an exclusion with a unit taken in.
pub fn rival_unit(graph: &Graph, leaf: &OpenLeaf) -> Option<u32>
    requires { Stands (shape graph.now) leaf.now }
    ensures { MatchOption result
        (IsNever (λ u. IsPossible (shape graph.now) (node_of leaf.now.node) (rival u)))
        (IsFirst (λ u. IsPossible (shape graph.now) (node_of leaf.now.node) (rival u))) }
{
    let found = free_units(graph, &leaf.node).meet(leaf.intake.rivals);
    found.rises();
    found.least()
}

/// The units of the set that have a path to a product through units of the set. If `leading` is the
/// set, all have one, and paths are not looked for.
fn leading_of(graph: &Graph, set: UnitSet, leading: UnitSet) -> UnitSet
    requires { AllLead (shape graph.now) (has leading) }
    ensures { (u : ℕ) → (has result u ≡ true) ↔ HasPath (shape graph.now) (has set) u }
{
    if set == leading {
        leading
    } else {
        graph.reaching(set)
    }
}

/// The units that are not left out and have no path to a product through such units. The units that
/// have one are kept in `leading`. Paths are looked for only if some unit has gone out since.
pub fn loose_units(graph: &Graph, node: &Node, leading: &mut UnitSet) -> UnitSet
    requires { AllLead (shape graph.now) (has leading.old) }
    ensures loose { IsLooseSet (shape graph.now) (node_of node.now) result }
    ensures leading { AllLead (shape graph.now) (has leading.new) }
{
    let rest = remaining_units(graph, node);
    let found = leading_of(graph, rest, *leading);
    *leading = found;
    rest.minus(found)
}

/// The least material with a `sole` step, and its unit: the one that its list of makers still has.
pub fn sole_step(graph: &Graph, makers: &Makers, leaf: &OpenLeaf) -> Option<(u32, u32)>
    requires sound { IsSound (shape graph.now) (node_of leaf.now.node) }
    requires stands { Stands (shape graph.now) leaf.now }
    requires follows { Follows (shape graph.now) makers.now leaf.now }
    ensures { MatchOption result (HasNoSole (shape graph.now) (node_of leaf.now.node))
        (λ p. IsLeastSole (shape graph.now) (node_of leaf.now.node) p.0 p.1) }
{
    graph.is_proper();
    let single = leaf.intake.needed.meet(leaf.scarce.single);
    let undecided = single.minus(leaf.intake.made);
    undecided.rises();
    let Some(x) = undecided.least() else {
        return None;
    };
    match makers.first(x) {
        Some(unit) => Some((x, unit)),
        None => None,
    }
}
