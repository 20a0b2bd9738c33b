//! The options of a choice, and the children that they give.
ghost use Rattle.std.specs.Prelude.{◌≡◌, ◌<◌, ◌∷◌, [], IfOk};
ghost use Rattle.structure_list.specs.number_sets.Sets.{has};
ghost use Rattle.structure_list.specs.pns_rules.Nodes.{options};
ghost use Rattle.structure_list.specs.pgraph.Tables.{shape};
ghost use Rattle.structure_list.specs.pgraph.View.{node_of};
ghost use Rattle.search_tree.specs.tree_rules.Ways.{decides, options_at, child_at};
ghost use Rattle.node_evaluation.specs.Choices.{way_of};
ghost use Rattle.node_evaluation.specs.Children.{IsKnown};

use crate::Choice;
use std::alloc::{AllocError, Global};
use structure_list::{Graph, Node, UnitSet};

/// The options of a material at the node, in numeric order.
fn options_of_material(
    alloc: Global,
    graph: &Graph,
    node: &Node,
    x: u32,
) -> Result<Vec<UnitSet>, AllocError>
    requires { x < (shape graph.now).materials }
    ensures { IfOk result (λ all. all.items ≡ options (shape graph.now) (node_of node.now) x) }
{
    let (base, free) = graph.options(*node, x);
    base.rises();
    free.rises();
    let mut all = Vec::new(alloc);
    let mut next = UnitSet::first_option(base, free);
    'options: while let Some(option) = next {
        all.push(option)?;
        next = option.next_option(base, free);
    }
    Ok(all)
}

/// The two options of a unit: it goes in, or it goes out.
fn options_of_unit(alloc: Global, u: u32) -> Result<Vec<UnitSet>, AllocError>
    requires { u < 128 }
    ensures { IfOk result (λ all. all.items ≡ (u ∷ []) ∷ [] ∷ []) }
{
    let mut all = Vec::new(alloc);
    all.push(UnitSet::empty().with(u))?;
    all.push(UnitSet::empty())?;
    Ok(all)
}

/// The options of a choice at the node, in their order.
pub(crate) fn options_of(
    alloc: Global,
    graph: &Graph,
    node: &Node,
    choice: Choice,
) -> Result<Vec<UnitSet>, AllocError>
    requires { IsKnown (shape graph.now) choice }
    ensures { IfOk result
        (λ all. all.items ≡ options_at (shape graph.now) (node_of node.now) (way_of choice)) }
{
    match choice {
        Choice::Material(x) => options_of_material(alloc, graph, node, x),
        Choice::Unit(u) => options_of_unit(alloc, u),
    }
}

/// The units that a choice decides.
fn decided(graph: &Graph, choice: Choice) -> UnitSet
    requires { IsKnown (shape graph.now) choice }
    ensures { has result ≡ decides (shape graph.now) (way_of choice) }
{
    match choice {
        Choice::Material(x) => graph.producers(x),
        Choice::Unit(u) => UnitSet::empty().with(u),
    }
}

/// The child of the option: its units are taken in, and the others that the choice decides left
/// out.
pub(crate) fn child_of(graph: &Graph, node: &Node, choice: Choice, option: UnitSet) -> Node
    requires { IsKnown (shape graph.now) choice }
    ensures { node_of result ≡ child_at (shape graph.now) (node_of node.now) (way_of choice)
        option }
{
    Node {
        inside: option.union(node.inside),
        outside: decided(graph, choice).minus(option).union(node.outside),
    }
}
