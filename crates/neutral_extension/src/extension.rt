//! The extension of a node, over the makers of each material.
ghost use Rattle.std.specs.Prelude.{◌≡◌, ℕ, map, IfOk};
ghost use Rattle.pgraph.specs.number_sets.Sets.{has};
ghost use Rattle.pgraph.specs.pns_rules.Ends.{IsSound};
ghost use Rattle.pgraph.specs.Tables.{shape};
ghost use Rattle.pgraph.specs.View.{node_of, step_of};
ghost use Rattle.neutral_extension.specs.Candidates.{AreMakersOf, IsFront};
ghost use Rattle.neutral_extension.specs.Moves.{Extends, stop_of};

use crate::end::Extended;
use crate::makers::Makers;
use crate::open_leaf::{leaf_after, leaf_at, take_out_all};
use crate::turn::{Move, next_move};
use pgraph::{Graph, Node, UnitSet};
use std::alloc::{AllocError, Global};

/// The extension of the node, with each unit that goes out taken out of the makers.
fn extend_from(
    alloc: Global,
    graph: &Graph,
    makers: &mut Makers,
    node: Node,
) -> Result<Extended, AllocError>
    requires sound { IsSound (shape graph.now) (node_of node) }
    requires same { AreMakersOf (shape graph.now) makers.old.makers }
    requires out { (u : ℕ) → has makers.old.taken u ≡ has node.outside u }
    ensures extends { IfOk result
        (λ r. Extends (shape graph.now) (node_of node) (map step_of r.steps.items) (node_of r.node)
        (stop_of r.end)) }
    ensures makers { makers.new.makers ≡ makers.old.makers }
    ensures front { IsFront makers.old.taken makers.new.taken }
{
    graph.is_proper();
    let mut steps = Vec::new(alloc);
    let mut leaf = leaf_at(graph, makers, node);
    let mut leading = UnitSet::empty();
    'steps: loop {
        match next_move(graph, makers, &leaf, &mut leading) {
            Move::Take(step) => {
                leaf = leaf_after(graph, makers, &leaf, &step);
                steps.push(step)?;
            }
            Move::End(end) => {
                return Ok(Extended {
                    node: leaf.node,
                    steps,
                    end,
                });
            }
        }
    }
}

/// Takes the steps of a sound node, each in its turn, until none is possible. The makers are those
/// of the graph, and the units taken out of them are those that the node leaves out. Afterwards
/// they are as before, also after `Err`, which comes only when memory runs out. Each step looks
/// again only at the materials of the units that it takes in or leaves out.
pub fn extend_with(
    alloc: Global,
    graph: &Graph,
    makers: &mut Makers,
    node: Node,
) -> Result<Extended, AllocError>
    requires sound { IsSound (shape graph.now) (node_of node) }
    requires same { AreMakersOf (shape graph.now) makers.old.makers }
    requires out { (u : ℕ) → has makers.old.taken u ≡ has node.outside u }
    ensures extends { IfOk result
        (λ r. Extends (shape graph.now) (node_of node) (map step_of r.steps.items) (node_of r.node)
        (stop_of r.end)) }
    ensures restored { makers.new ≡ makers.old }
{
    let before = makers.taken();
    let result = extend_from(alloc, graph, makers, node);
    makers.back(graph, before);
    result
}

/// Takes the steps of a sound node, each in its turn, until none is possible. `Err` comes only when
/// memory runs out.
pub fn extend(alloc: Global, graph: &Graph, node: Node) -> Result<Extended, AllocError>
    requires { IsSound (shape graph.now) (node_of node) }
    ensures { IfOk result
        (λ r. Extends (shape graph.now) (node_of node) (map step_of r.steps.items) (node_of r.node)
        (stop_of r.end)) }
{
    let mut makers = Makers::open(alloc, graph)?;
    take_out_all(&mut makers, graph, node.outside);
    extend_with(alloc, graph, &mut makers, node)
}
