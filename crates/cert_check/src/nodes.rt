//! The nodes that steps and options leave.
ghost use Rattle.std.specs.Prelude.{◌≡◌, ◌<◌, ◌↔◌, ℕ, true, map, IsTrue, IfSome, IfNone};
ghost use Rattle.tree_text_rules.specs.number_sets.Sets.{has};
ghost use Rattle.tree_text_rules.specs.pns_rules.Structure.{is_needed};
ghost use Rattle.tree_text_rules.specs.pns_rules.Nodes.{IsPossible, after, options, child};
ghost use Rattle.tree_text_rules.specs.tree_rules.Tree.{StepsPass, after_all};
ghost use Rattle.charges.specs.pgraph.Tables.{shape};
ghost use Rattle.charges.specs.pgraph.View.{node_of, step_of};
ghost use Rattle.cert_check.specs.Known.{KnowsInside};

use crate::materials::is_needed;
use crate::options::are_options;
use crate::steps::is_possible;
use charges::{Graph, Node, Step, UnitSet};

/// The node after a possible step.
pub(crate) fn after(graph: &Graph, node: &Node, step: &Step) -> Node
    requires { IsPossible (shape graph.now) (node_of node.now) (step_of step.now) }
    ensures { node_of result ≡ after (shape graph.now) (node_of node.now) (step_of step.now) }
{
    graph.is_proper();
    let inside = node.inside;
    let outside = node.outside;
    match *step {
        Step::Raw(u) => Node {
            inside,
            outside: outside.with(u),
        },
        Step::Rival(u) => Node {
            inside,
            outside: outside.with(u),
        },
        Step::Starve(x) => Node {
            inside,
            outside: graph.consumers(x).union(outside),
        },
        Step::Loose(set) => Node {
            inside,
            outside: set.union(outside),
        },
        Step::Sole { material: _, unit } => Node {
            inside: inside.with(unit),
            outside,
        },
    }
}

/// The node that the steps leave, one after another. It is `None` if and only if some step is not
/// possible when its turn comes.
pub fn after_steps(graph: &Graph, node: &Node, steps: &[Step]) -> Option<Node>
    requires { KnowsInside (shape graph.now) (node_of node.now) }
    ensures possible { IfSome result
        (λ m. StepsPass (shape graph.now) (node_of node.now) (map step_of steps.now)) }
    ensures leads { IfSome result
        (λ m. node_of m ≡ after_all (shape graph.now) (node_of node.now) (map step_of steps.now)) }
    ensures known { IfSome result (λ m. KnowsInside (shape graph.now) (node_of m)) }
    ensures impossible { IfNone result
        (StepsPass (shape graph.now) (node_of node.now) (map step_of steps.now) → ⊥) }
{
    graph.is_proper();
    let mut at = *node;
    'steps: for i in 0..steps.len() {
        let step = &steps[i];
        if !is_possible(graph, &at, step) {
            return None;
        }
        at = after(graph, &at, step);
    }
    Some(at)
}

/// Whether the material is needed at the node and these are all its options, in numeric order.
pub fn are_all_options(graph: &Graph, node: &Node, x: u32, found: &[UnitSet]) -> bool
    ensures { IsTrue result
        ↔ ((is_needed (shape graph.now) (has node.now.inside) x ≡ true)
        × (found.now ≡ options (shape graph.now) (node_of node.now) x)) }
{
    graph.is_proper();
    if !is_needed(graph, node.inside, x) {
        return false;
    }
    let (base, free) = graph.options(*node, x);
    are_options(base, free, found)
}

/// The child of the option: its units are taken in, and the other makers of the material left out.
pub fn child(graph: &Graph, node: &Node, x: u32, option: UnitSet) -> Node
    requires { x < (shape graph.now).materials }
    ensures { node_of result ≡ child (shape graph.now) (node_of node.now) x option }
{
    Node {
        inside: option.union(node.inside),
        outside: graph.producers(x).minus(option).union(node.outside),
    }
}
