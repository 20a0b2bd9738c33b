//! The children of a branch.
ghost use Rattle.std.specs.Prelude.{◌≡◌, ◌<◌, ◌++◌, map, OnOk};
ghost use Rattle.tree_text_rules.specs.pns_rules.Nodes.{child};
ghost use Rattle.charges.specs.pgraph.Tables.{shape};
ghost use Rattle.charges.specs.pgraph.View.{node_of};
ghost use Rattle.cert_check.specs.Subtrees.{stack_of};

use crate::child;
use charges::{Graph, Node, UnitSet};
use std::alloc::AllocError;

/// Puts the children of the options on the stack, the first on top.
pub(crate) fn push_children(
    graph: &Graph,
    node: &Node,
    material: u32,
    options: &[UnitSet],
    stack: &mut Vec<Node>,
) -> Result<(), AllocError>
    requires { material < (shape graph.now).materials }
    ensures { OnOk result
        (stack_of stack.new.items
        ≡ map (child (shape graph.now) (node_of node.now) material) options.now
        ++ stack_of stack.old.items) }
{
    let mut left = options.len();
    'put: while left > 0 {
        left -= 1;
        let next = child(graph, node, material, options[left]);
        stack.push(next)?;
    }
    Ok(())
}
