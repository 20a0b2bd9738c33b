//! What is known at the place of a line.
ghost use Rattle.std.specs.Prelude.{◌≡◌, ◌<◌};
ghost use Rattle.tree_text_rules.specs.tree_rules.Accepted.{first_node};
ghost use Rattle.tree_text_rules.specs.tree_rules.Head as rules;
ghost use Rattle.charges.specs.pgraph.View.{node_of};
ghost use Rattle.cert_check.specs.View.{known_of};

use charges::{Facts, Node, Problem, UnitSet};

/// The node, and facts of the flows that matter there.
#[derive(Clone, Copy)]
pub struct Known {
    pub node: Node,
    pub facts: Facts,
}

impl Known {
    /// What is known before the first line: nothing is decided, and each size is between the
    /// problem's own bounds.
    pub fn first(problem: &Problem) -> Known
        ensures { known_of result ≡ rules.known_first problem.now first_node }
    {
        let inside = UnitSet::empty();
        let outside = UnitSet::empty();
        let facts = Facts::own(problem);
        Known {
            node: Node { inside, outside },
            facts,
        }
    }
}

/// The node with the unit taken in.
pub(crate) fn with_in(node: &Node, u: u32) -> Node
    requires { u < 128 }
    ensures { node_of result ≡ rules.with_in (node_of node.now) u }
{
    let inside = node.inside.with(u);
    Node {
        inside,
        outside: node.outside,
    }
}

/// The node with the unit left out.
pub(crate) fn with_out(node: &Node, u: u32) -> Node
    requires { u < 128 }
    ensures { node_of result ≡ rules.with_out (node_of node.now) u }
{
    let outside = node.outside.with(u);
    Node {
        inside: node.inside,
        outside,
    }
}
