// The node of a set of units.
ghost use Rattle.std.specs.Prelude.{◌≡◌, ◌<◌, length};
ghost use Rattle.dual_simplex.specs.pgraph.View.{node_of};
ghost use Rattle.node_evaluation.specs.tree_rules.LeastFlows.{decided};

use dual_simplex::{Node, Problem, UnitSet};

/// The node at which the units are taken in and all others left out.
pub fn node_of(problem: &Problem, set: UnitSet) -> Node
    requires { length problem.now.units < 129 }
    ensures node { node_of result ≡ decided problem.now set }
    ensures inside { result.inside ≡ set }
{
    let all = UnitSet::below(problem.units().len() as u32);
    Node {
        inside: set,
        outside: all.minus(set),
    }
}
