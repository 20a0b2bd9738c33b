//! The node at which a run begins.
ghost use Rattle.std.specs.Prelude.{◌≡◌, ℕ, List, IfSome, IfNone};
ghost use Rattle.network_commands.specs.pns_rules.Shape.{shape_of};
ghost use Rattle.network_commands.specs.pgraph.Tables.{shape};
ghost use Rattle.network_commands.specs.studio_rules.Start.{IsStart};

use network_commands::{Graph, Node, Problem, is_sound, units_named};

/// The sound node that the words name. It is `None` if and only if they name none.
pub(crate) fn start_of(
    problem: &Problem,
    graph: &Graph,
    inside: &str,
    outside: &str,
) -> Option<Node>
    requires { shape graph.now ≡ shape_of problem.now }
    ensures some { IfSome result
        (λ start. IsStart problem.now inside.now outside.now start.inside start.outside) }
    ensures none { IfNone result
        ((ins outs : List ℕ) → IsStart problem.now inside.now outside.now ins outs → ⊥) }
{
    problem.is_valid();
    let Some(taken) = units_named(problem, inside) else {
        return None;
    };
    let Some(left) = units_named(problem, outside) else {
        return None;
    };
    let start = Node {
        inside: taken,
        outside: left,
    };
    if is_sound(graph, start) {
        Some(Node {
            inside: taken,
            outside: left,
        })
    } else {
        None
    }
}
