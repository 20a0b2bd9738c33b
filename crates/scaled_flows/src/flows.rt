//! The check of guessed flows.
ghost use Rattle.std.specs.Prelude.{◌≡◌, ◌<◌, ℕ, true, IfSome};
ghost use Rattle.flow_program.specs.exact_numbers.Number.{numerator, denominator};
ghost use Rattle.tree_rules.specs.number_sets.Sets.{has};
ghost use Rattle.tree_rules.specs.pns_rules.Shape.{shape_of};
ghost use Rattle.flow_program.specs.pgraph.Tables.{shape};
ghost use Rattle.flow_program.specs.pgraph.View.{node_of};
ghost use Rattle.tree_rules.specs.flow_rules.Net.{net_of};
ghost use Rattle.tree_rules.specs.Lean.{HasCheaper};
ghost use Rattle.scaled_flows.specs.Divisors.{AreDivisors};

use crate::Scales;
use crate::optimum::worth_of;
use crate::rows::are_rows_settled;
use crate::units::settled_costs;
use flow_program::{Graph, Mixed, Node, Problem, by_unit, fixed_costs, sets_of};

/// What guessed flows of the node cost, in 10^-18 of the money unit times the payout period. They
/// are scaled sizes over `d`, one for each unit of the node's program in rising order. `None` if a
/// size or a row is not in its range, or a number on the way is out of range; but the sum of what
/// the sizes cost may be. Linear in the number of rates of the units that are not left out. It
/// takes no memory.
pub fn cost_of_sizes(
    problem: &Problem,
    graph: &Graph,
    scales: &Scales,
    node: Node,
    sizes: &[i128],
    d: i128,
) -> Option<Mixed>
    requires graph { shape graph.now ≡ shape_of problem.now }
    requires scales { AreDivisors (net_of problem.now) scales.now }
    requires known { (u : ℕ) → has node.inside u ≡ true → u < (shape graph.now).units }
    ensures { IfSome result
        (λ v. HasCheaper problem.now (node_of node) (numerator v) (denominator v)) }
{
    problem.is_valid();
    node.inside.rises();
    let sets = sets_of(graph, &node);
    if d < 1 || sizes.len() != sets.units.count() as usize {
        return None;
    }
    let size_at = by_unit(sets.units, sizes);
    // With a scale and multipliers of 0 all prices are 0, and no size and no row has to be at an
    // end.
    let y_at = [0; 256];
    if !are_rows_settled(problem, graph, scales, &node, &sets, &size_at, d, &y_at) {
        return None;
    }
    let costs = settled_costs(
        problem, graph, scales, &node, sets.units, &size_at, d, 0, &y_at,
    )?;
    let fixed = fixed_costs(problem, node.inside);
    Mixed::of_sum(fixed, worth_of(scales)?, costs, d)
}
