//! The check of a guessed optimum.
ghost use Rattle.std.specs.Prelude.{◌≡◌, ◌<◌, ◌≤ℤ◌, ◌*ℤ◌, ℕ, pos, true, IfSome};
ghost use Rattle.flow_program.specs.exact_numbers.Number.{numerator, denominator};
ghost use Rattle.tree_rules.specs.number_sets.Sets.{has};
ghost use Rattle.tree_rules.specs.pns_rules.Shape.{shape_of};
ghost use Rattle.flow_program.specs.pgraph.Tables.{shape};
ghost use Rattle.flow_program.specs.pgraph.View.{node_of};
ghost use Rattle.tree_rules.specs.flow_rules.Net.{net_of};
ghost use Rattle.scaled_flows.specs.Divisors.{AreDivisors};
ghost use Rattle.scaled_flows.specs.LeastCost.{IsLeastCost};

use crate::Scales;
use crate::rows::are_rows_settled;
use crate::units::settled_costs;
use flow_program::{Graph, Mixed, Node, Problem, by_material, by_unit, fixed_costs, sets_of};

/// What was guessed of a node's program: scaled sizes over `d`, one for each unit of the program in
/// rising order, and scaled multipliers over `scale`, one for each row in rising order.
#[derive(Clone, Copy)]
pub struct Guessed<'a> {
    pub sizes: &'a [i128],
    pub d: i128,
    pub multipliers: &'a [i128],
    pub scale: i128,
}

/// What a scaled cost of 1 of a scaled size of 1 is worth, in 10^-18 of the money unit times the
/// payout period.
pub(crate) fn worth_of(scales: &Scales) -> Option<i128>
    requires costs { pos 1 ≤ℤ scales.now.costs }
    requires sizes { pos 1 ≤ℤ scales.now.sizes }
    ensures value { IfSome result (λ w. w ≡ scales.now.costs *ℤ scales.now.sizes) }
    ensures positive { IfSome result (λ w. pos 1 ≤ℤ w) }
{
    scales.costs().checked_mul(scales.sizes() as i128)
}

/// The least cost of the node's relaxed flows, in 10^-18 of the money unit times the payout period,
/// if the guess passes the exact check. It passes if each size and each row is in its range, at an
/// end of it if its price is not 0, and no number on the way is out of range; but the sum of what
/// the sizes cost may be. Linear in the number of rates of the units that are not left out. It
/// takes no memory.
pub fn least_value(
    problem: &Problem,
    graph: &Graph,
    scales: &Scales,
    node: Node,
    guessed: &Guessed<'_>,
) -> Option<Mixed>
    requires graph { shape graph.now ≡ shape_of problem.now }
    requires scales { AreDivisors (net_of problem.now) scales.now }
    requires known { (u : ℕ) → has node.inside u ≡ true → u < (shape graph.now).units }
    ensures { IfSome result
        (λ v. IsLeastCost problem.now (node_of node) (numerator v) (denominator v)) }
{
    problem.is_valid();
    node.inside.rises();
    let sets = sets_of(graph, &node);
    let (d, scale) = (guessed.d, guessed.scale);
    if d < 1
        || scale < 1
        || guessed.sizes.len() != sets.units.count() as usize
        || guessed.multipliers.len() != sets.rows.count() as usize
    {
        return None;
    }
    let size_at = by_unit(sets.units, guessed.sizes);
    let y_at = by_material(sets.rows, guessed.multipliers);
    if !are_rows_settled(problem, graph, scales, &node, &sets, &size_at, d, &y_at) {
        return None;
    }
    let costs = settled_costs(
        problem, graph, scales, &node, sets.units, &size_at, d, scale, &y_at,
    )?;
    let fixed = fixed_costs(problem, node.inside);
    Mixed::of_sum(fixed, worth_of(scales)?, costs, d)
}
