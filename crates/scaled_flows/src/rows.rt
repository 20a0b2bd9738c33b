//! What scaled sizes leave over of materials.
ghost use Rattle.std.specs.Prelude.{◌≡◌, ◌<◌, ◌≤ℤ◌, ◌*ℤ◌, ℕ, pos, true, length, int_div, IsTrue};
ghost use Rattle.std.specs.Prelude.{IfSome};
ghost use Rattle.tree_rules.specs.integer_laws.Total.{total};
ghost use Rattle.tree_rules.specs.number_sets.Sets.{has};
ghost use Rattle.tree_rules.specs.problem_rules.Problem.{rate_of};
ghost use Rattle.tree_rules.specs.pns_rules.Shape.{shape_of};
ghost use Rattle.flow_program.specs.pgraph.Tables.{shape};
ghost use Rattle.flow_program.specs.pgraph.View.{node_of};
ghost use Rattle.tree_rules.specs.flow_rules.Net.{net_of};
ghost use Rattle.flow_program.specs.Entry.{entry};
ghost use Rattle.flow_program.specs.NodeSets.{AreSetsOf};
ghost use Rattle.scaled_flows.specs.Divisors.{Divides, AreDivisors};
ghost use Rattle.scaled_flows.specs.Settled.{IsRowSettled};

use crate::Scales;
use crate::settled::{is_settled, scaled, scaled_rate};
use flow_program::{
    Graph, Node, NodeSets, Problem, Range, UnitSet, checked_product, checked_sum, rate_at,
    row_range, units_with,
};

/// What scaled sizes of the units leave over of a material at its scaled rates.
fn balance_of(
    problem: &Problem,
    j: u32,
    divisor: i64,
    units: UnitSet,
    size_at: &[i128],
) -> Option<i128>
    requires known { (u : ℕ) → has units u ≡ true → u < length problem.now.units }
    requires all_sizes { length size_at.now ≡ 128 }
    requires positive { pos 1 ≤ℤ divisor }
    ensures { IfSome result
        (λ b. b ≡ total (λ i. int_div (rate_of problem.now j i) divisor *ℤ entry size_at.now i)
        units) }
{
    let mut sum = 0;
    for u in units {
        let rate = scaled_rate(rate_at(problem, j, u), divisor);
        let moved = checked_product(rate, size_at[u as usize])?;
        sum = checked_sum(sum, moved)?;
    }
    Some(sum)
}

/// The divisor of the ends of a row.
fn row_divisor(rates: i64, sizes: i64) -> i128
    requires rates { pos 1 ≤ℤ rates }
    requires sizes { pos 1 ≤ℤ sizes }
    ensures { result ≡ rates *ℤ sizes }
{
    rates as i128 * sizes as i128
}

/// The range of a row, scaled.
fn scaled_range(range: Range, divisor: i128) -> Range
    requires positive { pos 1 ≤ℤ divisor }
    requires ordered { range.low ≤ℤ range.high }
    requires low_divided { Divides divisor range.low }
    requires high_divided { Divides divisor range.high }
    ensures low { result.low ≡ int_div range.low divisor }
    ensures high { result.high ≡ int_div range.high divisor }
    ensures ordered { result.low ≤ℤ result.high }
{
    Range {
        low: scaled(range.low, divisor),
        high: scaled(range.high, divisor),
    }
}

/// Whether each row leaves over what its multiplier needs. A number out of range is a no.
pub(crate) fn are_rows_settled(
    problem: &Problem,
    graph: &Graph,
    scales: &Scales,
    node: &Node,
    sets: &NodeSets,
    size_at: &[i128],
    d: i128,
    y_at: &[i128],
) -> bool
    requires graph { shape graph.now ≡ shape_of problem.now }
    requires scales { AreDivisors (net_of problem.now) scales.now }
    requires sets { AreSetsOf (shape_of problem.now) (node_of node.now) sets.now.units sets.now.rows
        sets.now.needed }
    requires all_sizes { length size_at.now ≡ 128 }
    requires all_ys { length y_at.now ≡ 256 }
    requires positive { pos 1 ≤ℤ d }
    ensures { IsTrue result → (j : ℕ) → has sets.now.rows j ≡ true
        → IsRowSettled (net_of problem.now) scales.now (node_of node.now) (entry size_at.now) d
        (entry y_at.now) j }
{
    problem.is_valid();
    for j in sets.rows {
        let divisor = scales.rate(j);
        let range = row_range(problem, node, sets.needed, j);
        let range = scaled_range(range, row_divisor(divisor, scales.sizes()));
        let units = units_with(graph, sets.units, j);
        units.rises();
        let Some(balance) = balance_of(problem, j, divisor, units, size_at) else {
            return false;
        };
        if !is_settled(balance, d, range, y_at[j as usize]) {
            return false;
        }
    }
    true
}
