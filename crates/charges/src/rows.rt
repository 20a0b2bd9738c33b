//! The parts of the rows in a charge.
ghost use Rattle.std.specs.Prelude.{◌≡◌, ◌<◌, ◌≤◌, ℕ, pos, true, length, IfOk, IfErr, OnOk};
ghost use Rattle.structure_list.specs.integer_laws.Total.{total};
ghost use Rattle.structure_list.specs.number_sets.Sets.{has};
ghost use Rattle.structure_list.specs.pns_rules.Shape.{shape_of};
ghost use Rattle.structure_list.specs.pgraph.View.{node_of};
ghost use Rattle.structure_list.specs.flow_rules.Net.{net_of};
ghost use Rattle.structure_list.specs.flow_rules.Relaxed.{row_part};
ghost use Rattle.structure_list.specs.flow_rules.Steps.{AreInRange, IsFirstPast};
ghost use Rattle.structure_list.specs.flow_rules.BoundSteps.{rows_steps};
ghost use Rattle.flow_program.specs.Entry.{entry};
ghost use Rattle.flow_program.specs.NodeSets.{AreNeeded};

use crate::products::with_least;
use crate::running::Running;
use flow_program::{PastSum, row_range};
use structure_list::{MatSet, Node, Problem};

/// The sum of the parts of the rows, whose first step has the number 0.
pub(crate) fn rows_sum(
    problem: &Problem,
    node: &Node,
    rows: MatSet,
    needed: MatSet,
    ys: &[i128],
) -> Result<Running, PastSum>
    requires known { (j : ℕ) → has rows j ≡ true → j < length problem.now.materials }
    requires needed { AreNeeded (shape_of problem.now) (node_of node.now) needed }
    requires all_ys { length ys.now ≡ 256 }
    ensures value { IfOk result (λ to. to.sum
        ≡ total (row_part (net_of problem.now) (node_of node.now) (entry ys.now)) rows) }
    ensures in_range { OnOk result (AreInRange
        (rows_steps (net_of problem.now) (node_of node.now) (entry ys.now) rows (pos 0))) }
    ensures count { IfOk result (λ to. to.at ≡ length
        (rows_steps (net_of problem.now) (node_of node.now) (entry ys.now) rows (pos 0))) }
    ensures small { IfOk result (λ to. to.at ≤ 512) }
    ensures past { IfErr result (λ e. IsFirstPast
        (rows_steps (net_of problem.now) (node_of node.now) (entry ys.now) rows (pos 0)) e.at) }
{
    problem.is_valid();
    let mut sum = 0;
    let mut at = 0;
    for j in rows {
        let range = row_range(problem, node, needed, j);
        match with_least(Running { sum, at }, ys[j as usize], range.low, range.high) {
            Err(past) => return Err(past),
            Ok(next) => {
                sum = next.sum;
                at = next.at;
            }
        }
    }
    Ok(Running { sum, at })
}
