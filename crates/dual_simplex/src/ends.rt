//! What is read off the last basis of a path: multipliers and flows, or the multipliers of a
//! refutation.
ghost use Rattle.std.specs.Prelude.{◌≡◌, ◌<◌, ◌≤◌, ◌<ℤ◌, pos, length, take, IfOk, IfErr, OnOk};
ghost use Rattle.std.specs.Prelude.{OnErr};
ghost use Rattle.flow_program.specs.integer_laws.Range.{InRange, AllInRange};
ghost use Rattle.flow_program.specs.flow_rules.LinearProgram.{linear_of};
ghost use Rattle.flow_program.specs.flow_rules.Columns.{scale_at};
ghost use Rattle.flow_program.specs.flow_rules.Multipliers.{AreMultipliers, AreRefuting};
ghost use Rattle.flow_program.specs.flow_rules.ReadFlows.{AreRead, IsPastFlow};
ghost use Rattle.dual_simplex.specs.Rows.{table, basis};
ghost use Rattle.dual_simplex.specs.Step.{step_of};
ghost use Rattle.dual_simplex.specs.Walk.{EndsFeasible, EndsRefuting};

use crate::dual::{multipliers, refuting};
use crate::past_flow::PastFlow;
use crate::reading::read_flows;
use crate::rows::Rows;
use flow_program::Program;

/// Puts the multipliers of the cost row into the front of `ys`, and gives their scale.
pub(crate) fn read_multipliers(rows: &Rows, program: &Program, ys: &mut [i128]) -> i128
    requires feasible { EndsFeasible (linear_of program.now) rows.now }
    requires room { rows.now.rows ≤ length ys.old }
    ensures length { length ys.new ≡ length ys.old }
    ensures are { AreMultipliers (linear_of program.now)
        (table rows.now (scale_at (linear_of program.now))) result (take rows.now.rows ys.new) }
    ensures scale_in_range { InRange result }
    ensures in_range { AllInRange (take rows.now.rows ys.new) }
{
    program.is_program();
    multipliers(rows, &mut ys[..rows.rows()])
}

/// Puts the multipliers of the row that can't be met into the front of `ys`.
pub(crate) fn read_refutation(rows: &Rows, program: &Program, row: usize, ys: &mut [i128])
    requires refuting { EndsRefuting (linear_of program.now) rows.now row }
    requires room { rows.now.rows ≤ length ys.old }
    ensures length { length ys.new ≡ length ys.old }
    ensures are { AreRefuting (linear_of program.now) (table rows.now row)
        (take rows.now.rows ys.new) }
    ensures in_range { AllInRange (take rows.now.rows ys.new) }
{
    program.is_program();
    refuting(rows, row, &mut ys[..rows.rows()]);
}

/// Puts the sizes of the units into the front of `flows`, and gives their denominator.
pub(crate) fn read_sizes(
    rows: &Rows,
    program: &Program,
    flows: &mut [i128],
) -> Result<i128, PastFlow>
    requires feasible { EndsFeasible (linear_of program.now) rows.now }
    requires room { rows.now.units ≤ length flows.old }
    ensures length { length flows.new ≡ length flows.old }
    ensures read { IfOk result
        (λ d. AreRead (linear_of program.now) (basis rows.now) (table rows.now)
        (take rows.now.units flows.new) d) }
    ensures positive { IfOk result (λ d. pos 0 <ℤ d) }
    ensures den_in_range { IfOk result (λ d. InRange d) }
    ensures in_range { OnOk result (AllInRange (take rows.now.units flows.new)) }
    ensures past { IfErr result
        (λ e. IsPastFlow (linear_of program.now) (basis rows.now) (table rows.now) e.unit
        (step_of e.which)) }
    ensures unit { IfErr result (λ e. e.unit < length program.now.units) }
    ensures unchanged { OnErr result (flows.new ≡ flows.old) }
{
    program.is_program();
    read_flows(rows, program, &mut flows[..rows.units()])
}
