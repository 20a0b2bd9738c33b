// The flows of a basis without a pivot.
ghost use Rattle.std.specs.Prelude.{◌≡◌, pos, ◌<ℤ◌, length, IfErr, IfOk, OnErr, OnOk};
ghost use Rattle.flow_program.specs.integer_laws.Range.{InRange, AllInRange};
ghost use Rattle.flow_program.specs.flow_rules.LinearProgram.{linear_of};
ghost use Rattle.flow_program.specs.flow_rules.ReadFlows.{AreRead, IsPastFlow};
ghost use Rattle.dual_simplex.specs.Rows.{table, basis};
ghost use Rattle.dual_simplex.specs.Choice.{IsOfSize};
ghost use Rattle.dual_simplex.specs.Reading.{IsOwnPositive};
ghost use Rattle.dual_simplex.specs.Step.{step_of};

use crate::denominators::last_denominator;
use crate::flow_sizes::{check_sizes, put_sizes};
use crate::past_flow::PastFlow;
use crate::rows::Rows;
use flow_program::Program;

/// The sizes of the units of the program at the basis, over the denominator that is returned. They
/// are refused exactly if a number that is formed for them is out of range. The refusal names the
/// first, and leaves the flows as they were.
pub fn read_flows(rows: &Rows, program: &Program, flows: &mut [i128]) -> Result<i128, PastFlow>
    requires size { IsOfSize (linear_of program.now) rows.now }
    requires room { length flows.old ≡ rows.now.units }
    requires own { IsOwnPositive rows.now }
    ensures read { IfOk result
        (λ d. AreRead (linear_of program.now) (basis rows.now) (table rows.now) flows.new d) }
    ensures positive { IfOk result (λ d. pos 0 <ℤ d) }
    ensures d_in_range { IfOk result (λ d. InRange d) }
    ensures in_range { OnOk result (AllInRange flows.new) }
    ensures past { IfErr result
        (λ e. IsPastFlow (linear_of program.now) (basis rows.now) (table rows.now) e.unit
        (step_of e.which)) }
    ensures unchanged { OnErr result (flows.new ≡ flows.old) }
{
    let den = match last_denominator(rows) {
        Ok(den) => den,
        Err(past) => return Err(past),
    };
    if let Err(past) = check_sizes(rows, program, den) {
        return Err(past);
    }
    put_sizes(rows, program, den, flows);
    Ok(den)
}
