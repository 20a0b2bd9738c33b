// The first round of a reading: the common denominator of the values of the units.
ghost use Rattle.std.specs.Prelude.{◌≡◌, ◌<◌, ℕ, suc, true, pos, ◌<ℤ◌, unsigned_abs, IfErr, IfNone};
ghost use Rattle.std.specs.Prelude.{IfOk, IfSome};
ghost use Rattle.flow_program.specs.integer_laws.Range.{InRange};
ghost use Rattle.flow_program.specs.flow_rules.LinearProgram.{LinearProgram};
ghost use Rattle.flow_program.specs.flow_rules.ReadFlows.{rounds};
ghost use Rattle.dual_simplex.specs.Rows.{table, basis};
ghost use Rattle.dual_simplex.specs.Reading.{IsOwnPositive, Reading, IsFormedTo, IsFirstOut};
ghost use Rattle.dual_simplex.specs.Reading.{formed_of, second_round};
ghost use Rattle.dual_simplex.specs.Step.{step_of};

use crate::multiple::checked_lcm;
use crate::past_flow::PastFlow;
use crate::rows::Rows;
use flow_program::{FlowStep, lowest_terms};

/// The common denominator after a unit, from the one before it; or `None` if it is out of range.
fn next_denominator(rows: &Rows, unit: usize, den: i128) -> Option<i128>
    requires unit { unit < rows.now.units }
    requires own { IsOwnPositive rows.now }
    requires positive { pos 0 <ℤ den }
    requires in_range { InRange den }
    ensures found { IfSome result
        (λ next. (p : LinearProgram) (v : Reading p rows.now) → den ≡ v.den unit
        → next ≡ v.den (suc unit)) }
    ensures positive { IfSome result (λ next. pos 0 <ℤ next) }
    ensures in_range { IfSome result (λ next. InRange next) }
    ensures basic { IfNone result (basis rows.now unit ≡ true) }
    ensures past { IfNone result
        ((p : LinearProgram) (v : Reading p rows.now) → den ≡ v.den unit
        → ¬ InRange (v.den (suc unit))) }
{
    if !rows.is_basic(unit) {
        return Some(den);
    }
    let (_, own) = lowest_terms(rows.entry(unit, rows.right_at()), rows.entry(unit, unit));
    checked_lcm(den, own)
}

/// The common denominator of all units.
pub(crate) fn last_denominator(rows: &Rows) -> Result<i128, PastFlow>
    requires own { IsOwnPositive rows.now }
    ensures last { IfOk result
        (λ d. (p : LinearProgram) (v : Reading p rows.now) → d ≡ v.den rows.now.units) }
    ensures positive { IfOk result (λ d. pos 0 <ℤ d) }
    ensures in_range { IfOk result (λ d. InRange d) }
    ensures formed { IfOk result
        (λ d. (p : LinearProgram) (v : Reading p rows.now)
        → IsFormedTo (formed_of v) (rounds p (basis rows.now)) (second_round rows.now)) }
    ensures past { IfErr result
        (λ e. (p : LinearProgram) (v : Reading p rows.now)
        → IsFirstOut (formed_of v) (rounds p (basis rows.now))
        (record { unit = e.unit; step = step_of e.which })) }
{
    let mut den = 1;
    for unit in 0..rows.units() {
        let Some(next) = next_denominator(rows, unit, den) else {
            return Err(PastFlow {
                unit,
                which: FlowStep::Lcm,
            });
        };
        den = next;
    }
    Ok(den)
}
