// The second round of a reading: the sizes of the units over the common denominator.
ghost use Rattle.std.specs.Prelude.{◌≡◌, ◌<◌, ℕ, pos, ◌<ℤ◌, length, map, slice_index_or, IfErr};
ghost use Rattle.std.specs.Prelude.{IfOk, OnOk};
ghost use Rattle.std.specs.Option.{SomeIff};
ghost use Rattle.flow_program.specs.integer_laws.Range.{InRange, AllInRange};
ghost use Rattle.flow_program.specs.flow_rules.Steps.{AreInRange};
ghost use Rattle.flow_program.specs.flow_rules.LinearProgram.{LinearProgram, linear_of};
ghost use Rattle.flow_program.specs.flow_rules.ReadFlows.{size, size_above};
ghost use Rattle.dual_simplex.specs.Choice.{IsOfSize};
ghost use Rattle.dual_simplex.specs.Reading.{IsOwnPositive, Reading, IsFirstOut, formed_of};
ghost use Rattle.dual_simplex.specs.Reading.{size_steps, second_round};
ghost use Rattle.dual_simplex.specs.Step.{step_of};

use crate::division::quotient;
use crate::past_flow::PastFlow;
use crate::rows::Rows;
use flow_program::{FlowStep, Program, checked_product, checked_sum, lowest_terms};

/// The size of a unit above its least, over the common denominator; `None` exactly if it is out of
/// range.
fn checked_size_above(rows: &Rows, den: i128, unit: usize) -> Option<i128>
    requires unit { unit < rows.now.units }
    requires own { IsOwnPositive rows.now }
    requires in_range { InRange den }
    requires den { (p : LinearProgram) (v : Reading p rows.now) → den ≡ v.den rows.now.units }
    ensures { (p : LinearProgram) (v : Reading p rows.now)
        → SomeIff result (InRange (size_above p v.own v.right v.den unit))
        (size_above p v.own v.right v.den unit) }
{
    if !rows.is_basic(unit) {
        return Some(0);
    }
    let (right, own) = lowest_terms(rows.entry(unit, rows.right_at()), rows.entry(unit, unit));
    checked_product(quotient(den, own), right)
}

/// The size of a unit over the common denominator, or the first number on the way that is out of
/// range.
fn checked_size(rows: &Rows, program: &Program, den: i128, unit: usize) -> Result<i128, FlowStep>
    requires unit { unit < rows.now.units }
    requires size { IsOfSize (linear_of program.now) rows.now }
    requires own { IsOwnPositive rows.now }
    requires in_range { InRange den }
    requires den { (p : LinearProgram) (v : Reading p rows.now) → den ≡ v.den rows.now.units }
    ensures size { IfOk result
        (λ z. (v : Reading (linear_of program.now) rows.now)
        → z ≡ size (linear_of program.now) v.own v.right v.den unit) }
    ensures size_in_range { IfOk result (λ z. InRange z) }
    ensures in_range { IfOk result
        (λ z. (v : Reading (linear_of program.now) rows.now)
        → AreInRange (map (formed_of v) (size_steps unit))) }
    ensures past { IfErr result
        (λ step. (v : Reading (linear_of program.now) rows.now)
        → IsFirstOut (formed_of v) (size_steps unit)
        (record { unit = unit; step = step_of step })) }
{
    program.is_program();
    let Some(shift) = checked_product(program.lows()[unit], den) else {
        return Err(FlowStep::Shift);
    };
    let Some(above) = checked_size_above(rows, den, unit) else {
        return Err(FlowStep::Scaled);
    };
    match checked_sum(shift, above) {
        Some(total) => Ok(total),
        None => Err(FlowStep::Total),
    }
}

/// Whether all numbers of the second round are in range, or the first that is not.
pub(crate) fn check_sizes(rows: &Rows, program: &Program, den: i128) -> Result<(), PastFlow>
    requires size { IsOfSize (linear_of program.now) rows.now }
    requires own { IsOwnPositive rows.now }
    requires in_range { InRange den }
    requires den { (p : LinearProgram) (v : Reading p rows.now) → den ≡ v.den rows.now.units }
    ensures in_range { OnOk result
        ((v : Reading (linear_of program.now) rows.now)
        → AreInRange (map (formed_of v) (second_round rows.now))) }
    ensures past { IfErr result
        (λ e. (v : Reading (linear_of program.now) rows.now)
        → IsFirstOut (formed_of v) (second_round rows.now)
        (record { unit = e.unit; step = step_of e.which })) }
{
    for unit in 0..rows.units() {
        if let Err(which) = checked_size(rows, program, den, unit) {
            return Err(PastFlow { unit, which });
        }
    }
    Ok(())
}

/// The size of a unit, if no number on the way is out of range.
fn size_within(rows: &Rows, program: &Program, den: i128, unit: usize) -> i128
    requires unit { unit < rows.now.units }
    requires size { IsOfSize (linear_of program.now) rows.now }
    requires own { IsOwnPositive rows.now }
    requires in_range { InRange den }
    requires den { (p : LinearProgram) (v : Reading p rows.now) → den ≡ v.den rows.now.units }
    requires sizes { (v : Reading (linear_of program.now) rows.now)
        → AreInRange (map (formed_of v) (second_round rows.now)) }
    ensures size { (v : Reading (linear_of program.now) rows.now)
        → result ≡ size (linear_of program.now) v.own v.right v.den unit }
    ensures in_range { InRange result }
{
    match checked_size(rows, program, den, unit) {
        Ok(size) => size,
        Err(_) => unreachable!(),
    }
}

/// Puts the sizes, if all numbers of the second round are in range.
pub(crate) fn put_sizes(rows: &Rows, program: &Program, den: i128, flows: &mut [i128])
    requires room { length flows.old ≡ rows.now.units }
    requires size { IsOfSize (linear_of program.now) rows.now }
    requires own { IsOwnPositive rows.now }
    requires in_range { InRange den }
    requires den { (p : LinearProgram) (v : Reading p rows.now) → den ≡ v.den rows.now.units }
    requires sizes { (v : Reading (linear_of program.now) rows.now)
        → AreInRange (map (formed_of v) (second_round rows.now)) }
    ensures sizes { (v : Reading (linear_of program.now) rows.now) (unit : ℕ)
        → unit < rows.now.units
        → slice_index_or flows.new unit (pos 0)
        ≡ size (linear_of program.now) v.own v.right v.den unit }
    ensures in_range { AllInRange flows.new }
{
    for unit in 0..flows.len() {
        flows[unit] = size_within(rows, program, den, unit);
    }
}
