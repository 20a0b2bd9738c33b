//! What the knees of a unit leave of what it owes.
ghost use Rattle.std.specs.Prelude.{◌≡◌, ◌<◌, ◌≤◌, ◌+◌, ◌-◌, ◌*◌, ◌^◌, ◌+ℤ◌, ◌-ℤ◌, ◌*ℤ◌, ◌<ℤ◌, ℕ};
ghost use Rattle.std.specs.Prelude.{pos, neg_ℤ, not, length, IfOk, IfErr, OnOk};
ghost use Rattle.std.specs.Int.{int_min};
ghost use Rattle.std.specs.Ordering.{int_eq};
ghost use Rattle.structure_list.specs.flow_rules.Steps.{AreInRange, IsFirstPast};
ghost use Rattle.structure_list.specs.flow_rules.Charge.{bent, counted};
ghost use Rattle.structure_list.specs.flow_rules.ChargeSteps.{knee_steps};
ghost use Rattle.charges.specs.Bends.{as_owed, knee, three_steps, knees_in};

use crate::knees::{Knees, first_knee};
use crate::products::quick_product;
use flow_program::{PastSum, checked_difference, checked_sum};

/// What is left of the cost of a size, and what the unit owes on top of it.
#[derive(Clone, Copy)]
pub(crate) struct Owed {
    pub(crate) each: i128,
    pub(crate) once: i128,
}

/// Between which sizes a unit is.
#[derive(Clone, Copy)]
pub(crate) struct Sizes {
    pub(crate) low: i128,
    pub(crate) high: i128,
}

/// How much of a worth brings a cost below 0 up to 0.
fn wanted(each: i128, worth: i128) -> i128
    requires { each <ℤ pos 0 }
    ensures { result ≡ int_min (neg_ℤ each) worth }
{
    if each == i128::MIN {
        worth
    } else if -each <= worth {
        -each
    } else {
        worth
    }
}

/// How much of a knee's worth counts.
fn counted(sizes: Sizes, each: i128, at: i128, worth: i128) -> i128
    ensures { result ≡ counted sizes.low sizes.high each (knee at worth) }
{
    if at <= sizes.low {
        worth
    } else if each < 0 && at < sizes.high {
        wanted(each, worth)
    } else {
        0
    }
}

/// Whether anything counts.
fn is_some(part: i128) -> bool
    ensures { result ≡ not (int_eq part (pos 0)) }
{
    part != 0
}

/// What is owed with so much of a worth and less its product with the size.
fn with_knee(start: u32, owed: Owed, counted: i128, at: i128) -> Result<Owed, PastSum>
    requires room { start + 3 < 2 ^ 32 }
    ensures each { IfOk result (λ to. to.each ≡ owed.each +ℤ counted) }
    ensures once { IfOk result (λ to. to.once ≡ owed.once -ℤ counted *ℤ at) }
    ensures in_range { OnOk result (AreInRange (three_steps counted at owed.each owed.once)) }
    ensures from_start { IfErr result (λ e. start ≤ e.at) }
    ensures past { IfErr result (λ e. IsFirstPast
        (three_steps counted at owed.each owed.once) (e.at - start)) }
{
    let Some(product) = quick_product(counted, at) else {
        return Err(PastSum { at: start });
    };
    let Some(once) = checked_difference(owed.once, product) else {
        return Err(PastSum { at: start + 1 });
    };
    match checked_sum(owed.each, counted) {
        Some(each) => Ok(Owed { each, once }),
        None => Err(PastSum { at: start + 2 }),
    }
}

/// What the knees leave, and the number of the step that comes next.
pub(crate) fn bent(
    start: u32,
    owed: Owed,
    sizes: Sizes,
    knees: &Knees,
) -> Result<(Owed, u32), PastSum>
    requires room { start ≤ 400000000 }
    ensures value { IfOk result (λ p. as_owed p.0
        ≡ bent sizes.low sizes.high (knees_in knees.now knees.now.set) (as_owed owed)) }
    ensures in_range { OnOk result (AreInRange
        (knee_steps sizes.low sizes.high (knees_in knees.now knees.now.set) (as_owed owed))) }
    ensures count { IfOk result (λ p. p.1 ≡ start + length
        (knee_steps sizes.low sizes.high (knees_in knees.now knees.now.set) (as_owed owed))) }
    ensures small { IfOk result (λ p. p.1 ≤ start + 768) }
    ensures from_start { IfErr result (λ e. start ≤ e.at) }
    ensures past { IfErr result (λ e. IsFirstPast
        (knee_steps sizes.low sizes.high (knees_in knees.now knees.now.set) (as_owed owed))
        (e.at - start)) }
{
    knees.set.rises();
    let mut left = knees.set;
    let mut rest = owed;
    let mut at = start;
    'bending: loop {
        left.rises();
        let Some(j) = first_knee(&knees.at, left) else {
            return Ok((rest, at));
        };
        let size = knees.at[j as usize];
        let part = counted(sizes, rest.each, size, knees.worth[j as usize]);
        let counts = is_some(part);
        if counts {
            match with_knee(at, rest, part, size) {
                Err(past) => return Err(past),
                Ok(next) => rest = next,
            }
            at += 3;
        }
        left = left.without(j);
    }
}
