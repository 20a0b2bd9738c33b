//! The part of a unit in a charge.
ghost use Rattle.std.specs.Prelude.{◌≡◌, ◌<◌, ◌≤◌, ◌+◌, ◌-◌, ◌*◌, ◌^◌, ◌+ℤ◌, ◌-ℤ◌, ◌*ℤ◌, ℕ, pos};
ghost use Rattle.std.specs.Prelude.{int_lt, ◌||◌, [], ◌∷◌, length, unsigned_abs, IfOk, IfErr, OnOk};
ghost use Rattle.structure_list.specs.pns_rules.Shape.{shape_of};
ghost use Rattle.structure_list.specs.flow_rules.Net.{net_of, trillion, size_cost};
ghost use Rattle.structure_list.specs.flow_rules.Steps.{AreInRange, IsFirstPast};
ghost use Rattle.structure_list.specs.flow_rules.BoundSteps.{reduced_steps};
ghost use Rattle.flow_program.specs.Columns.{left_of};
ghost use Rattle.flow_program.specs.Entry.{entry};
ghost use Rattle.flow_program.specs.Rates.{AreRates};
ghost use Rattle.structure_list.specs.flow_rules.Charge.{bent, least_owed, or_none};
ghost use Rattle.structure_list.specs.flow_rules.ChargeSteps.{knee_steps, size_steps, sum_steps};
ghost use Rattle.charges.specs.Bends.{as_owed, knees_in};
ghost use Rattle.charges.specs.Columns.{each_in, each_steps, owed_in, owed_steps, bent_steps};
ghost use Rattle.charges.specs.Columns.{charge_in, column_steps};

use crate::asked::{Used, less_use};
use crate::bending::{Owed, Sizes, bent};
use crate::knees::Knees;
use crate::products::{quick_product, with_least};
use crate::running::Running;
use flow_program::{PastSum, checked_difference, checked_sum, fixed_costs, unit_numbers};
use structure_list::{MatSet, Node, Problem, UnitSet};

/// The multiplier of the cost, and those of the rows by material.
#[derive(Drop)]
pub(crate) struct Multipliers {
    pub(crate) d: i128,
    pub(crate) ys: [i128; 256],
}

/// What a unit of size 1 costs, its fixed cost aside, and what it costs to be there.
#[derive(Clone, Copy)]
pub struct Costs {
    pub size: i128,
    pub fixed: i128,
}

/// The costs of a unit. They are those of a node that takes in this unit alone.
pub fn costs_of(problem: &Problem, u: u32, materials: MatSet, rates: &[i64]) -> Costs
    requires unit { u < length problem.now.units }
    requires rates { AreRates problem.now u materials rates.now }
    ensures size { result.size ≡ size_cost (net_of problem.now) u }
    ensures fixed { result.fixed ≡ (net_of problem.now).fix u *ℤ trillion }
{
    problem.is_valid();
    let alone = UnitSet::empty().with(u);
    let node = Node {
        inside: alone,
        outside: UnitSet::empty(),
    };
    Costs {
        size: unit_numbers(problem, &node, u, materials, rates).cost,
        fixed: fixed_costs(problem, alone),
    }
}

/// What is read of a unit: whether it is taken in, its costs, what it uses of the material that is
/// asked for, what the covers pay to it, and its sizes.
#[derive(Clone, Copy)]
pub(crate) struct Terms {
    pub(crate) is_in: bool,
    pub(crate) costs: Costs,
    pub(crate) used: Used,
    pub(crate) paid: i128,
    pub(crate) sizes: Sizes,
}

/// What is left of a cost after the rows of the materials have paid, and the number of the step
/// that comes next.
fn reduced(
    start: u32,
    cost: i128,
    materials: MatSet,
    rates: &[i64],
    ys: &[i128],
) -> Result<(i128, u32), PastSum>
    requires all_rates { length rates.now ≡ 256 }
    requires all_ys { length ys.now ≡ 256 }
    requires room { start ≤ 300000000 }
    ensures value { IfOk result (λ p. p.0
        ≡ left_of (entry ys.now) (entry rates.now) materials cost) }
    ensures in_range { OnOk result (AreInRange
        (reduced_steps (entry ys.now) (entry rates.now) materials cost)) }
    ensures count { IfOk result (λ p. p.1
        ≡ start + length (reduced_steps (entry ys.now) (entry rates.now) materials cost)) }
    ensures small { IfOk result (λ p. p.1 ≤ start + 512) }
    ensures from_start { IfErr result (λ e. start ≤ e.at) }
    ensures past { IfErr result (λ e. IsFirstPast
        (reduced_steps (entry ys.now) (entry rates.now) materials cost) (e.at - start)) }
{
    let mut rest = cost;
    let mut at = start;
    for j in materials {
        let Some(paid) = quick_product(ys[j as usize], rates[j as usize] as i128) else {
            return Err(PastSum { at });
        };
        let Some(difference) = checked_difference(rest, paid) else {
            return Err(PastSum { at: at + 1 });
        };
        rest = difference;
        at += 2;
    }
    Ok((rest, at))
}

/// What a unit owes for being there, less what the covers pay to it.
fn once_of(start: u32, d: i128, fixed: i128, paid: i128) -> Result<i128, PastSum>
    requires room { start + 2 < 2 ^ 32 }
    ensures value { IfOk result (λ once. once ≡ d *ℤ fixed -ℤ paid) }
    ensures in_range { OnOk result (AreInRange ((d *ℤ fixed) ∷ (d *ℤ fixed -ℤ paid) ∷ [])) }
    ensures from_start { IfErr result (λ e. start ≤ e.at) }
    ensures past { IfErr result (λ e. IsFirstPast
        ((d *ℤ fixed) ∷ (d *ℤ fixed -ℤ paid) ∷ []) (e.at - start)) }
{
    let Some(whole) = quick_product(d, fixed) else {
        return Err(PastSum { at: start });
    };
    match checked_difference(whole, paid) {
        Some(once) => Ok(once),
        None => Err(PastSum { at: start + 1 }),
    }
}

/// What is left of the cost of a size of a unit.
fn each_of(
    start: u32,
    multipliers: &Multipliers,
    terms: Terms,
    materials: MatSet,
    rates: &[i64],
) -> Result<Running, PastSum>
    requires all_rates { length rates.now ≡ 256 }
    requires room { start ≤ 200000000 }
    ensures value { IfOk result (λ to. to.sum ≡ each_in terms multipliers.now.d
        (entry multipliers.now.ys) (entry rates.now) materials) }
    ensures in_range { OnOk result (AreInRange (each_steps terms multipliers.now.d
        (entry multipliers.now.ys) (entry rates.now) materials)) }
    ensures count { IfOk result (λ to. to.at ≡ start + length (each_steps terms multipliers.now.d
        (entry multipliers.now.ys) (entry rates.now) materials)) }
    ensures small { IfOk result (λ to. to.at ≤ start + 515) }
    ensures from_start { IfErr result (λ e. start ≤ e.at) }
    ensures past { IfErr result (λ e. IsFirstPast (each_steps terms multipliers.now.d
        (entry multipliers.now.ys) (entry rates.now) materials) (e.at - start)) }
{
    let Some(cost) = quick_product(multipliers.d, terms.costs.size) else {
        return Err(PastSum { at: start });
    };
    match reduced(start + 1, cost, materials, rates, &multipliers.ys) {
        Err(past) => Err(past),
        Ok((rest, at)) => match less_use(Running { sum: rest, at }, terms.used) {
            Err(past) => Err(past),
            Ok(to) => Ok(to),
        },
    }
}

/// What a unit owes before its knees, and the number of the step that comes next.
fn owed_of(
    start: u32,
    multipliers: &Multipliers,
    terms: Terms,
    materials: MatSet,
    rates: &[i64],
) -> Result<(Owed, u32), PastSum>
    requires all_rates { length rates.now ≡ 256 }
    requires room { start ≤ 200000000 }
    ensures value { IfOk result (λ p. as_owed p.0 ≡ owed_in terms multipliers.now.d
        (entry multipliers.now.ys) (entry rates.now) materials) }
    ensures in_range { OnOk result (AreInRange (owed_steps terms multipliers.now.d
        (entry multipliers.now.ys) (entry rates.now) materials)) }
    ensures count { IfOk result (λ p. p.1 ≡ start + length (owed_steps terms multipliers.now.d
        (entry multipliers.now.ys) (entry rates.now) materials)) }
    ensures small { IfOk result (λ p. p.1 ≤ start + 517) }
    ensures from_start { IfErr result (λ e. start ≤ e.at) }
    ensures past { IfErr result (λ e. IsFirstPast (owed_steps terms multipliers.now.d
        (entry multipliers.now.ys) (entry rates.now) materials) (e.at - start)) }
{
    match each_of(start, multipliers, terms, materials, rates) {
        Err(past) => Err(past),
        Ok(left) => match once_of(left.at, multipliers.d, terms.costs.fixed, terms.paid) {
            Err(past) => Err(past),
            Ok(once) => Ok((
                Owed {
                    each: left.sum,
                    once,
                },
                left.at + 2,
            )),
        },
    }
}

/// The least that is owed at some size, and the number of the step that comes next.
fn least_of(start: u32, owed: Owed, sizes: Sizes, knees: &Knees) -> Result<Running, PastSum>
    requires room { start ≤ 300000000 }
    ensures value { IfOk result (λ to. to.sum
        ≡ charge_in sizes.low sizes.high (knees_in knees.now knees.now.set) (as_owed owed)) }
    ensures in_range { OnOk result (AreInRange
        (bent_steps sizes.low sizes.high (knees_in knees.now knees.now.set) (as_owed owed))) }
    ensures count { IfOk result (λ to. to.at ≡ start + length
        (bent_steps sizes.low sizes.high (knees_in knees.now knees.now.set) (as_owed owed))) }
    ensures small { IfOk result (λ to. to.at ≤ start + 770) }
    ensures from_start { IfErr result (λ e. start ≤ e.at) }
    ensures past { IfErr result (λ e. IsFirstPast
        (bent_steps sizes.low sizes.high (knees_in knees.now knees.now.set) (as_owed owed))
        (e.at - start)) }
{
    match bent(start, owed, sizes, knees) {
        Err(past) => Err(past),
        Ok((left, at)) => {
            let from = Running { sum: left.once, at };
            match with_least(from, left.each, sizes.low, sizes.high) {
                Err(past) => Err(past),
                Ok(to) => Ok(to),
            }
        }
    }
}

/// Whether the part of a unit is added to the sum: always if it is taken in, else if the part is
/// below 0.
fn adds(is_in: bool, part: i128) -> bool
    ensures { result ≡ (is_in || int_lt part (pos 0)) }
{
    is_in || part < 0
}

/// The sum with the part of a unit that owes so much: a free unit may owe nothing.
fn with_part(from: Running, is_in: bool, part: i128) -> Result<Running, PastSum>
    requires room { from.at + 2 < 2 ^ 32 }
    ensures value { IfOk result (λ to. to.sum ≡ from.sum +ℤ or_none is_in part) }
    ensures in_range { OnOk result (AreInRange (sum_steps is_in part from.sum)) }
    ensures count { IfOk result (λ to. to.at ≡ from.at + length (sum_steps is_in part from.sum)) }
    ensures small { IfOk result (λ to. to.at ≤ from.at + 1) }
    ensures from_start { IfErr result (λ e. from.at ≤ e.at) }
    ensures past { IfErr result (λ e. IsFirstPast
        (sum_steps is_in part from.sum) (e.at - from.at)) }
{
    let adds = adds(is_in, part);
    if adds {
        match checked_sum(from.sum, part) {
            Some(sum) => Ok(Running {
                sum,
                at: from.at + 1,
            }),
            None => Err(PastSum { at: from.at }),
        }
    } else {
        Ok(from)
    }
}

/// The sum with the part of a unit.
pub(crate) fn with_unit(
    from: Running,
    multipliers: &Multipliers,
    terms: Terms,
    materials: MatSet,
    rates: &[i64],
    knees: &Knees,
) -> Result<Running, PastSum>
    requires all_rates { length rates.now ≡ 256 }
    requires room { from.at ≤ 200000000 }
    ensures value { IfOk result (λ to. to.sum ≡ from.sum +ℤ or_none terms.is_in
        (charge_in terms.sizes.low terms.sizes.high (knees_in knees.now knees.now.set)
        (owed_in terms multipliers.now.d (entry multipliers.now.ys) (entry rates.now)
        materials))) }
    ensures in_range { OnOk result (AreInRange
        (column_steps terms (knees_in knees.now knees.now.set) multipliers.now.d
        (entry multipliers.now.ys) (entry rates.now) materials from.sum)) }
    ensures count { IfOk result (λ to. to.at ≡ from.at + length
        (column_steps terms (knees_in knees.now knees.now.set) multipliers.now.d
        (entry multipliers.now.ys) (entry rates.now) materials from.sum)) }
    ensures small { IfOk result (λ to. to.at ≤ from.at + 1290) }
    ensures from_start { IfErr result (λ e. from.at ≤ e.at) }
    ensures past { IfErr result (λ e. IsFirstPast
        (column_steps terms (knees_in knees.now knees.now.set) multipliers.now.d
        (entry multipliers.now.ys) (entry rates.now) materials from.sum)
        (e.at - from.at)) }
{
    match owed_of(from.at, multipliers, terms, materials, rates) {
        Err(past) => Err(past),
        Ok((owed, at)) => match least_of(at, owed, terms.sizes, knees) {
            Err(past) => Err(past),
            Ok(part) => {
                let before = Running {
                    sum: from.sum,
                    at: part.at,
                };
                match with_part(before, terms.is_in, part.sum) {
                    Err(past) => Err(past),
                    Ok(to) => Ok(to),
                }
            }
        },
    }
}
