//! What the covers add to a charge and pay to its units.
ghost use Rattle.std.specs.Prelude.{◌≡◌, ◌<◌, ◌≤◌, ◌+◌, ◌-◌, ◌*◌, ◌^◌, ◌+ℤ◌, ◌-ℤ◌, ℕ, pos, Bool};
ghost use Rattle.std.specs.Prelude.{cond, length, map, IfSome, IfOk, IfErr, OnOk};
ghost use Rattle.structure_list.specs.number_sets.Sets.{has};
ghost use Rattle.structure_list.specs.flow_rules.Steps.{AreInRange, IsFirstPast};
ghost use Rattle.flow_program.specs.Entry.{entry};
ghost use Rattle.structure_list.specs.flow_rules.Cover.{added, weights, paid, paid_by};
ghost use Rattle.structure_list.specs.flow_rules.ChargeSteps.{added_steps, weight_steps};
ghost use Rattle.structure_list.specs.flow_rules.ChargeSteps.{paid_steps};
ghost use Rattle.structure_list.specs.pgraph.CoversView.{cover_of, covers_of};
ghost use Rattle.charges.specs.Sets.{cover_steps, IsBesideSmall, AreBesideSmall};

use crate::running::Running;
use flow_program::{PastSum, checked_difference, checked_sum};
use structure_list::{Cover, UnitSet};

/// The sum with the weight of a set, if that is about each structure.
fn with_weight(from: Running, beside: Option<u32>, weight: i128) -> Result<Running, PastSum>
    requires room { from.at + 1 < 2 ^ 32 }
    ensures value { IfOk result (λ to. to.sum ≡ from.sum +ℤ added beside weight) }
    ensures in_range { OnOk result (AreInRange (added_steps beside weight from.sum)) }
    ensures count { IfOk result (λ to. to.at
        ≡ from.at + length (added_steps beside weight from.sum)) }
    ensures small { IfOk result (λ to. to.at ≤ from.at + 1) }
    ensures from_start { IfErr result (λ e. from.at ≤ e.at) }
    ensures past { IfErr result (λ e. IsFirstPast
        (added_steps beside weight from.sum) (e.at - from.at)) }
{
    match beside {
        Some(_) => Ok(from),
        None => match checked_sum(from.sum, weight) {
            Some(sum) => Ok(Running {
                sum,
                at: from.at + 1,
            }),
            None => Err(PastSum { at: from.at }),
        },
    }
}

/// The sum with the weights of the covers.
pub(crate) fn with_weights(from: Running, covers: &[Cover]) -> Result<Running, PastSum>
    requires few { length covers.now ≤ 1000000 }
    requires room { from.at ≤ 1000000 }
    ensures value { IfOk result (λ to. to.sum ≡ from.sum +ℤ weights (covers_of covers.now)) }
    ensures in_range { OnOk result (AreInRange (weight_steps (covers_of covers.now) from.sum)) }
    ensures count { IfOk result (λ to. to.at
        ≡ from.at + length (weight_steps (covers_of covers.now) from.sum)) }
    ensures small { IfOk result (λ to. to.at ≤ from.at + 1000000) }
    ensures from_start { IfErr result (λ e. from.at ≤ e.at) }
    ensures past { IfErr result (λ e. IsFirstPast
        (weight_steps (covers_of covers.now) from.sum) (e.at - from.at)) }
{
    let mut sum = from.sum;
    let mut at = from.at;
    for cover in covers {
        match with_weight(Running { sum, at }, cover.beside, cover.weight) {
            Err(past) => return Err(past),
            Ok(next) => {
                sum = next.sum;
                at = next.at;
            }
        }
    }
    Ok(Running { sum, at })
}

/// What each unit is paid, and the number of the step that comes next.
#[derive(Drop)]
pub(crate) struct Paid {
    pub(crate) to: [i128; 128],
    pub(crate) at: u32,
}

/// With a weight for each unit of a set.
fn with_set(before: &Paid, weight: i128, units: UnitSet) -> Result<Paid, PastSum>
    requires room { before.now.at ≤ 140000000 }
    ensures value { IfOk result (λ p. (i : ℕ) → entry p.to i
        ≡ entry before.now.to i +ℤ cond (has units i) weight (pos 0)) }
    ensures in_range { OnOk result (AreInRange (map (λ i. entry before.now.to i +ℤ weight) units)) }
    ensures count { IfOk result (λ p. p.at
        ≡ before.now.at + length (map (λ i. entry before.now.to i +ℤ weight) units)) }
    ensures small { IfOk result (λ p. p.at ≤ before.now.at + 128) }
    ensures from_start { IfErr result (λ e. before.now.at ≤ e.at) }
    ensures past { IfErr result (λ e. IsFirstPast
        (map (λ i. entry before.now.to i +ℤ weight) units) (e.at - before.now.at)) }
{
    let mut to = before.to;
    let mut at = before.at;
    for u in units {
        let Some(sum) = checked_sum(before.to[u as usize], weight) else {
            return Err(PastSum { at });
        };
        to[u as usize] = sum;
        at += 1;
    }
    Ok(Paid { to, at })
}

/// What the unit beside a set is paid: as before, if it is one of the set, too.
fn either(is_one: bool, before: i128, less: i128) -> i128
    ensures { result ≡ cond is_one before less }
{
    if is_one { before } else { less }
}

/// With what a set pays.
fn with_cover(before: &Paid, cover: &Cover) -> Result<Paid, PastSum>
    requires beside { IsBesideSmall cover.now }
    requires room { before.now.at ≤ 140000000 }
    ensures value { IfOk result (λ p. (i : ℕ) → entry p.to i
        ≡ entry before.now.to i +ℤ paid_by (cover_of cover.now) i) }
    ensures in_range { OnOk result (AreInRange
        (cover_steps (entry before.now.to) (cover_of cover.now))) }
    ensures count { IfOk result (λ p. p.at
        ≡ before.now.at + length (cover_steps (entry before.now.to) (cover_of cover.now))) }
    ensures small { IfOk result (λ p. p.at ≤ before.now.at + 129) }
    ensures from_start { IfErr result (λ e. before.now.at ≤ e.at) }
    ensures past { IfErr result (λ e. IsFirstPast
        (cover_steps (entry before.now.to) (cover_of cover.now)) (e.at - before.now.at)) }
{
    match with_set(before, cover.weight, cover.units) {
        Err(past) => Err(past),
        Ok(with) => match cover.beside {
            None => Ok(with),
            Some(u) => match checked_difference(before.to[u as usize], cover.weight) {
                None => Err(PastSum { at: with.at }),
                Some(less) => {
                    let mut to = with.to;
                    to[u as usize] = either(cover.units.has(u), before.to[u as usize], less);
                    Ok(Paid {
                        to,
                        at: with.at + 1,
                    })
                }
            },
        },
    }
}

/// What the covers pay to each unit.
pub(crate) fn paid_of(start: u32, covers: &[Cover]) -> Result<Paid, PastSum>
    requires few { length covers.now ≤ 1000000 }
    requires beside { AreBesideSmall covers.now }
    requires room { start ≤ 2000000 }
    ensures value { IfOk result (λ p. (i : ℕ) → entry p.to i ≡ paid (covers_of covers.now) i) }
    ensures in_range { OnOk result (AreInRange (paid_steps (λ i. pos 0) (covers_of covers.now))) }
    ensures count { IfOk result (λ p. p.at
        ≡ start + length (paid_steps (λ i. pos 0) (covers_of covers.now))) }
    ensures small { IfOk result (λ p. p.at ≤ start + 129000000) }
    ensures from_start { IfErr result (λ e. start ≤ e.at) }
    ensures past { IfErr result (λ e. IsFirstPast
        (paid_steps (λ i. pos 0) (covers_of covers.now)) (e.at - start)) }
{
    let mut paid = Paid {
        to: [0; 128],
        at: start,
    };
    for cover in covers {
        match with_cover(&paid, cover) {
            Err(past) => return Err(past),
            Ok(next) => paid = next,
        }
    }
    Ok(paid)
}
