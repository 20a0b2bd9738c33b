//! The use of a material that is asked for.
ghost use Rattle.std.specs.Prelude.{◌≡◌, ◌<◌, ◌≤◌, ◌+◌, ◌-◌, ◌^◌, ◌+ℤ◌, ◌-ℤ◌, ◌*ℤ◌, length, IfOk};
ghost use Rattle.std.specs.Prelude.{IfErr, OnOk};
ghost use Rattle.structure_list.specs.flow_rules.Net.{net_of};
ghost use Rattle.structure_list.specs.flow_rules.Steps.{AreInRange, IsFirstPast};
ghost use Rattle.structure_list.specs.flow_rules.Charge.{demanded};
ghost use Rattle.structure_list.specs.flow_rules.ChargeSteps.{demand_steps};
ghost use Rattle.charges.specs.Known.{asked_of, facts_of};
ghost use Rattle.charges.specs.Columns.{worth_asked, rate_asked, used_steps};

use crate::facts::{Demand, Facts};
use crate::products::quick_product;
use crate::running::Running;
use crate::useful::{rate_of, use_rate_of};
use flow_program::{PastSum, checked_difference, checked_sum};
use structure_list::Site;

/// What the use of a material is worth, and the rate at which a unit uses it.
#[derive(Clone, Copy)]
pub(crate) struct Used {
    pub(crate) worth: i128,
    pub(crate) rate: i128,
}

/// What a unit uses of the material that is asked for.
pub(crate) fn used_by(site: &Site<'_>, facts: &Facts, u: u32) -> Used
    requires { u < length site.now.units }
    ensures worth { result.worth ≡ worth_asked (facts_of facts.now).demand }
    ensures rate { result.rate ≡ rate_asked (net_of site.now) (facts_of facts.now).demand u }
{
    match facts.demand() {
        None => Used { worth: 0, rate: 0 },
        Some(asked) => Used {
            worth: asked.worth,
            rate: use_rate_of(rate_of(site, asked.of, u)) as i128,
        },
    }
}

/// The cost of a size, less what its use is worth. Nothing is formed if it uses nothing.
pub(crate) fn less_use(from: Running, used: Used) -> Result<Running, PastSum>
    requires room { from.at + 2 < 2 ^ 32 }
    ensures value { IfOk result (λ to. to.sum ≡ from.sum -ℤ used.worth *ℤ used.rate) }
    ensures in_range { OnOk result (AreInRange (used_steps used.worth used.rate from.sum)) }
    ensures count { IfOk result (λ to. to.at
        ≡ from.at + length (used_steps used.worth used.rate from.sum)) }
    ensures small { IfOk result (λ to. to.at ≤ from.at + 2) }
    ensures from_start { IfErr result (λ e. from.at ≤ e.at) }
    ensures past { IfErr result (λ e. IsFirstPast
        (used_steps used.worth used.rate from.sum) (e.at - from.at)) }
{
    if used.rate == 0 {
        return Ok(from);
    }
    let Some(worth) = quick_product(used.worth, used.rate) else {
        return Err(PastSum { at: from.at });
    };
    match checked_difference(from.sum, worth) {
        Some(sum) => Ok(Running {
            sum,
            at: from.at + 2,
        }),
        None => Err(PastSum { at: from.at + 1 }),
    }
}

/// The sum with what all the use is worth that is asked for.
pub(crate) fn with_worth(from: Running, demand: Option<Demand>) -> Result<Running, PastSum>
    requires room { from.at + 3 < 2 ^ 32 }
    ensures value { IfOk result (λ to. to.sum ≡ from.sum +ℤ demanded (asked_of demand)) }
    ensures in_range { OnOk result (AreInRange (demand_steps (asked_of demand) from.sum)) }
    ensures count { IfOk result (λ to. to.at
        ≡ from.at + length (demand_steps (asked_of demand) from.sum)) }
    ensures small { IfOk result (λ to. to.at ≤ from.at + 3) }
    ensures from_start { IfErr result (λ e. from.at ≤ e.at) }
    ensures past { IfErr result (λ e. IsFirstPast
        (demand_steps (asked_of demand) from.sum) (e.at - from.at)) }
{
    let Some(asked) = demand else {
        return Ok(from);
    };
    let Some(amount) = quick_product(1_000_000, asked.amount) else {
        return Err(PastSum { at: from.at });
    };
    let Some(worth) = quick_product(asked.worth, amount) else {
        return Err(PastSum { at: from.at + 1 });
    };
    match checked_sum(from.sum, worth) {
        Some(sum) => Ok(Running {
            sum,
            at: from.at + 3,
        }),
        None => Err(PastSum { at: from.at + 2 }),
    }
}
