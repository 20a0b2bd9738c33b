//! Whether the network's cost rises on a side as little as that of any structure can: then no
//! search is needed there.
ghost use Rattle.std.specs.Prelude.{◌≡◌, ◌≤◌, ◌<◌, ◌^◌, ◌*ℤ◌, neg_ℤ, true, length, unsigned_abs};
ghost use Rattle.std.specs.Prelude.{IfSome};
ghost use Rattle.stability_laws.specs.problem_rules.Problem.{unit_at};
ghost use Rattle.stability_laws.specs.problem_rules.WellFormed.{IsInRange};
ghost use Rattle.stability_laws.specs.flow_rules.Net.{million};
ghost use Rattle.stability_laws.specs.report_rules.declared.side.Side.TheVariants.{Below, Above};
ghost use Rattle.stability_laws.specs.report_rules.Spot.{KnowsSpot, valued, IsAllowedValue};
ghost use Rattle.stability_laws.specs.report_rules.Range.{cost_at};
ghost use Rattle.stability_laws.specs.report_rules.Rise.{least_left, most_left, least_rise};
ghost use Rattle.stability.specs.Desk.{IsDesk};
ghost use Rattle.stability.specs.Rise.{cost_there, least_cost};
ghost use Rattle.stability.specs.Side.{there};

use crate::case::Case;
use crate::costs::cost_in;
use crate::desk::Desk;
use solver::{Kind, Problem, Watch, checked_product, checked_sum};
use stability_laws::{Side, Spot, structures_stay};

/// An amount with the other sign.
fn negated(amount: i64) -> i64
    requires { IsInRange amount }
    ensures value { result ≡ neg_ℤ amount }
    ensures in_range { IsInRange result }
{
    -amount
}

/// The least that a structure's flows leave over of a material, below 0 if it is bought.
fn least_left(problem: &Problem, x: u32) -> i64
    requires { x < length problem.now.materials }
    ensures value { result ≡ least_left problem.now x }
    ensures in_range { IsInRange result }
{
    problem.is_valid();
    let material = &problem.materials()[x as usize];
    match material.kind {
        Kind::RawMaterial => negated(material.upper),
        Kind::Intermediate => 0,
        Kind::Product => material.lower,
    }
}

/// The most that a structure's flows leave over of a material.
fn most_left(problem: &Problem, x: u32) -> i64
    requires { x < length problem.now.materials }
    ensures value { result ≡ most_left problem.now x }
    ensures in_range { IsInRange result }
{
    problem.is_valid();
    let material = &problem.materials()[x as usize];
    match material.kind {
        Kind::RawMaterial => 0,
        Kind::Intermediate => material.upper,
        Kind::Product => material.upper,
    }
}

/// The greatest size of a unit.
fn most_of(problem: &Problem, u: u32) -> i64
    requires { u < length problem.now.units }
    ensures value { result ≡ (unit_at problem.now u).upper }
    ensures in_range { IsInRange result }
{
    problem.is_valid();
    let unit = &problem.units()[u as usize];
    unit.upper
}

/// An amount a million times.
fn millionfold(amount: i64) -> i128
    requires { IsInRange amount }
    ensures value { result ≡ million *ℤ amount }
    ensures small { unsigned_abs result ≤ 10 ^ 21 }
{
    1_000_000 * amount as i128
}

/// An amount a million times, with the other sign.
fn negated_millionfold(amount: i64) -> i128
    requires { IsInRange amount }
    ensures value { result ≡ neg_ℤ (million *ℤ amount) }
    ensures small { unsigned_abs result ≤ 10 ^ 21 }
{
    -millionfold(amount)
}

/// So much in each year of the payout period.
fn over_years(problem: &Problem, much: i128) -> i128
    requires { unsigned_abs much ≤ 10 ^ 21 }
    ensures { result ≡ problem.now.payout *ℤ much }
{
    problem.is_valid();
    problem.payout() as i128 * much
}

/// By how little a structure's cost can rise if the value is one less, over its `d`.
fn least_rise_below(problem: &Problem, spot: Spot) -> i128
    requires { KnowsSpot problem.now spot }
    ensures { result ≡ least_rise problem.now spot Below }
{
    match spot {
        Spot::Price(x) => over_years(problem, millionfold(least_left(problem, x))),
        Spot::Fix(_) => over_years(problem, -1_000_000_000_000),
        Spot::Proportional(u) => over_years(problem, negated_millionfold(most_of(problem, u))),
    }
}

/// By how little it can rise if the value is one more.
fn least_rise_above(problem: &Problem, spot: Spot) -> i128
    requires { KnowsSpot problem.now spot }
    ensures { result ≡ least_rise problem.now spot Above }
{
    match spot {
        Spot::Price(x) => over_years(problem, negated_millionfold(most_left(problem, x))),
        Spot::Fix(_) => 0,
        Spot::Proportional(_) => 0,
    }
}

fn least_rise(problem: &Problem, spot: Spot, side: Side) -> i128
    requires { KnowsSpot problem.now spot }
    ensures { result ≡ least_rise problem.now spot side }
{
    match side {
        Side::Below => least_rise_below(problem, spot),
        Side::Above => least_rise_above(problem, spot),
    }
}

impl<'a> Case<'a> {
    /// What the network costs one step away if its cost rises as little as that of any structure
    /// can.
    fn least_cost(&self, side: Side) -> Option<i128>
        ensures { IfSome result (λ least. least ≡ least_cost self.now side) }
    {
        self.is_known();
        self.network.is_sized();
        let rise = least_rise(self.problem, self.spot, side);
        let Some(more) = checked_product(rise, self.network.d()) else {
            return None;
        };
        checked_sum(self.network.cost(), more)
    }

    /// What the network costs in the problem with this value in the spot.
    fn cost_with(&self, problem: &Problem, value: i64) -> Option<i128>
        requires { problem.now ≡ valued self.now.problem self.now.spot value }
        ensures { IfSome result
            (λ cost. cost ≡ cost_at self.now.problem self.now.spot self.now.network value) }
    {
        structures_stay();
        match cost_in(problem, self.graph, self.network) {
            Ok(cost) => Some(cost),
            Err(_) => None,
        }
    }

    /// What the network costs one step away.
    fn cost_near<W: Watch>(&self, desk: &mut Desk<W>, side: Side) -> Option<i128>
        requires desk { IsDesk self.now desk.old }
        requires allowed { IsAllowedValue self.now.spot (there self.now side 1) }
        ensures cost { IfSome result (λ cost. cost ≡ cost_there self.now side 1) }
        ensures desk { IsDesk self.now desk.new }
    {
        let value = self.value(side, 1);
        desk.set(self, value);
        self.cost_with(desk.problem(), value)
    }

    /// Whether the network costs as little more one step away as any structure can.
    pub(crate) fn rises_least<W: Watch>(&self, desk: &mut Desk<W>, side: Side) -> bool
        requires desk { IsDesk self.now desk.old }
        requires allowed { IsAllowedValue self.now.spot (there self.now side 1) }
        ensures least { result ≡ true → cost_there self.now side 1 ≡ least_cost self.now side }
        ensures desk { IsDesk self.now desk.new }
    {
        match (self.cost_near(desk, side), self.least_cost(side)) {
            (Some(cost), Some(least)) => cost == least,
            _ => false,
        }
    }
}
