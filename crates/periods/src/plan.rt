//! Plans: the periods in which a plant runs.
ghost use Rattle.std.specs.Prelude.{◌≡◌, Some, None, IfOk, IfErr, length, slice_set};
ghost use Rattle.plan_laws.specs.plan_rules.Meaning.{own_period, count_fault};
ghost use Rattle.plan_laws.specs.plan_rules.Plan.{is_too_wide};

use edit_scripts::Problem;
use plan_laws::PlanKind;
use std::alloc::{AllocError, Global};
use std::marker::Model;

/// A price, a lower and an upper bound for each material, in file order and in millionths.
#[derive(Drop)]
pub struct Period {
    pub prices: Vec<i64>,
    pub lowers: Vec<i64>,
    pub uppers: Vec<i64>,
}

impl Model for Period {
    ghost use Rattle.plan_laws.specs.plan_rules.Plan as rules;

    ghost Value = { rules.Period };

    ghost view = { λ q. record {
      prices = q.prices.items;
      lowers = q.lowers.items;
      uppers =
          q.uppers.items;
    } };
}

impl Period {
    /// The problem's own prices and bounds.
    pub fn of(alloc: Global, problem: &Problem) -> Result<Period, AllocError>
        ensures { IfOk result (λ q. q ≡ own_period problem.now) }
    {
        let materials = problem.materials();
        let mut prices = Vec::new(alloc);
        let mut lowers = Vec::new(alloc);
        let mut uppers = Vec::new(alloc);
        'copying: for material in materials {
            prices.push(material.price)?;
            lowers.push(material.lower)?;
            uppers.push(material.upper)?;
        }
        Ok(Period {
            prices,
            lowers,
            uppers,
        })
    }

    /// Sets the price of the material of this number, if there is one.
    pub fn set_price(&mut self, material: u32, price: i64)
        ensures { self.new ≡ record self.old { prices = slice_set self.old.prices material price } }
    {
        set(&mut self.prices, material, price);
    }

    /// Sets both bounds of the material of this number, if there is one.
    pub fn set_bounds(&mut self, material: u32, lower: i64, upper: i64)
        ensures { self.new ≡ record self.old {
          lowers = slice_set self.old.lowers material lower;
          uppers =
              slice_set self.old.uppers material upper;
        } }
    {
        set(&mut self.lowers, material, lower);
        set(&mut self.uppers, material, upper);
    }
}

// Sets the number at a place; a place at or after the end changes nothing.
#[tactic(auto, using(std::proofs::lemmas::List::set_past))]
fn set(numbers: &mut Vec<i64>, place: u32, number: i64)
    ensures { numbers.new.items ≡ slice_set numbers.old.items place number }
{
    let place = place as usize;
    if place < numbers.len() {
        numbers[place] = number;
    }
}

/// The periods in their order.
#[derive(Drop)]
pub struct Plan {
    pub periods: Vec<Period>,
}

impl Model for Plan {
    ghost use Rattle.plan_laws.specs.plan_rules.Plan as rules;

    ghost Value = { rules.Plan };

    ghost view = { λ plan. record { periods = plan.periods.items } };
}

impl Plan {
    /// The plan of these periods, or what is wrong with their number.
    pub fn of(problem: &Problem, periods: Vec<Period>) -> Result<Plan, PlanKind>
        ensures plan { IfOk result (λ plan. plan ≡ record { periods = periods.items }) }
        ensures good { IfOk result (λ _. count_fault problem.now (length periods.items) ≡ None) }
        ensures fault { IfErr result
            (λ kind. count_fault problem.now (length periods.items) ≡ Some kind) }
    {
        if periods.is_empty() {
            Err(PlanKind::NoPeriod)
        } else if Plan::is_too_wide(problem, periods.len()) {
            Err(PlanKind::TooWide)
        } else {
            Ok(Plan { periods })
        }
    }

    /// Whether the expanded problem of a plan of so many periods has more than 128 units or 256
    /// materials.
    pub fn is_too_wide(problem: &Problem, periods: usize) -> bool
        ensures { result ≡ is_too_wide (length problem.now.units) (length problem.now.materials)
            periods }
    {
        problem.is_valid();
        let units = problem.units().len() as u128;
        let materials = problem.materials().len() as u128;
        let count = periods as u128;
        128 < units * (count + 1) || 256 < (materials + units) * count + units
    }
}
