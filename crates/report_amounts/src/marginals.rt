//! What one more of a material costs, and what one more of a unit's size saves.
ghost use Rattle.std.specs.Prelude.{◌≡◌, ◌<◌, ◌≤ℤ◌, ◌*ℤ◌, pos, neg_ℤ, length, None, Some};
ghost use Rattle.report_rules.specs.integer_laws.Range.{InRange, AllInRange};
ghost use Rattle.report_rules.specs.problem_rules.Problem.{unit_at};
ghost use Rattle.report_rules.specs.flow_rules.Net.{beside, million};
ghost use Rattle.report_rules.specs.Amounts.{quotient, price};
ghost use Rattle.report_rules.specs.Marginal as rules;

use crate::amounts::{millionths, quotient, unit_of, year};
use crate::number::Number;
use flow_evaluator::{MatSet, Problem, Scaled, rate_at};
use std::marker::Model;

/// Materials, and a multiplier for each, in rising order of materials.
#[derive(Drop)]
pub struct Multipliers {
    rows: MatSet,
    bound: Scaled,
}

impl Model for Multipliers {
    ghost use Rattle.std.specs.Prelude.{◌≤ℤ◌, pos};
    ghost use Rattle.report_rules.specs.Marginal as rules;

    ghost Value = { rules.Multipliers };

    ghost view = { λ m. record { rows = m.rows; d = m.bound.d; ys = m.bound.ys } };

    ghost invariant = { λ m. pos 1 ≤ℤ m.bound.d };
}

impl Multipliers {
    /// The multipliers of a bound, one for each of the rows.
    pub fn of(rows: MatSet, bound: Scaled) -> Multipliers
        requires { pos 1 ≤ℤ bound.d }
        ensures { result ≡ record { rows = rows; d = bound.d; ys = bound.ys } }
    {
        Multipliers { rows, bound }
    }

    /// The materials.
    fn rows(&self) -> MatSet
        ensures { result ≡ self.now.rows }
    {
        self.rows
    }

    /// What the multipliers are over.
    fn d(&self) -> i128
        ensures value { result ≡ self.now.d }
        ensures in_range { InRange result }
        ensures positive { pos 1 ≤ℤ result }
    {
        self.bound.are_in_range();
        self.bound.d()
    }

    /// The multiplier of the material, 0 if it has none.
    fn at(&self, j: u32) -> i128
        ensures value { result ≡ rules.multiplier self.now j }
        ensures in_range { InRange result }
    {
        self.bound.are_in_range();
        beside(self.rows, self.bound.ys(), j)
    }
}

/// The value at the place of the material in the set, 0 if the set does not have it.
fn beside(set: MatSet, values: &[i128], j: u32) -> i128
    requires { AllInRange values.now }
    ensures value { result ≡ beside set values.now j }
    ensures in_range { InRange result }
{
    let mut left = set;
    'rows: for value in values {
        let Some(row) = left.take_least() else {
            return 0;
        };
        if row == j {
            return *value;
        }
    }
    0
}

/// The multipliers of a network's materials, or none if a number overflows.
#[derive(Drop)]
pub struct Marginals {
    known: Option<Multipliers>,
}

impl Model for Marginals {
    ghost use Rattle.report_rules.specs.Marginal as rules;

    ghost Value = { rules.Marginals };

    ghost view = { λ m. m.known };
}

impl Marginals {
    pub fn of(multipliers: Multipliers) -> Marginals
        ensures { result ≡ Some multipliers }
    {
        Marginals {
            known: Some(multipliers),
        }
    }

    /// There are none.
    pub fn past() -> Marginals
        ensures { result ≡ None }
    {
        Marginals { known: None }
    }

    /// Whether there are multipliers.
    pub fn are_known(&self) -> bool
        ensures { result ≡ rules.are_known self.now }
    {
        match &self.known {
            None => false,
            Some(_) => true,
        }
    }

    /// What one more of the net amount of the material costs.
    pub fn of_material(&self, problem: &Problem, j: u32) -> Number
        ensures { result ≡ rules.marginal problem.now self.now j }
    {
        match &self.known {
            None => Number::past(),
            Some(multipliers) => known_marginal(problem, multipliers, j),
        }
    }

    /// What one more of the size of the unit saves.
    pub fn of_unit(&self, problem: &Problem, u: u32) -> Number
        requires { u < length problem.now.units }
        ensures { result ≡ rules.unit_marginal problem.now self.now u }
    {
        match &self.known {
            None => Number::past(),
            Some(multipliers) => known_of_unit(problem, multipliers, u),
        }
    }
}

// ---- of materials

/// 1 over 10^6 and the payout period.
fn yearly(problem: &Problem) -> Number
    ensures { result ≡ quotient (pos 1) (million *ℤ problem.now.payout) }
{
    problem.is_valid();
    quotient(1, 1_000_000 * i128::from(problem.payout()))
}

fn known_marginal(problem: &Problem, multipliers: &Multipliers, j: u32) -> Number
    ensures { result ≡ rules.known_marginal problem.now multipliers.now j }
{
    let each = quotient(multipliers.at(j), multipliers.d());
    each.times(&yearly(problem))
}

// ---- of units

/// The price of the material, 0 if the problem does not have it.
fn price_of(problem: &Problem, j: u32) -> Number
    ensures { result ≡ price problem.now j }
{
    match problem.materials().get(j as usize) {
        Some(material) => millionths(material.price),
        None => millionths(0),
    }
}

/// What one of the material is worth in the network.
fn worth(problem: &Problem, multipliers: &Multipliers, j: u32) -> Number
    ensures { result ≡ rules.worth problem.now multipliers.now j }
{
    price_of(problem, j).plus(&known_marginal(problem, multipliers, j))
}

/// What the material counts for one of the size of the unit.
fn traded(problem: &Problem, multipliers: &Multipliers, u: u32, j: u32) -> Number
    requires { u < length problem.now.units }
    ensures { result ≡ rules.traded problem.now multipliers.now u j }
{
    let rate = rate_at(problem, j, u);
    if rate == 0 {
        Number::nothing()
    } else {
        worth(problem, multipliers, j).times(&millionths(rate))
    }
}

/// The worth of what one of the size of the unit makes, less that of what it uses.
fn size_worth(problem: &Problem, multipliers: &Multipliers, u: u32) -> Number
    requires { u < length problem.now.units }
    ensures { result ≡ rules.size_worth problem.now multipliers.now u }
{
    let mut sum = Number::nothing();
    for j in multipliers.rows() {
        sum = sum.plus(&traded(problem, multipliers, u, j));
    }
    sum
}

/// An amount of millionths, turned below 0 or above.
fn turned(amount: i64) -> Number
    ensures { result ≡ quotient (neg_ℤ amount) million }
{
    quotient(-i128::from(amount), 1_000_000)
}

/// What one of the size of the unit costs, turned below 0.
fn turned_cost(problem: &Problem, u: u32) -> Number
    requires { u < length problem.now.units }
    ensures { result ≡ rules.turned_cost problem.now u }
{
    let unit = unit_of(problem, u);
    let once = turned(unit.investment_proportional).times(&year(problem));
    turned(unit.proportional).plus(&once)
}

fn known_of_unit(problem: &Problem, multipliers: &Multipliers, u: u32) -> Number
    requires { u < length problem.now.units }
    ensures { result ≡ rules.unit_marginal problem.now (Some multipliers.now) u }
{
    size_worth(problem, multipliers, u).plus(&turned_cost(problem, u))
}
