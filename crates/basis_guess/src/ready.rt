//! How large a unit is and how much of a material is used at most, by the solved program of a node.
use crate::propose::{ChargeGuess, Proposal, Solved, enough_of, money_of, number_of};
use crate::tableau::{Ends, Outcome, Tableau, Variable, magnitude};
use charges::{Node, Site};
use std::alloc::{AllocError, Global};
use std::num::{nearest_i64_to_f64, saturating_f64_to_i64};

/// What multipliers and sets show of a unit, if a cost is claimed.
#[derive(Drop)]
pub enum Bound {
    /// The unit is left out.
    Out(Proposal),
    /// The unit is not larger than so many millionths, or hardly.
    Most { size: i64, proposal: Proposal },
    /// Nothing.
    Nothing,
}

/// Between which sizes a unit is, in millionths.
#[derive(Clone, Copy)]
pub struct Range {
    pub least: i64,
    pub most: i64,
}

/// The program of a node at its least cost. Those of the node with one unit more follow in a few
/// turns.
#[derive(Drop)]
pub struct Ready {
    solved: Solved,
}

/// A unit that uses a material, and how much in millionths.
#[derive(Clone, Copy)]
pub struct User {
    pub unit: u32,
    pub rate: i64,
}

/// No more than so many millionths of a material are used, or hardly; and the worth of its use.
#[derive(Drop)]
pub struct Use {
    pub amount: i64,
    pub worth: i128,
    pub proposal: Proposal,
}

/// The program in which a variable is to be bounded, maybe with a unit taken in; its least value,
/// what is claimed, and what the variable earns so that it becomes large.
#[derive(Drop)]
struct Asked {
    tableau: Tableau,
    variable: Variable,
    taken: Option<u32>,
    least: f64,
    claim: f64,
    price: f64,
}

/// A value of the variable, what it is worth, and the proposal that shows it.
#[derive(Drop)]
struct Found {
    value: f64,
    worth: f64,
    proposal: Proposal,
}

const MILLION: f64 = 1000000.0;

// No cost is as much as this.
const NO_END: f64 = 1000000000000000000000000000000.0;

// So often the least size is looked for anew.
const MOST_TURNS: u32 = 6;

// What the greatest size earns so that a size becomes large, over the claim; and so much more if
// that is too little.
const GAIN: f64 = 100.0;

const MORE: f64 = 10000.0;

// A smaller size has to be smaller by so much of it.
const LESS: f64 = 0.001;

impl Asked {
    /// Turns until the variable is at least so much.
    fn solve(&mut self, least: f64, enough: f64) -> Outcome {
        self.tableau.set_low(self.variable, least);
        self.tableau.search(enough)
    }

    /// How large the variable is at most, by the least cost if it earns the price.
    fn by_price(&mut self, alloc: Global, solved: &Solved) -> Result<Option<Found>, AllocError> {
        let (variable, price) = (self.variable, self.price);
        self.tableau.set_low(variable, self.least);
        self.tableau.raise_cost(variable, -price);
        let outcome = self.tableau.search(NO_END);
        let value = (self.claim - self.tableau.cost()) / price;
        let worth = price + self.tableau.cost_of(variable);
        let proposal = solved.proposal(alloc, &self.tableau, self.taken)?;
        self.tableau.raise_cost(variable, price);
        Ok(if outcome == Outcome::Least {
            Some(Found {
                value,
                worth,
                proposal,
            })
        } else {
            None
        })
    }

    /// How large the variable is at most, by the least cost at the value before; nothing if that is
    /// hardly less.
    fn by_slope(
        &self,
        alloc: Global,
        solved: &Solved,
        before: f64,
    ) -> Result<Option<Found>, AllocError> {
        let over = self.tableau.cost() - self.claim;
        let worth = self.tableau.cost_of(self.variable);
        if !(worth > 0.0) || !(over > worth * before * LESS) {
            return Ok(None);
        }
        Ok(Some(Found {
            value: before - over / worth,
            worth,
            proposal: solved.proposal(alloc, &self.tableau, self.taken)?,
        }))
    }

    /// A smaller value than the one before, if one is found.
    fn smaller(
        &mut self,
        alloc: Global,
        solved: &Solved,
        before: f64,
    ) -> Result<Option<Found>, AllocError> {
        if !(before > self.least) {
            return Ok(None);
        }
        if self.solve(before, NO_END) == Outcome::Least {
            return self.by_slope(alloc, solved, before);
        }
        self.price = self.price * MORE;
        self.by_price(alloc, solved)
    }

    /// The smallest value that is found, if one is.
    fn smallest(&mut self, alloc: Global, solved: &Solved) -> Result<Option<Found>, AllocError> {
        let mut best = self.by_price(alloc, solved)?;
        for _ in 0..MOST_TURNS {
            let Some(found) = &best else {
                break;
            };
            let before = found.value;
            match self.smaller(alloc, solved, before)? {
                Some(less) if less.value < before => best = Some(less),
                _ => break,
            }
        }
        Ok(best)
    }
}

impl ChargeGuess {
    /// The program of the node with its sets, if it has a solution. `Err` comes only when memory
    /// runs out.
    pub fn ready(
        &mut self,
        alloc: Global,
        site: &Site<'_>,
        node: &Node,
    ) -> Result<Option<Ready>, AllocError> {
        match self.solved(alloc, site, node, NO_END)? {
            Some(solved) => Ok(Some(Ready { solved })),
            None => Ok(None),
        }
    }
}

impl Ready {
    /// By how much the least cost of the program is below the cost over `d`, in money.
    pub fn gap_to(&self, cost: i128, d: i128) -> f64 {
        money_of(cost, d) - self.solved.tableau.cost()
    }

    /// The program with the unit taken in.
    fn take(&self, alloc: Global, unit: u32) -> Result<Tableau, AllocError> {
        let place = unit as usize;
        let mut tableau = self.solved.tableau.copy(alloc)?;
        let built = Variable::Built(place);
        if tableau.has(built) {
            let share = match self.solved.shares.get(place) {
                Some(share) => *share,
                None => 0.0,
            };
            let whole = Ends {
                low: 1.0,
                high: 1.0,
            };
            tableau.add_row(
                alloc,
                &[(Variable::Size(place), share), (built, 1.0)],
                whole,
            )?;
        }
        Ok(tableau)
    }

    /// What can be shown of a unit that the node leaves free, if the cost over `d` is claimed.
    /// `Err` comes only when memory runs out.
    pub fn bound(
        &self,
        alloc: Global,
        unit: u32,
        range: Range,
        cost: i128,
        d: i128,
    ) -> Result<Bound, AllocError> {
        let claim = money_of(cost, d);
        let least = nearest_i64_to_f64(range.least) / MILLION;
        let most = nearest_i64_to_f64(range.most) / MILLION;
        let mut asked = Asked {
            tableau: self.take(alloc, unit)?,
            variable: Variable::Size(unit as usize),
            taken: Some(unit),
            least,
            claim,
            price: GAIN * magnitude(claim).max(1.0) / most.max(1.0),
        };
        match asked.solve(least, enough_of(claim)) {
            Outcome::Enough => Ok(Bound::Out(
                self.solved.proposal(alloc, &asked.tableau, Some(unit))?,
            )),
            Outcome::Nothing => Ok(Bound::Nothing),
            Outcome::Least => match asked.smallest(alloc, &self.solved)? {
                Some(found) => Ok(Bound::Most {
                    size: saturating_f64_to_i64(found.value * MILLION),
                    proposal: found.proposal,
                }),
                None => Ok(Bound::Nothing),
            },
        }
    }

    /// How much of a material these users use at most, if the cost over `d` is claimed and
    /// something is found. `Err` comes only when memory runs out.
    pub fn bound_use(
        &self,
        alloc: Global,
        users: &[User],
        cost: i128,
        d: i128,
    ) -> Result<Option<Use>, AllocError> {
        let claim = money_of(cost, d);
        let mut tableau = self.solved.tableau.copy(alloc)?;
        let variable = Variable::Sum(tableau.rows.len());
        let mut sum = Vec::new(alloc);
        for user in users {
            let rate = nearest_i64_to_f64(user.rate) / MILLION;
            sum.push((Variable::Size(user.unit as usize), rate))?;
        }
        let ends = Ends {
            low: 0.0,
            high: NO_END,
        };
        tableau.add_row(alloc, &sum, ends)?;
        let price = GAIN * magnitude(claim).max(1.0) / tableau.value_of(variable).max(1.0);
        let mut asked = Asked {
            tableau,
            variable,
            taken: None,
            least: 0.0,
            claim,
            price,
        };
        match asked.smallest(alloc, &self.solved)? {
            Some(found) => Ok(Some(Use {
                amount: saturating_f64_to_i64(found.value * MILLION),
                worth: number_of(found.worth),
                proposal: found.proposal,
            })),
            None => Ok(None),
        }
    }
}
