//! Square systems of equations, solved one after the other.
use crate::equation::Equation;
use crate::fractions::Value;
use std::alloc::{AllocError, Global};
use std::mem::swap;

/// The first `size` equations count, in as many unknowns.
#[derive(Drop)]
pub(crate) struct System {
    size: usize,
    equations: Vec<Equation>,
    pivot: Equation,
    // The equations in the order in which they were solved.
    order: Vec<usize>,
}

impl System {
    /// Makes room for systems of at most so many unknowns.
    pub(crate) fn open(alloc: Global, most: usize) -> Result<System, AllocError> {
        let mut equations = Vec::new(alloc);
        for _ in 0..most {
            equations.push(Equation::open(alloc, most)?)?;
        }
        let pivot = Equation::open(alloc, most)?;
        let order = Vec::with_capacity(alloc, most)?;
        Ok(System {
            size: 0,
            equations,
            pivot,
            order,
        })
    }

    /// Makes it a system of so many unknowns, all entries 0.
    pub(crate) fn clear(&mut self, size: usize) -> bool {
        self.size = size;
        self.order.clear();
        for equation in self.equations.iter_mut().take(size) {
            equation.clear();
        }
        size <= self.equations.len()
    }

    pub(crate) fn put(&mut self, r: usize, unknown: usize, coefficient: i128) -> bool {
        match self.equations.get_mut(r) {
            Some(equation) => equation.put(unknown, coefficient),
            None => false,
        }
    }

    /// Adds the product to the right side.
    pub(crate) fn add_right(&mut self, r: usize, factor: i64, amount: i128) -> bool {
        match self.equations.get_mut(r) {
            Some(equation) => equation.add_right(factor, amount),
            None => false,
        }
    }

    /// Solves each equation for one unknown. Gives up if a number leaves the range, or if the
    /// system does not have exactly one solution.
    pub(crate) fn solve(&mut self) -> bool {
        for equation in self.equations.iter_mut().take(self.size) {
            equation.reduce();
        }
        for _ in 0..self.size {
            if !self.solve_next() {
                return false;
            }
        }
        for back in 0..self.size {
            let last = self.size.saturating_sub(1).saturating_sub(back);
            if !self.substitute(last) {
                return false;
            }
        }
        true
    }

    /// Solves one more equation, and takes its unknown out of those that are left.
    fn solve_next(&mut self) -> bool {
        let Some(r) = self.next_equation() else {
            return false;
        };
        let Some(unknown) = self.next_unknown(r) else {
            return false;
        };
        match self.equations.get_mut(r) {
            Some(equation) => equation.solve_for(unknown),
            None => return false,
        }
        self.order.push(r).is_ok() && self.eliminate(r, unknown, false)
    }

    /// Takes the unknown of the equation that was solved at this turn out of all others.
    fn substitute(&mut self, turn: usize) -> bool {
        let Some(r) = self.order.get(turn) else {
            return false;
        };
        let r = *r;
        let Some(equation) = self.equations.get(r) else {
            return false;
        };
        match equation.solved() {
            Some(unknown) => self.eliminate(r, unknown, true),
            None => false,
        }
    }

    /// Takes the unknown out of the other equations, of those that are left or of all.
    fn eliminate(&mut self, r: usize, unknown: u32, all: bool) -> bool {
        if unknown >= 128 || !self.swap_pivot(r) {
            return false;
        }
        for (i, equation) in self.equations.iter_mut().enumerate().take(self.size) {
            let counts = i != r && (all || equation.solved().is_none());
            if counts
                && equation.unknowns().has(unknown)
                && !equation.eliminate(&self.pivot, unknown)
            {
                return false;
            }
        }
        self.swap_pivot(r)
    }

    /// Puts the equation in the place of the pivot, and the pivot in its place.
    fn swap_pivot(&mut self, r: usize) -> bool {
        match self.equations.get_mut(r) {
            Some(equation) => {
                swap(&mut self.pivot, equation);
                true
            }
            None => false,
        }
    }

    /// The equation with the fewest unknowns, of those that are left.
    fn next_equation(&self) -> Option<usize> {
        let mut next = None;
        let mut fewest = u32::MAX;
        for (r, equation) in self.equations.iter().enumerate().take(self.size) {
            if equation.solved().is_none() && equation.count() < fewest {
                fewest = equation.count();
                next = Some(r);
            }
        }
        next
    }

    /// The unknown of the equation that is in the fewest others, of those that are left.
    fn next_unknown(&self, r: usize) -> Option<u32> {
        let equation = self.equations.get(r)?;
        let mut next = None;
        let mut fewest = usize::MAX;
        for unknown in equation.unknowns() {
            let count = self.count_of(unknown);
            if count < fewest {
                fewest = count;
                next = Some(unknown);
            }
        }
        next
    }

    /// How many of the equations that are left have the unknown.
    fn count_of(&self, unknown: u32) -> usize {
        let mut count = 0usize;
        for equation in self.equations.iter().take(self.size) {
            if unknown < 128 && equation.solved().is_none() && equation.unknowns().has(unknown) {
                count = count.wrapping_add(1);
            }
        }
        count
    }

    /// The unknown that the equation was solved for, and its value.
    pub(crate) fn value(&self, r: usize) -> Option<(usize, Value)> {
        let equation = self.equations.get(r)?;
        let unknown = equation.solved()?;
        Some((unknown as usize, equation.value(unknown)))
    }
}
