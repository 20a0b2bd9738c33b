//! An equation in whole numbers.
//!
//! No product can wrap: `checked_mul` forms it. Nothing is checked only if all four factors of a
//! difference of two products are below 2^62 in absolute value, since both products and the
//! difference then have room.
use crate::fractions::Value;
use charges::{UnitSet, gcd};
use std::alloc::{AllocError, Global};

/// The coefficients of the unknowns, most of them 0, and the right side. A basis has at most as
/// many unknowns as there are units, so a set of unknowns is one of numbers below 128.
#[derive(Drop)]
pub(crate) struct Equation {
    coefficients: Vec<i128>,
    right: i128,
    // The unknowns whose coefficient is not 0, and how many they are.
    unknowns: UnitSet,
    count: u32,
    // The unknown that it is solved for.
    solved: Option<u32>,
}

/// p times the one number less q times the other, if that fits 128 bits.
fn difference(p: i128, x: i128, q: i128, y: i128) -> Option<i128> {
    // Most numbers are short, and their products need no check.
    if is_short(p) && is_short(x) && is_short(q) && is_short(y) {
        return Some(p.wrapping_mul(x).wrapping_sub(q.wrapping_mul(y)));
    }
    p.checked_mul(x)?.checked_sub(q.checked_mul(y)?)
}

/// Whether the number has fewer than 63 bits.
fn is_short(number: i128) -> bool {
    -SHORT < number && number < SHORT
}

const SHORT: i128 = 1 << 62;

/// A divisor of both numbers, the greatest one unless a number is the least of 128 bits.
fn common_divisor(x: i128, y: i128) -> i128 {
    if x == i128::MIN || y == i128::MIN {
        return 1;
    }
    gcd(x, y)
}

/// The number over a divisor of it.
fn quotient(number: i128, divisor: i128) -> i128 {
    // The division of 64 bits is many times faster.
    match (i64::try_from(number), i64::try_from(divisor)) {
        (Ok(number), Ok(divisor)) => number.wrapping_div(divisor.max(1)) as i128,
        _ => number.wrapping_div(divisor.max(1)),
    }
}

impl Equation {
    pub(crate) fn open(alloc: Global, unknowns: usize) -> Result<Equation, AllocError> {
        let coefficients = vec![in alloc; 0i128; unknowns]?;
        Ok(Equation {
            coefficients,
            right: 0,
            unknowns: UnitSet::empty(),
            count: 0,
            solved: None,
        })
    }

    /// Makes it an equation without entries.
    pub(crate) fn clear(&mut self) {
        for unknown in self.unknowns {
            if let Some(coefficient) = self.coefficients.get_mut(unknown as usize) {
                *coefficient = 0;
            }
        }
        self.right = 0;
        self.unknowns = UnitSet::empty();
        self.count = 0;
        self.solved = None;
    }

    /// Puts a coefficient in place of another one.
    pub(crate) fn put(&mut self, unknown: usize, number: i128) -> bool {
        let Some(coefficient) = self.coefficients.get_mut(unknown) else {
            return false;
        };
        if unknown >= 128 {
            return false;
        }
        *coefficient = number;
        self.unknowns = if number == 0 {
            self.unknowns.without(unknown as u32)
        } else {
            self.unknowns.with(unknown as u32)
        };
        true
    }

    /// Adds the product to the right side.
    pub(crate) fn add_right(&mut self, factor: i64, amount: i128) -> bool {
        let Some(product) = amount.checked_mul(factor as i128) else {
            return false;
        };
        match self.right.checked_add(product) {
            Some(sum) => {
                self.right = sum;
                true
            }
            None => false,
        }
    }

    /// The coefficient, or 0 after the last.
    fn at(&self, unknown: u32) -> i128 {
        match self.coefficients.get(unknown as usize) {
            Some(coefficient) => *coefficient,
            None => 0,
        }
    }

    /// The unknowns that it has.
    pub(crate) fn unknowns(&self) -> UnitSet {
        self.unknowns
    }

    /// How many unknowns it had when it was changed last.
    pub(crate) fn count(&self) -> u32 {
        self.count
    }

    /// The unknown that it is solved for, if any.
    pub(crate) fn solved(&self) -> Option<u32> {
        self.solved
    }

    pub(crate) fn solve_for(&mut self, unknown: u32) {
        self.solved = Some(unknown);
    }

    /// The value of the unknown, if the equation has no other one.
    pub(crate) fn value(&self, unknown: u32) -> Value {
        Value::of(self.right, self.at(unknown))
    }

    /// Divides by what all numbers have in common.
    pub(crate) fn reduce(&mut self) {
        self.count = self.unknowns.count();
        let common = self.common_divisor();
        if common <= 1 {
            return;
        }
        self.right = quotient(self.right, common);
        for unknown in self.unknowns {
            if let Some(coefficient) = self.coefficients.get_mut(unknown as usize) {
                *coefficient = quotient(*coefficient, common);
            }
        }
    }

    fn common_divisor(&self) -> i128 {
        let mut common = common_divisor(self.right, 0);
        for unknown in self.unknowns {
            if common == 1 {
                return 1;
            }
            common = common_divisor(self.at(unknown), common);
        }
        common
    }

    /// Takes the unknown out by another equation. Gives up if a number leaves 128 bits.
    pub(crate) fn eliminate(&mut self, pivot: &Equation, unknown: u32) -> bool {
        let (own, other) = (self.at(unknown), pivot.at(unknown));
        let common = common_divisor(own, other);
        let (p, q) = (quotient(other, common), quotient(own, common));
        self.subtract(p, q, pivot).is_some()
    }

    /// Becomes p times itself less q times the other equation, reduced.
    fn subtract(&mut self, p: i128, q: i128, other: &Equation) -> Option<()> {
        self.unknowns = self.unknowns.union(other.unknowns);
        for unknown in self.unknowns {
            let number = difference(p, self.at(unknown), q, other.at(unknown))?;
            if let Some(coefficient) = self.coefficients.get_mut(unknown as usize) {
                *coefficient = number;
            }
            if number == 0 && unknown < 128 {
                self.unknowns = self.unknowns.without(unknown);
            }
        }
        self.right = difference(p, self.right, q, other.right)?;
        self.reduce();
        Some(())
    }
}
