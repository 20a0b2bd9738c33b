//! One row of the tableau.
use crate::line::Line;
use crate::ranges::{Ranges, Variable};
use crate::rounding::{WIDEST, excess, lowest, narrowed, product};
use charges::UnitSet;
use std::alloc::{AllocError, Global};

/// `den` times the basic variable is the sum of the entries times the variables outside the basis.
#[derive(Drop)]
pub(crate) struct Row {
    pub(crate) basic: Variable,
    pub(crate) den: i64,
    pub(crate) is_rounded: bool,
    pub(crate) line: Line,
    // `den` times the basic variable, at the last values of the variables outside the basis, unless
    // the row has changed since.
    value: i128,
    has_changed: bool,
}

/// The row that is solved for the variable of a column, and that column.
#[derive(Clone, Copy)]
pub(crate) struct Pivot<'a> {
    pub(crate) column: usize,
    pub(crate) den: i64,
    pub(crate) is_rounded: bool,
    pub(crate) line: &'a Line,
}

/// How far a basic variable is out of its range, times the row's `den`, and whether it has to be
/// raised.
#[derive(Clone, Copy)]
pub(crate) struct Distance {
    pub(crate) amount: i128,
    pub(crate) raise: bool,
}

// In a rounded row whose `den` has fewer bits no distance counts as noise.
const COARSE: i64 = 1 << 40;

impl Row {
    pub(crate) fn open(alloc: Global, basic: Variable, width: usize) -> Result<Row, AllocError> {
        let line = Line::open(alloc, width)?;
        Ok(Row {
            basic,
            den: 1,
            is_rounded: false,
            line,
            value: 0,
            has_changed: true,
        })
    }

    /// Makes it the row of this variable, without entries.
    pub(crate) fn clear(&mut self, basic: Variable) {
        self.basic = basic;
        self.den = 1;
        self.is_rounded = false;
        self.line.clear();
        self.has_changed = true;
    }

    pub(crate) fn put(&mut self, column: usize, value: i64) {
        self.line.put(column, value);
        self.has_changed = true;
    }

    /// Takes the sums of these columns for its entries, all shortened alike if one has more bits
    /// than a row's numbers have.
    fn take(&mut self, sums: &[i128], columns: UnitSet, den: i128, bits: u128) {
        let by = excess(bits | den.unsigned_abs(), WIDEST);
        self.line.take(sums, columns, by);
        if by == 0 {
            self.den = narrowed(den);
        } else {
            self.den = narrowed(den.wrapping_shr(by)).max(1);
            self.is_rounded = true;
        }
    }

    /// Solves the row for the variable of the column, which becomes basic.
    pub(crate) fn turn(&mut self, column: usize) {
        let size = self.line.at(column);
        if size > 0 {
            self.line.negate();
            self.put(column, self.den);
        } else {
            self.put(column, self.den.wrapping_neg());
        }
        self.den = size.wrapping_abs();
    }

    /// Puts the pivot row in place of its variable.
    pub(crate) fn substitute(&mut self, pivot: Pivot, sums: &mut [i128]) {
        let factor = self.line.at(pivot.column);
        if factor == 0 {
            return;
        }
        self.put(pivot.column, 0);
        if pivot.is_rounded {
            self.is_rounded = true;
        }
        // Rounded numbers seldom have a divisor in common.
        let (p, q) = if self.is_rounded {
            (pivot.den, factor)
        } else {
            lowest(pivot.den, factor)
        };
        if p == 1 && self.line.add_multiple(q, pivot.line) {
            return;
        }
        let bits = self.line.mix(p, q, pivot.line, sums);
        let columns = self.line.filled().union(pivot.line.filled());
        self.take(sums, columns, product(p, self.den), bits);
    }

    /// Forms the value of the basic variable anew if the row has changed, or the end of a column
    /// that moved it.
    pub(crate) fn set_value(&mut self, ends: &Line, moved: UnitSet) {
        if self.has_changed || !self.line.filled().meet(moved).is_empty() {
            self.value = self.line.dot(ends);
            self.has_changed = false;
        }
    }

    /// The whole number that is nearest to the basic variable, as its value was formed last.
    pub(crate) fn nearest(&self) -> i64 {
        narrowed(self.nearest_times(1))
    }

    /// The whole number that is nearest to so many times the basic variable, as its value was
    /// formed last.
    pub(crate) fn nearest_times(&self, factor: i128) -> i128 {
        let half = self.den.wrapping_shr(1) as i128;
        let raised = self.value.wrapping_mul(factor).wrapping_add(half);
        raised.wrapping_div(self.den.max(1) as i128)
    }

    /// How far the basic variable is out of its range. What may be noise does not count.
    pub(crate) fn distance(&self, ranges: &Ranges, noise: i128) -> Option<Distance> {
        let range = ranges.of(self.basic);
        let below = product(range.low, self.den).wrapping_sub(self.value);
        let above = self.value.wrapping_sub(product(range.high, self.den));
        let most = if self.is_rounded && self.den >= COARSE {
            noise
        } else {
            0
        };
        if below > most {
            Some(Distance {
                amount: below,
                raise: true,
            })
        } else if above > most {
            Some(Distance {
                amount: above,
                raise: false,
            })
        } else {
            None
        }
    }
}
