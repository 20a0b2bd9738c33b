//! The numbers of a row, most of which are 0.
use crate::rounding::{WIDEST, excess, narrowed, product, rounded};
use charges::UnitSet;
use std::alloc::{AllocError, Global};

/// A number for each column, and the set of the columns whose number is not 0. A tableau has as
/// many columns as units, so a set of columns is one of numbers below 128.
#[derive(Drop)]
pub(crate) struct Line {
    numbers: Vec<i64>,
    filled: UnitSet,
}

/// The number, or 0 after the last.
fn at(numbers: &[i64], column: usize) -> i64 {
    match numbers.get(column) {
        Some(number) => *number,
        None => 0,
    }
}

impl Line {
    pub(crate) fn open(alloc: Global, width: usize) -> Result<Line, AllocError> {
        let numbers = vec![in alloc; 0i64; width]?;
        Ok(Line {
            numbers,
            filled: UnitSet::empty(),
        })
    }

    pub(crate) fn numbers(&self) -> &[i64] {
        &self.numbers
    }

    pub(crate) fn filled(&self) -> UnitSet {
        self.filled
    }

    pub(crate) fn at(&self, column: usize) -> i64 {
        at(&self.numbers, column)
    }

    pub(crate) fn put(&mut self, column: usize, number: i64) {
        if let Some(kept) = self.numbers.get_mut(column) {
            *kept = number;
        }
        if column < 128 {
            self.filled = if number == 0 {
                self.filled.without(column as u32)
            } else {
                self.filled.with(column as u32)
            };
        }
    }

    /// Puts 0 everywhere.
    pub(crate) fn clear(&mut self) {
        for column in self.filled {
            if let Some(number) = self.numbers.get_mut(column as usize) {
                *number = 0;
            }
        }
        self.filled = UnitSet::empty();
    }

    pub(crate) fn copy(&mut self, other: &Line) {
        for (kept, number) in self.numbers.iter_mut().zip(&other.numbers) {
            *kept = *number;
        }
        self.filled = other.filled;
    }

    pub(crate) fn negate(&mut self) {
        for number in self.numbers.iter_mut() {
            *number = number.wrapping_neg();
        }
    }

    /// The sum of the products with the numbers of another line.
    pub(crate) fn dot(&self, other: &Line) -> i128 {
        let mut sum = 0i128;
        for column in self.filled.meet(other.filled) {
            let column = column as usize;
            sum = sum.wrapping_add(product(self.at(column), other.at(column)));
        }
        sum
    }

    /// Adds q times the other line, unless a sum has more bits than a row's numbers have: then the
    /// line stays.
    pub(crate) fn add_multiple(&mut self, q: i64, other: &Line) -> bool {
        let mut bits = 0u128;
        for column in other.filled {
            let column = column as usize;
            let sum = product(q, other.at(column)).wrapping_add(self.at(column) as i128);
            bits |= sum.unsigned_abs();
        }
        if excess(bits, WIDEST) > 0 {
            return false;
        }
        let mut filled = self.filled.union(other.filled);
        for column in other.filled {
            if let Some(number) = self.numbers.get_mut(column as usize) {
                let added = product(q, at(&other.numbers, column as usize));
                *number = narrowed(added.wrapping_add(*number as i128));
                if *number == 0 && column < 128 {
                    filled = filled.without(column);
                }
            }
        }
        self.filled = filled;
        true
    }

    /// Writes the numbers that are not 0 into `sums`, and gives the bits that some of them have.
    pub(crate) fn widen(&self, sums: &mut [i128]) -> u128 {
        let mut bits = 0u128;
        for column in self.filled {
            let column = column as usize;
            if let Some(sum) = sums.get_mut(column) {
                *sum = self.at(column) as i128;
                bits |= sum.unsigned_abs();
            }
        }
        bits
    }

    /// Writes p times the line and q times the other into `sums`, at the columns that one of them
    /// has, and gives the bits that some sum has.
    pub(crate) fn mix(&self, p: i64, q: i64, other: &Line, sums: &mut [i128]) -> u128 {
        let mut bits = 0u128;
        for column in self.filled.union(other.filled) {
            let column = column as usize;
            if let Some(sum) = sums.get_mut(column) {
                let mixed = product(p, self.at(column)).wrapping_add(product(q, other.at(column)));
                *sum = mixed;
                bits |= mixed.unsigned_abs();
            }
        }
        bits
    }

    /// Takes the sums of these columns, without so many of their last bits. All others have to be
    /// 0.
    pub(crate) fn take(&mut self, sums: &[i128], columns: UnitSet, by: u32) {
        let mut filled = columns;
        for column in columns {
            if let (Some(number), Some(sum)) = (
                self.numbers.get_mut(column as usize),
                sums.get(column as usize),
            ) {
                *number = if by == 0 {
                    narrowed(*sum)
                } else {
                    rounded(*sum, by)
                };
                if *number == 0 && column < 128 {
                    filled = filled.without(column);
                }
            }
        }
        self.filled = filled;
    }
}
