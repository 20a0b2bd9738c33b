//! The ends of sizes and balances, shortened or lengthened for a guess.
use crate::numbers::{Ends, Numbers, Standing};
use crate::rounding::{narrowed, shortened};
use charges::Node;
use std::alloc::{AllocError, Global};

/// A variable of a tableau: the size of a unit, or the balance of a material.
#[derive(Clone, Copy, Debug, PartialEq, Eq)]
pub enum Variable {
    Size(usize),
    Balance(usize),
}

/// The ends of a variable.
#[derive(Clone, Copy)]
pub(crate) struct Range {
    pub(crate) low: i64,
    pub(crate) high: i64,
}

/// The ends of a guess have at most so many bits.
pub(crate) const END_BITS: u32 = 44;

const MOST: i64 = (1 << 44) - 1;

const LEAST: i64 = -MOST;

/// The ends of a guess at sizes that are to be rounded have at most so many bits.
pub(crate) const FINE_BITS: u32 = 58;

const FINE_MOST: i64 = (1 << 58) - 1;

const FINE_LEAST: i64 = -FINE_MOST;

// A row's margin, for each unit of its rates. When sizes are rounded, half of one is lost, and the
// rest is for units that meet other rows.
const MARGIN: i64 = 4;

/// A range that has one number.
const POINT: Range = Range { low: 0, high: 0 };

/// The ends of all variables at a node.
#[derive(Drop)]
pub(crate) struct Ranges {
    sizes: Vec<Range>,
    balances: Vec<Range>,
    standings: Vec<Standing>,
    // The sum of the absolute rates of each material.
    margins: Vec<i64>,
}

/// An end without its last bits, or the nearest that a guess has room for.
fn cut(end: i128, by: u32) -> i64 {
    shortened(end, by).min(MOST).max(LEAST)
}

/// An end with so many bits more, or the nearest that a guess has room for.
fn lengthened(end: i128, by: u32) -> i64 {
    narrowed(end.wrapping_shl(by))
        .min(FINE_MOST)
        .max(FINE_LEAST)
}

impl Range {
    fn of(ends: Ends, by: u32) -> Range {
        Range {
            low: cut(ends.low, by),
            high: cut(ends.high, by),
        }
    }

    fn fine(ends: Ends, by: u32) -> Range {
        Range {
            low: lengthened(ends.low, by),
            high: lengthened(ends.high, by),
        }
    }

    /// The range without a margin at both ends, or its middle if the margins leave nothing. A point
    /// stays.
    fn inside(self, margin: i64) -> Range {
        let low = self.low.wrapping_add(margin);
        let high = self.high.wrapping_sub(margin);
        if self.low == self.high {
            self
        } else if low < high {
            Range { low, high }
        } else {
            let middle = self.low.wrapping_add(self.width().wrapping_shr(1));
            Range {
                low: middle,
                high: middle,
            }
        }
    }

    /// How far a number is from the nearer end; below 0 if it is outside.
    pub(crate) fn room(self, number: i64) -> i64 {
        let above = number.wrapping_sub(self.low);
        let below = self.high.wrapping_sub(number);
        above.min(below)
    }

    /// The number of the range that is nearest.
    pub(crate) fn nearest(self, number: i64) -> i64 {
        number.min(self.high).max(self.low)
    }

    pub(crate) fn width(self) -> i64 {
        self.high.wrapping_sub(self.low)
    }

    pub(crate) fn end(self, at_high: bool) -> i64 {
        if at_high { self.high } else { self.low }
    }
}

/// The balance of a material that no unit of the node has is 0, and its range takes that in.
fn with_zero(ends: Ends) -> Ends {
    Ends {
        low: ends.low.min(0),
        high: ends.high.max(0),
    }
}

impl Ranges {
    pub(crate) fn open(
        alloc: Global,
        units: usize,
        materials: usize,
    ) -> Result<Ranges, AllocError> {
        let sizes = vec![in alloc; POINT; units]?;
        let balances = vec![in alloc; POINT; materials]?;
        let standings = vec![in alloc; Standing::Apart; materials]?;
        let margins = vec![in alloc; 0i64; materials]?;
        Ok(Ranges {
            sizes,
            balances,
            standings,
            margins,
        })
    }

    /// Takes the ranges of a node.
    pub(crate) fn set(&mut self, numbers: &Numbers, node: &Node) {
        let by = numbers.end_shift();
        numbers.stand(node, &mut self.standings);
        for (unit, range) in self.sizes.iter_mut().enumerate() {
            *range = Range::of(numbers.size_ends(node, unit), by);
        }
        for (material, (range, standing)) in self
            .balances
            .iter_mut()
            .zip(&self.standings)
            .enumerate()
        {
            let ends = numbers.balance_ends(material, *standing);
            *range = match *standing {
                Standing::Apart => Range::of(with_zero(ends), by),
                _ => Range::of(ends, by),
            };
        }
    }

    /// Takes the ranges of a node in finer numbers, those of rows without a margin at both ends. So
    /// when sizes are rounded to whole numbers, each row stays in its own range, unless that is a
    /// point.
    pub(crate) fn set_inside(&mut self, numbers: &Numbers, node: &Node) {
        let by = numbers.fineness();
        numbers.stand(node, &mut self.standings);
        numbers.sum_rates(node, &mut self.margins);
        for (unit, range) in self.sizes.iter_mut().enumerate() {
            *range = Range::fine(numbers.size_ends(node, unit), by);
        }
        for (material, (range, (standing, sum))) in self
            .balances
            .iter_mut()
            .zip(self.standings.iter().zip(&self.margins))
            .enumerate()
        {
            let ends = numbers.balance_ends(material, *standing);
            let margin = sum.wrapping_add(1).wrapping_mul(MARGIN);
            *range = match *standing {
                Standing::Apart => Range::fine(with_zero(ends), by),
                _ => Range::fine(ends, by).inside(margin),
            };
        }
    }

    /// The one number that a row of the node may leave over, if its range is a point.
    pub(crate) fn point(&self, numbers: &Numbers, material: usize) -> Option<i128> {
        let standing = *self.standings.get(material)?;
        let ends = numbers.balance_ends(material, standing);
        if standing != Standing::Apart && ends.low == ends.high {
            Some(ends.low)
        } else {
            None
        }
    }

    pub(crate) fn of(&self, variable: Variable) -> Range {
        let found = match variable {
            Variable::Size(unit) => self.sizes.get(unit),
            Variable::Balance(material) => self.balances.get(material),
        };
        match found {
            Some(range) => *range,
            None => POINT,
        }
    }
}
