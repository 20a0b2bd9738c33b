//! Sizes with short numbers.
use crate::guess::Guess;
use crate::numbers::{Numbers, Rate};
use crate::ranges::Variable;
use crate::rounding::{lowest, product};
use std::alloc::{AllocError, Global};

/// What is known of a row: the one number that it may leave over, if its range is a point, and what
/// the rounded sizes leave over. And the unit that is to meet it, by its number, with its rate, and
/// with how far its size is from the ends.
#[derive(Clone, Copy)]
struct Met {
    point: Option<i128>,
    balance: i128,
    unit: usize,
    rate: i64,
    room: i64,
}

/// A row before its sizes are known.
const ANY: Met = Met {
    point: None,
    balance: 0,
    unit: 0,
    rate: 1,
    room: 0,
};

/// Sizes of all units over one denominator. They are the sizes of a basis, each rounded, except
/// that each row whose range is a point has one unit that meets that row exactly.
#[derive(Drop)]
pub struct ShortSizes {
    rows: Vec<Met>,
    rounded: Vec<i64>,
    sizes: Vec<i128>,
    d: i128,
}

impl Met {
    /// Whether the rounded sizes leave over what they may, or the row needs no unit of its own.
    fn is_met(&self) -> bool {
        match self.point {
            Some(end) => end == self.balance,
            None => true,
        }
    }

    /// The size of its unit that meets the row, times the absolute rate of the unit, if the unit
    /// has this size now.
    fn meeting(&self, size: i64) -> i128 {
        let end = match self.point {
            Some(end) => end,
            None => self.balance,
        };
        let others = self.balance.wrapping_sub(product(self.rate, size));
        let rest = end.wrapping_sub(others);
        if self.rate < 0 {
            rest.wrapping_neg()
        } else {
            rest
        }
    }
}

/// The least number that both divide, which should be at least 1.
fn common_multiple(x: i64, y: i64) -> Option<i64> {
    let (share, _) = lowest(x, y);
    share.checked_mul(y)
}

/// The one row with a point for its range in which the unit has a rate, if there is just one.
fn only_point(rows: &[Met], rates: &[Rate]) -> Option<Rate> {
    let mut found = None;
    for rate in rates {
        if let Some(row) = rows.get(rate.material) {
            if row.point.is_some() {
                if found.is_some() {
                    return None;
                }
                found = Some(*rate);
            }
        }
    }
    found
}

impl ShortSizes {
    /// Makes room for problems with so many units and materials. `Err` comes only when memory runs
    /// out.
    pub fn open(alloc: Global, units: u32, materials: u32) -> Result<ShortSizes, AllocError> {
        let (width, height) = (units as usize, materials as usize);
        Ok(ShortSizes {
            rows: vec![in alloc; ANY; height]?,
            rounded: vec![in alloc; 0i64; width]?,
            sizes: vec![in alloc; 0i128; width]?,
            d: 1,
        })
    }

    /// Takes the sizes of the basis that was found by `look_inside`. `false` if a row with a point
    /// for its range has no unit that could meet it. Linear in the number of rates. It takes no
    /// memory.
    pub fn take(&mut self, guess: &Guess, numbers: &Numbers) -> bool {
        guess.round_sizes(&mut self.rounded);
        self.set_rows(guess, numbers);
        for (unit, size) in self.rounded.iter().enumerate() {
            let room = guess.ranges().of(Variable::Size(unit)).room(*size);
            offer(&mut self.rows, numbers.rates(unit), unit, room);
        }
        match self.factor() {
            Some(factor) => self.put_sizes(factor, numbers.fineness()),
            None => false,
        }
    }

    /// The sizes of all units, by their numbers.
    pub fn sizes(&self) -> &[i128] {
        &self.sizes
    }

    /// The denominator of the sizes, at least 1.
    pub fn d(&self) -> i128 {
        self.d
    }

    /// Takes the points of the rows, and what the rounded sizes leave over of each material.
    fn set_rows(&mut self, guess: &Guess, numbers: &Numbers) {
        for (material, row) in self.rows.iter_mut().enumerate() {
            *row = ANY;
            if let Some(end) = guess.ranges().point(numbers, material) {
                row.point = Some(end.wrapping_shl(numbers.fineness()));
            }
        }
        for (unit, size) in self.rounded.iter().enumerate() {
            for rate in numbers.rates(unit) {
                if let Some(row) = self.rows.get_mut(rate.material) {
                    row.balance = row.balance.wrapping_add(product(rate.rate, *size));
                }
            }
        }
    }

    /// A number that the rate of each unit that is to meet a row divides.
    fn factor(&self) -> Option<i64> {
        let mut factor = 1i64;
        for row in &self.rows {
            if !row.is_met() {
                if row.room <= 0 {
                    return None;
                }
                factor = common_multiple(factor, row.rate.wrapping_abs().max(1))?;
            }
        }
        Some(factor)
    }

    /// Writes the sizes over the factor times 2^fineness.
    fn put_sizes(&mut self, factor: i64, fineness: u32) -> bool {
        for (size, rounded) in self.sizes.iter_mut().zip(&self.rounded) {
            *size = product(*rounded, factor);
        }
        for row in &self.rows {
            if !row.is_met() {
                let share = factor.wrapping_div(row.rate.wrapping_abs().max(1));
                let (Some(size), Some(rounded)) = (
                    self.sizes.get_mut(row.unit),
                    self.rounded.get(row.unit),
                ) else {
                    return false;
                };
                let Some(met) = row.meeting(*rounded).checked_mul(share as i128) else {
                    return false;
                };
                *size = met;
            }
        }
        self.d = (factor as i128).wrapping_shl(fineness).max(1);
        true
    }
}

/// Offers a unit to the row that it could meet. The row takes the unit whose size is furthest from
/// its ends.
fn offer(rows: &mut [Met], rates: &[Rate], unit: usize, room: i64) {
    let Some(rate) = only_point(rows, rates) else {
        return;
    };
    if let Some(row) = rows.get_mut(rate.material) {
        if room > row.room {
            row.unit = unit;
            row.rate = rate.rate;
            row.room = room;
        }
    }
}
