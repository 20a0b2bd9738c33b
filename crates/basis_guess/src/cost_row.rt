//! The row of the cost.
use crate::line::Line;
use crate::rounding::{WIDEST, excess, lowest, narrowed, product, shortened};
use crate::row::{Pivot, Row};
use charges::UnitSet;
use std::alloc::{AllocError, Global};

/// `den` times the cost is 2^shift times the sum of the entries times the variables outside the
/// basis. Costs are large compared with sizes. So entries and `den` are shortened separately, and
/// neither loses its leading bits.
#[derive(Drop)]
pub(crate) struct CostRow {
    pub(crate) den: i64,
    pub(crate) shift: u32,
    is_rounded: bool,
    pub(crate) line: Line,
}

// A sum takes so many bits of a factor, so that it has room.
const FACTOR_BITS: u32 = 62;

impl CostRow {
    pub(crate) fn open(alloc: Global, width: usize) -> Result<CostRow, AllocError> {
        let line = Line::open(alloc, width)?;
        Ok(CostRow {
            den: 1,
            shift: 0,
            is_rounded: false,
            line,
        })
    }

    /// Makes it the row of the slack basis.
    pub(crate) fn start(&mut self, costs: &[i64]) {
        self.den = 1;
        self.shift = 0;
        self.is_rounded = false;
        for (column, cost) in costs.iter().enumerate() {
            self.line.put(column, *cost);
        }
    }

    /// Takes the sums of these columns for its entries, shortened if one has more bits than a row's
    /// numbers have.
    fn take(&mut self, sums: &[i128], columns: UnitSet, den: i128, bits: u128) {
        let by_den = excess(den.unsigned_abs(), WIDEST);
        let by = excess(bits, WIDEST).max(by_den.saturating_sub(self.shift));
        self.line.take(sums, columns, by);
        if by > 0 || by_den > 0 {
            self.is_rounded = true;
        }
        self.den = shortened(den, by_den).max(1);
        self.shift = self.shift.saturating_add(by).saturating_sub(by_den);
    }

    /// Puts the pivot row in place of its variable.
    pub(crate) fn substitute(&mut self, pivot: Pivot, sums: &mut [i128]) {
        let factor = self.line.at(pivot.column);
        if factor == 0 {
            return;
        }
        self.line.put(pivot.column, 0);
        if pivot.is_rounded {
            self.is_rounded = true;
        }
        let (p, q) = if self.is_rounded {
            (pivot.den, factor)
        } else {
            lowest(pivot.den, factor)
        };
        if p == 1 && self.line.add_multiple(q, pivot.line) {
            return;
        }
        let bits = self.line.mix(p, q, pivot.line, sums);
        let columns = self.line.filled().union(pivot.line.filled());
        self.take(sums, columns, product(p, self.den), bits);
    }

    /// Adds so much for each size of a variable outside the basis.
    pub(crate) fn add(&mut self, column: usize, change: i64, sums: &mut [i128]) {
        let by = product(self.den, change).wrapping_shr(self.shift.min(127));
        let changed = by.wrapping_add(self.line.at(column) as i128);
        self.line.put(column, narrowed(changed));
        if excess(changed.unsigned_abs(), WIDEST) == 0 {
            return;
        }
        let bits = self.line.widen(sums) | changed.unsigned_abs();
        if let Some(sum) = sums.get_mut(column) {
            *sum = changed;
        }
        let columns = self.line.filled();
        self.take(sums, columns, self.den as i128, bits);
    }

    /// Adds so much for each size of the basic variable of a row, by that row.
    pub(crate) fn add_row(&mut self, change: i64, other: &Row, sums: &mut [i128]) {
        let by = product(self.den, change).wrapping_shr(self.shift.min(127));
        let cut = excess(by.unsigned_abs(), FACTOR_BITS);
        let factor = shortened(by, cut);
        let columns = self.line.filled().union(other.line.filled());
        let mut bits = 0u128;
        for column in columns {
            let column = column as usize;
            if let Some(sum) = sums.get_mut(column) {
                let own = product(other.den, self.line.at(column)).wrapping_shr(cut);
                *sum = own.wrapping_add(product(factor, other.line.at(column)));
                bits |= sum.unsigned_abs();
            }
        }
        if cut > 0 || other.is_rounded {
            self.is_rounded = true;
        }
        self.shift = self.shift.saturating_add(cut);
        self.take(sums, columns, product(other.den, self.den), bits);
    }
}
