//! The tableau.
use crate::choice::{entering, leaving};
use crate::cost_row::CostRow;
use crate::line::Line;
use crate::numbers::Numbers;
use crate::ranges::{Ranges, Variable};
use crate::rounding::{narrowed, shortened};
use crate::row::{Distance, Pivot, Row};
use charges::{Node, UnitSet};
use std::alloc::{AllocError, Global};

/// A variable outside the basis, and the end at which it is.
#[derive(Clone, Copy, Debug)]
pub struct Column {
    pub variable: Variable,
    pub at_high: bool,
}

/// How a look ends: with a basis that may be that of least flows, with a row that may show that
/// there are none, or with nothing.
#[derive(Clone, Copy, Debug, PartialEq, Eq)]
pub enum Outcome {
    Basis,
    Row,
    Nothing,
}

/// A tableau over rounded rows, kept from node to node.
#[derive(Drop)]
pub struct Guess {
    rows: Vec<Row>,
    cost_row: CostRow,
    columns: Vec<Column>,
    ranges: Ranges,
    // What the cost row takes a size of 1 of each unit to cost.
    unit_costs: Vec<i64>,
    pivots: u32,
    multipliers: Vec<i64>,
    scale: i64,
    shift: u32,
    // What a turn works with: the ends of the columns, the pivot row, and sums.
    ends: Line,
    pivot: Line,
    sums: Vec<i128>,
}

// A look gives up after so many pivots. The tableau starts from the slack basis again after so
// many. Those of the look that started from it do not count: on a large problem that look alone
// takes more.
const MOST_PIVOTS: u32 = 400;

const STALE: u32 = 100;

const FIRST: Column = Column {
    variable: Variable::Size(0),
    at_high: false,
};

impl Guess {
    /// Makes room for the nodes of problems with so many units and materials. `Err` comes only when
    /// memory runs out.
    pub fn open(alloc: Global, units: u32, materials: u32) -> Result<Guess, AllocError> {
        let (width, height) = (units as usize, materials as usize);
        let mut rows = Vec::new(alloc);
        for material in 0..height {
            rows.push(Row::open(alloc, Variable::Balance(material), width)?)?;
        }
        let cost_row = CostRow::open(alloc, width)?;
        let columns = vec![in alloc; FIRST; width]?;
        let ranges = Ranges::open(alloc, width, height)?;
        let unit_costs = vec![in alloc; 0i64; width]?;
        let multipliers = vec![in alloc; 0i64; height]?;
        let ends = Line::open(alloc, width)?;
        let pivot = Line::open(alloc, width)?;
        let sums = vec![in alloc; 0i128; width]?;
        Ok(Guess {
            rows,
            cost_row,
            columns,
            ranges,
            unit_costs,
            pivots: STALE,
            multipliers,
            scale: 1,
            shift: 0,
            ends,
            pivot,
            sums,
        })
    }

    /// Looks for a basis of least flows of the node, from the basis that is kept, or `anew` from
    /// the slack basis. It takes at most 400 pivots, each linear in the number of the tableau's
    /// entries, and no memory.
    pub fn look(&mut self, numbers: &Numbers, node: &Node, anew: bool) -> Outcome {
        self.ranges.set(numbers, node);
        self.search(numbers, node, anew)
    }

    /// Looks, from the slack basis, for a basis of least flows of the node whose sizes may be
    /// rounded. Its numbers are finer by `numbers.fineness()` bits, and its rows keep a little off
    /// the ends of their ranges. Otherwise it is as `look`.
    pub fn look_inside(&mut self, numbers: &Numbers, node: &Node) -> Outcome {
        self.ranges.set_inside(numbers, node);
        self.search(numbers, node, true)
    }

    /// Looks for a basis of least flows in the ranges that were taken last.
    fn search(&mut self, numbers: &Numbers, node: &Node, anew: bool) -> Outcome {
        self.set_costs(numbers, node);
        let is_fresh = anew || self.pivots >= STALE;
        if is_fresh {
            self.start(numbers);
        }
        for _ in 0..MOST_PIVOTS {
            let noise = self.set_ends();
            let Some((r, distance)) = leaving(&self.rows, &self.ranges, noise) else {
                self.read_costs(numbers);
                return Outcome::Basis;
            };
            let Some(k) = self.enters(r, distance) else {
                self.read_row(r, distance.raise);
                return Outcome::Row;
            };
            self.exchange(r, k, distance.raise);
            if !is_fresh {
                self.pivots = self.pivots.saturating_add(1);
            }
        }
        self.pivots = STALE;
        Outcome::Nothing
    }

    /// Forgets the basis that is kept, when the numbers of another problem come. The next look
    /// begins as the first one did.
    pub fn forget(&mut self) {
        self.pivots = STALE;
        for column in self.columns.iter_mut() {
            column.at_high = false;
        }
    }

    /// The variables outside the basis.
    pub fn columns(&self) -> &[Column] {
        &self.columns
    }

    /// A number for each material: times 2^`shift` over `scale` it is near the multiplier of the
    /// cost after `Basis`, of the row after `Row`.
    pub fn multipliers(&self) -> &[i64] {
        &self.multipliers
    }

    /// The scale of the multipliers, at least 1: after `Row` the greatest of their absolute values.
    pub fn scale(&self) -> i64 {
        self.scale
    }

    /// How many bits the multipliers have lost; none after `Row`.
    pub fn shift(&self) -> u32 {
        self.shift
    }

    /// After `look` ended with `Basis` at the node: writes so many times the scaled size of each
    /// unit, as a whole number between the ends of that size. A size at an end is exact, another
    /// one is as near as the rows have it. Linear in the number of units.
    pub fn write_sizes(&self, numbers: &Numbers, node: &Node, factor: i128, sizes: &mut [i64]) {
        for column in self.columns.iter() {
            if let Variable::Size(unit) = column.variable {
                let ends = numbers.size_ends(node, unit).times(factor);
                put_size_of(sizes, unit, ends.end(column.at_high));
            }
        }
        let factor_of_row = factor.wrapping_shl(numbers.end_shift());
        for row in self.rows.iter() {
            if let Variable::Size(unit) = row.basic {
                let ends = numbers.size_ends(node, unit).times(factor);
                put_size_of(sizes, unit, ends.nearest(row.nearest_times(factor_of_row)));
            }
        }
    }

    /// The ranges that were taken last.
    pub(crate) fn ranges(&self) -> &Ranges {
        &self.ranges
    }

    /// After `Basis`: writes the whole number of its range that is nearest to the size of each
    /// unit.
    pub(crate) fn round_sizes(&self, sizes: &mut [i64]) {
        for (k, column) in self.columns.iter().enumerate() {
            self.put_size(sizes, column.variable, self.ends.at(k));
        }
        for row in self.rows.iter() {
            self.put_size(sizes, row.basic, row.nearest());
        }
    }

    /// Writes the number of its range that is nearest to this one, if the variable is a size.
    fn put_size(&self, sizes: &mut [i64], variable: Variable, number: i64) {
        if let Variable::Size(unit) = variable {
            if let Some(size) = sizes.get_mut(unit) {
                *size = self.ranges.of(variable).nearest(number);
            }
        }
    }

    /// Goes back to the slack basis: each balance by the rates of the units.
    fn start(&mut self, numbers: &Numbers) {
        for (material, row) in self.rows.iter_mut().enumerate() {
            row.clear(Variable::Balance(material));
        }
        for (unit, column) in self.columns.iter_mut().enumerate() {
            column.variable = Variable::Size(unit);
            for rate in numbers.rates(unit) {
                if let Some(row) = self.rows.get_mut(rate.material) {
                    row.put(unit, rate.rate);
                }
            }
        }
        self.cost_row.start(&self.unit_costs);
        self.pivots = 0;
    }

    /// Takes the costs of the node.
    fn set_costs(&mut self, numbers: &Numbers, node: &Node) {
        for unit in 0..self.unit_costs.len() {
            let cost = shortened(numbers.cost(node, unit), numbers.cost_shift());
            if let Some(kept) = self.unit_costs.get_mut(unit) {
                let change = cost.wrapping_sub(*kept);
                *kept = cost;
                if change != 0 {
                    self.change_cost(unit, change);
                }
            }
        }
    }

    /// Adds so much for each size of the unit to the cost.
    fn change_cost(&mut self, unit: usize, change: i64) {
        let size = Variable::Size(unit);
        for (k, column) in self.columns.iter().enumerate() {
            if column.variable == size {
                self.cost_row.add(k, change, &mut self.sums);
                return;
            }
        }
        for row in self.rows.iter() {
            if row.basic == size {
                self.cost_row.add_row(change, row, &mut self.sums);
                return;
            }
        }
    }

    /// Puts each column at the end that its reduced cost needs, and gives each row its value. Gives
    /// how much noise the rounding of rows can make of these ends.
    fn set_ends(&mut self) -> i128 {
        let mut sizes = 0i128;
        let mut moved = UnitSet::empty();
        for (k, (column, cost)) in self
            .columns
            .iter_mut()
            .zip(self.cost_row.line.numbers())
            .enumerate()
        {
            if *cost != 0 {
                column.at_high = *cost < 0;
            }
            let end = self.ranges.of(column.variable).end(column.at_high);
            sizes = sizes.wrapping_add(end.unsigned_abs() as i128);
            if end != self.ends.at(k) {
                self.ends.put(k, end);
                if k < 128 {
                    moved = moved.with(k as u32);
                }
            }
        }
        for row in self.rows.iter_mut() {
            row.set_value(&self.ends, moved);
        }
        sizes.wrapping_shl(8)
    }

    /// The column that enters for the basic variable of a row.
    fn enters(&mut self, r: usize, distance: Distance) -> Option<usize> {
        let row = self.rows.get(r)?;
        entering(
            &row.line,
            &self.cost_row.line,
            &mut self.columns,
            &self.ranges,
            distance,
        )
    }

    /// Takes the variable of column k into the basis for that of row r, which goes to the end that
    /// it was beyond.
    fn exchange(&mut self, r: usize, k: usize, raise: bool) {
        let Some(row) = self.rows.get_mut(r) else {
            return;
        };
        let Some(column) = self.columns.get_mut(k) else {
            return;
        };
        let leaves = row.basic;
        row.basic = column.variable;
        column.variable = leaves;
        column.at_high = !raise;
        row.turn(k);
        self.pivot.copy(&row.line);
        let pivot = Pivot {
            column: k,
            den: row.den,
            is_rounded: row.is_rounded,
            line: &self.pivot,
        };
        for (i, other) in self.rows.iter_mut().enumerate() {
            if i != r {
                other.substitute(pivot, &mut self.sums);
            }
        }
        self.cost_row.substitute(pivot, &mut self.sums);
    }

    /// Reads the multipliers of the cost row.
    fn read_costs(&mut self, numbers: &Numbers) {
        self.scale = self.cost_row.den;
        self.shift = self.cost_row.shift.saturating_add(numbers.cost_shift());
        put_multipliers(
            &mut self.multipliers,
            &self.columns,
            self.cost_row.line.numbers(),
            false,
        );
    }

    /// Reads the multipliers of a row whose basic variable can't be raised, or can't be lowered.
    fn read_row(&mut self, r: usize, raise: bool) {
        let Some(row) = self.rows.get(r) else {
            return;
        };
        put_multipliers(
            &mut self.multipliers,
            &self.columns,
            row.line.numbers(),
            raise,
        );
        if let Variable::Balance(material) = row.basic {
            if let Some(multiplier) = self.multipliers.get_mut(material) {
                *multiplier = negated_if(!raise, row.den);
            }
        }
        self.scale = 1;
        self.shift = 0;
        for multiplier in &self.multipliers {
            self.scale = self.scale.max(multiplier.wrapping_abs());
        }
    }
}

/// Writes the size of a unit.
fn put_size_of(sizes: &mut [i64], unit: usize, size: i128) {
    if let Some(kept) = sizes.get_mut(unit) {
        *kept = narrowed(size);
    }
}

fn negated_if(negate: bool, number: i64) -> i64 {
    if negate {
        number.wrapping_neg()
    } else {
        number
    }
}

/// Writes the entries of the balances outside the basis, and 0 for the other materials.
fn put_multipliers(multipliers: &mut [i64], columns: &[Column], entries: &[i64], negate: bool) {
    for multiplier in multipliers.iter_mut() {
        *multiplier = 0;
    }
    for (column, entry) in columns.iter().zip(entries) {
        if let Variable::Balance(material) = column.variable {
            if let Some(multiplier) = multipliers.get_mut(material) {
                *multiplier = negated_if(negate, *entry);
            }
        }
    }
}
