//! A tableau in floating point: rows over columns outside the basis.
use std::alloc::{AllocError, Global};

/// A variable: the size of a unit, what a unit is built beyond its share, or the sum of a row.
#[derive(Clone, Copy, Debug, PartialEq, Eq)]
pub(crate) enum Variable {
    Size(usize),
    Built(usize),
    Sum(usize),
}

/// The ends of a variable.
#[derive(Clone, Copy)]
pub(crate) struct Ends {
    pub(crate) low: f64,
    pub(crate) high: f64,
}

impl Ends {
    pub(crate) fn end(self, at_high: bool) -> f64 {
        if at_high { self.high } else { self.low }
    }

    /// How far a value is beyond the ends, over their measure; above 0 if it is too low.
    fn lack(self, value: f64) -> f64 {
        let measure = magnitude(value).max(1.0);
        if value < self.low {
            (self.low - value) / measure
        } else if value > self.high {
            (self.high - value) / measure
        } else {
            0.0
        }
    }
}

pub(crate) fn magnitude(x: f64) -> f64 {
    if x < 0.0 { -x } else { x }
}

/// A variable outside the basis, the end at which it is, and what one of it adds to the cost.
#[derive(Clone, Copy)]
pub(crate) struct Column {
    pub(crate) variable: Variable,
    pub(crate) ends: Ends,
    pub(crate) at_high: bool,
    pub(crate) cost: f64,
}

impl Column {
    pub(crate) fn value(&self) -> f64 {
        self.ends.end(self.at_high)
    }
}

/// A variable of the basis as a sum over the columns.
#[derive(Drop)]
pub(crate) struct Row {
    pub(crate) variable: Variable,
    pub(crate) ends: Ends,
    pub(crate) entries: Vec<f64>,
}

impl Row {
    fn copy(&self, alloc: Global) -> Result<Row, AllocError> {
        let mut entries = vec![in alloc; 0.0f64; self.entries.len()]?;
        for (entry, old) in entries.iter_mut().zip(&self.entries) {
            *entry = *old;
        }
        Ok(Row {
            variable: self.variable,
            ends: self.ends,
            entries,
        })
    }

    fn value(&self, columns: &[Column]) -> f64 {
        let mut sum = 0.0;
        for (entry, column) in self.entries.iter().zip(columns) {
            sum = sum + *entry * column.value();
        }
        sum
    }

    /// Puts the turned row in the place of its column.
    fn substitute(&mut self, k: usize, pivot: &[f64]) {
        let Some(entry) = self.entries.get_mut(k) else {
            return;
        };
        let factor = *entry;
        if factor == 0.0 {
            return;
        }
        *entry = 0.0;
        for (entry, of_pivot) in self.entries.iter_mut().zip(pivot) {
            *entry = *entry + factor * *of_pivot;
        }
    }
}

/// What a search in the tableau ended with.
#[derive(Clone, Copy, Debug, PartialEq, Eq)]
pub(crate) enum Outcome {
    /// The least cost.
    Least,
    /// A cost that is enough.
    Enough,
    /// Nothing.
    Nothing,
}

#[derive(Drop)]
pub(crate) struct Tableau {
    pub(crate) columns: Vec<Column>,
    pub(crate) rows: Vec<Row>,
    pub(crate) fixed: f64,
    pivot: Vec<f64>,
}

const MOST_PIVOTS: u32 = 600;

// What is not 0 in a row is larger than this.
const SMALL: f64 = 0.000000001;

// A sum may be so far beyond its ends, over its measure.
const SLACK: f64 = 0.00000001;

impl Tableau {
    pub(crate) fn open(alloc: Global) -> Tableau {
        Tableau {
            columns: Vec::new(alloc),
            rows: Vec::new(alloc),
            fixed: 0.0,
            pivot: Vec::new(alloc),
        }
    }

    /// Another tableau like this one. `Err` comes only when memory runs out.
    pub(crate) fn copy(&self, alloc: Global) -> Result<Tableau, AllocError> {
        let mut columns = Vec::new(alloc);
        for column in self.columns.iter() {
            columns.push(*column)?;
        }
        let mut rows = Vec::new(alloc);
        for row in self.rows.iter() {
            rows.push(row.copy(alloc)?)?;
        }
        let mut copy = Tableau {
            columns,
            rows,
            fixed: self.fixed,
            pivot: Vec::new(alloc),
        };
        copy.make_room(alloc)?;
        Ok(copy)
    }

    /// Whether the tableau has a variable.
    pub(crate) fn has(&self, variable: Variable) -> bool {
        self.columns.iter().any(|it| it.variable == variable)
            || self.rows.iter().any(|it| it.variable == variable)
    }

    /// Lets a variable be so much at least.
    pub(crate) fn set_low(&mut self, variable: Variable, low: f64) {
        for column in self.columns.iter_mut() {
            if column.variable == variable {
                column.ends.low = low;
            }
        }
        for row in self.rows.iter_mut() {
            if row.variable == variable {
                row.ends.low = low;
            }
        }
    }

    /// Adds so much to the cost of a variable.
    pub(crate) fn raise_cost(&mut self, variable: Variable, amount: f64) {
        for column in self.columns.iter_mut() {
            if column.variable == variable {
                column.cost = column.cost + amount;
            }
        }
        for row in self.rows.iter() {
            if row.variable == variable {
                for (entry, column) in row.entries.iter().zip(&mut self.columns) {
                    column.cost = column.cost + amount * *entry;
                }
            }
        }
    }

    /// The cost of the columns at their ends: no less is possible.
    pub(crate) fn cost(&self) -> f64 {
        let mut sum = self.fixed;
        for column in self.columns.iter() {
            sum = sum + column.cost * column.value();
        }
        sum
    }

    /// Adds so much to the cost of each size, by the number of its unit. All sizes are outside the
    /// basis.
    pub(crate) fn raise_costs(&mut self, more: &[f64]) {
        for column in self.columns.iter_mut() {
            if let Variable::Size(unit) = column.variable {
                if let Some(amount) = more.get(unit) {
                    column.cost = column.cost + *amount;
                }
            }
        }
    }

    /// The value of a variable.
    pub(crate) fn value_of(&self, variable: Variable) -> f64 {
        for column in self.columns.iter() {
            if column.variable == variable {
                return column.value();
            }
        }
        for row in self.rows.iter() {
            if row.variable == variable {
                return row.value(&self.columns);
            }
        }
        0.0
    }

    /// What one more of a variable outside the basis adds to the cost; 0 for one of the basis.
    pub(crate) fn cost_of(&self, variable: Variable) -> f64 {
        for column in self.columns.iter() {
            if column.variable == variable {
                return column.cost;
            }
        }
        0.0
    }

    /// Puts each column at the end that its cost needs.
    fn set_ends(&mut self) {
        for column in self.columns.iter_mut() {
            if column.cost > 0.0 {
                column.at_high = false;
            } else if column.cost < 0.0 {
                column.at_high = true;
            }
        }
    }

    /// The row that is farthest beyond its ends, and whether it is too low.
    fn leaving(&self) -> Option<(usize, bool)> {
        let mut found = None;
        let mut most = SLACK;
        for (r, row) in self.rows.iter().enumerate() {
            let lack = row.ends.lack(row.value(&self.columns));
            if magnitude(lack) > most {
                most = magnitude(lack);
                found = Some((r, lack > 0.0));
            }
        }
        found
    }

    /// The column that takes the place of a row that has to rise, or to fall.
    fn entering(&self, r: usize, rises: bool) -> Option<usize> {
        let row = self.rows.get(r)?;
        let mut found = None;
        let mut least = 0.0;
        let mut size = 0.0;
        for (k, (entry, column)) in row.entries.iter().zip(&self.columns).enumerate() {
            let moves = if column.at_high != rises {
                *entry
            } else {
                -*entry
            };
            if moves <= SMALL || column.ends.low >= column.ends.high {
                continue;
            }
            let ratio = magnitude(column.cost) / moves;
            if found.is_none() || ratio < least || (ratio == least && moves > size) {
                least = ratio;
                size = moves;
                found = Some(k);
            }
        }
        found
    }

    /// Takes the variable of column k into the basis for that of row r, which goes to one of its
    /// ends.
    fn exchange(&mut self, r: usize, k: usize, rises: bool) {
        let Some(row) = self.rows.get_mut(r) else {
            return;
        };
        let Some(column) = self.columns.get_mut(k) else {
            return;
        };
        let Some(entry) = row.entries.get_mut(k) else {
            return;
        };
        let factor = *entry;
        if factor == 0.0 {
            return;
        }
        *entry = -1.0;
        let (variable, ends) = (row.variable, row.ends);
        row.variable = column.variable;
        row.ends = column.ends;
        column.variable = variable;
        column.ends = ends;
        column.at_high = !rises;
        let cost = column.cost;
        column.cost = 0.0;
        for (entry, kept) in row.entries.iter_mut().zip(&mut self.pivot) {
            *entry = -*entry / factor;
            *kept = *entry;
        }
        for (i, other) in self.rows.iter_mut().enumerate() {
            if i != r {
                other.substitute(k, &self.pivot);
            }
        }
        for (column, of_pivot) in self.columns.iter_mut().zip(&self.pivot) {
            column.cost = column.cost + cost * *of_pivot;
        }
    }

    /// Turns until no row is beyond its ends, or the cost is enough.
    pub(crate) fn search(&mut self, enough: f64) -> Outcome {
        for _ in 0..MOST_PIVOTS {
            self.set_ends();
            if self.cost() > enough {
                return Outcome::Enough;
            }
            let Some((r, rises)) = self.leaving() else {
                return Outcome::Least;
            };
            let Some(k) = self.entering(r, rises) else {
                return Outcome::Nothing;
            };
            self.exchange(r, k, rises);
        }
        Outcome::Nothing
    }

    /// Room for the turned row. `Err` comes only when memory runs out.
    pub(crate) fn make_room(&mut self, alloc: Global) -> Result<(), AllocError> {
        self.pivot = vec![in alloc; 0.0f64; self.columns.len()]?;
        Ok(())
    }

    /// Adds a row for a sum over variables. `Err` comes only when memory runs out.
    pub(crate) fn add_row(
        &mut self,
        alloc: Global,
        sum: &[(Variable, f64)],
        ends: Ends,
    ) -> Result<(), AllocError> {
        let mut entries = vec![in alloc; 0.0f64; self.columns.len()]?;
        for (variable, factor) in sum {
            for (k, column) in self.columns.iter().enumerate() {
                if column.variable == *variable {
                    if let Some(entry) = entries.get_mut(k) {
                        *entry = *entry + *factor;
                    }
                }
            }
            for row in self.rows.iter() {
                if row.variable == *variable {
                    for (entry, of_row) in entries.iter_mut().zip(&row.entries) {
                        *entry = *entry + *factor * *of_row;
                    }
                }
            }
        }
        let variable = Variable::Sum(self.rows.len());
        self.rows.push(Row {
            variable,
            ends,
            entries,
        })?;
        Ok(())
    }
}
