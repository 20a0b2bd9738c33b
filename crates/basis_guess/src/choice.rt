//! Which variable leaves the basis, and which enters it.
use crate::guess::Column;
use crate::line::Line;
use crate::ranges::Ranges;
use crate::rounding::product;
use crate::row::{Distance, Row};
use charges::UnitSet;

/// The row whose basic variable is furthest out of its range, and how far that is.
pub(crate) fn leaving(rows: &[Row], ranges: &Ranges, noise: i128) -> Option<(usize, Distance)> {
    let mut furthest = None;
    let mut most = -1i128;
    for (r, row) in rows.iter().enumerate() {
        if let Some(distance) = row.distance(ranges, noise) {
            let share = distance.amount.wrapping_div(row.den.max(1) as i128);
            if share > most {
                most = share;
                furthest = Some((r, distance));
            }
        }
    }
    furthest
}

/// A column that could enter, with the sizes of its entries in the cost row and in the row that is
/// left.
#[derive(Clone, Copy)]
struct Candidate {
    column: u32,
    cost: u64,
    entry: u64,
}

/// Whether the left one's reduced cost becomes 0 first. Of two that do so together, the greater
/// entry comes first.
fn comes_before(left: Candidate, right: Candidate) -> bool {
    let first = left.cost as u128 * right.entry as u128;
    let second = right.cost as u128 * left.entry as u128;
    first < second || (first == second && left.entry > right.entry)
}

/// Whether a change of the column's variable from its end moves the basic variable of a row with
/// this entry the right way.
fn helps(column: Column, entry: i64, raise: bool, ranges: &Ranges) -> bool {
    if entry == 0 || (entry > 0) == (column.at_high == raise) {
        return false;
    }
    ranges.of(column.variable).width() > 0
}

/// The columns that help.
fn helping(row: &Line, columns: &[Column], ranges: &Ranges, raise: bool) -> UnitSet {
    let mut found = row.filled();
    for k in row.filled() {
        if let Some(column) = columns.get(k as usize) {
            if k < 128 && !helps(*column, row.at(k as usize), raise, ranges) {
                found = found.without(k);
            }
        }
    }
    found
}

/// The column whose reduced cost becomes 0 first, among these.
fn first_column(row: &Line, costs: &Line, among: UnitSet) -> Option<u32> {
    let mut best = None;
    for column in among {
        let next = Candidate {
            column,
            cost: costs.at(column as usize).unsigned_abs(),
            entry: row.at(column as usize).unsigned_abs(),
        };
        best = earlier(best, next);
    }
    match best {
        Some(first) => Some(first.column),
        None => None,
    }
}

fn earlier(best: Option<Candidate>, next: Candidate) -> Option<Candidate> {
    match best {
        Some(first) if !comes_before(next, first) => Some(first),
        _ => Some(next),
    }
}

/// How far a column with this entry moves the row when its variable goes to its other end.
fn reach(entry: i64, column: Column, ranges: &Ranges) -> i128 {
    product(entry, ranges.of(column.variable).width()).wrapping_abs()
}

/// The column that enters for the basic variable of the row. Each one that comes before it is
/// passed, and goes to its other end, as the row stays out of its range all the same. `None` if all
/// have been passed.
pub(crate) fn entering(
    row: &Line,
    costs: &Line,
    columns: &mut [Column],
    ranges: &Ranges,
    distance: Distance,
) -> Option<usize> {
    let mut left = helping(row, columns, ranges, distance.raise);
    let mut amount = distance.amount;
    for _ in 0..columns.len() {
        let first = first_column(row, costs, left)?;
        let k = first as usize;
        let column = columns.get_mut(k)?;
        amount = amount.wrapping_sub(reach(row.at(k), *column, ranges));
        if amount <= 0 {
            return Some(k);
        }
        column.at_high = !column.at_high;
        if first < 128 {
            left = left.without(first);
        }
    }
    None
}
