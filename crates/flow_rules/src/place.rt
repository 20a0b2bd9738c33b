//! The columns of a tableau, and the places at which a number of a simplex method can leave the
//! range.

use integer_laws::Which;

/// A column of the tableau of a program, or an entry after the columns. For each unit, `X` is its
/// size above the least and `S` what is left to the greatest. For each row, `T` is what is left
/// over above the least and `W` what is left to the greatest. `Right` is the right side of a row,
/// `Scale` the factor of the costs in the cost row.
#[derive(Clone, Copy, Debug, PartialEq, Eq)]
pub enum Column {
    X(u32),
    S(u32),
    T(u32),
    W(u32),
    Right,
    Scale,
}

/// The number that is formed for a unit when its flow is read: the common denominator so far; the
/// least size times it; the size above the least times it; or the sum of the last two.
#[derive(Clone, Copy, Debug, PartialEq, Eq)]
pub enum FlowStep {
    Lcm,
    Shift,
    Scaled,
    Total,
}

/// The place at which a number is out of range. It may be an entry of the tableau after the column
/// `leave` is replaced by `enter`: in the row of a basis column or, for `None`, in the cost row. It
/// may be a number of a flow. Or it is step `at` of a cost, of the judging of flows, of a bound, or
/// of the bound by which a row refutes.
#[derive(Clone, Copy, Debug, PartialEq, Eq)]
pub enum Place {
    Entry {
        leave: Column,
        enter: Column,
        row: Option<Column>,
        column: Column,
        which: Which,
    },
    Flow {
        unit: u32,
        which: FlowStep,
    },
    Cost {
        at: u32,
    },
    FlowSum {
        at: u32,
    },
    Bound {
        at: u32,
    },
    Refute {
        row: Column,
        at: u32,
    },
}
