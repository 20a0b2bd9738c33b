//! The columns of a report.

/// What a column has in its cells.
#[derive(Clone, Copy, Debug, PartialEq, Eq)]
pub enum Sort {
    /// Words, aligned to the left.
    Words,
    /// Numbers, with their points in one column of text. If all are 0, the column is left out.
    Numbers,
    /// Such numbers in a column that is kept even if all are 0.
    Sums,
}

/// What is measured of a cell, in bytes.
#[derive(Clone, Copy, Debug, PartialEq, Eq)]
pub enum Measure {
    /// All of it.
    Whole,
    /// The part before its point.
    Front,
    /// The part from its point on.
    Back,
}
