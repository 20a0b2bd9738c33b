use crate::Spot;
use crate::end::End;

/// The range of a price or of a cost, and the value that it has.
#[derive(Clone, Copy, Debug, PartialEq, Eq)]
pub struct Row {
    pub spot: Spot,
    pub from: End,
    /// In millionths.
    pub value: i64,
    pub to: End,
}
