/// Which number of an entry is out of range: the first product, the second, or their difference.
#[derive(Clone, Copy, Debug, PartialEq, Eq)]
pub enum Which {
    Left,
    Right,
    Difference,
}
