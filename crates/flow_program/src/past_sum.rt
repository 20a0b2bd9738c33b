/// The first step of a sum that is out of range. The steps are the products, sums and differences
/// that it forms, counted from 0.
#[derive(Clone, Copy, Debug, PartialEq, Eq)]
pub struct PastSum {
    pub at: u32,
}
