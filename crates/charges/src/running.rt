/// A sum so far, and the number of the step that comes next.
#[derive(Clone, Copy)]
pub(crate) struct Running {
    pub(crate) sum: i128,
    pub(crate) at: u32,
}
