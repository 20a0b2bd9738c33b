use crate::measures::Measures;
use cert_check::Site;

/// A problem with its graph, and the units of measure that its text names.
#[derive(Clone, Copy)]
pub struct Plant<'a> {
    pub site: &'a Site<'a>,
    pub measures: &'a Measures,
}
