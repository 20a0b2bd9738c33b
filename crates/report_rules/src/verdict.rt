use crate::lower_bound::LowerBound;
use rank_rules::Why;

/// What a branch tree proves of its claim.
#[derive(Clone, Copy, Debug, PartialEq, Eq)]
pub enum Verdict {
    /// All of it.
    Proved,
    /// All but for its open leaves; or nothing is claimed. No network costs less than the lower
    /// bound, if one is known.
    Unfinished { low: Option<LowerBound> },
    /// Nothing: `node` is the first node in preorder, counted from 0, that fails.
    Fails { node: u32, why: Why },
}
