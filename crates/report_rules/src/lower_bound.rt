ghost use Rattle.std.specs.Prelude.{◌≤ℤ◌, pos};
ghost use Rattle.rank_rules.specs.integer_laws.Range.{InRange};

/// A cost over d that no network undercuts.
#[derive(Clone, Copy, Debug, PartialEq, Eq)]
pub struct LowerBound {
    pub cost: i128,
    pub d: i128,
    ghost cost_in_range: { InRange cost },
    ghost d_in_range: { InRange d },
    ghost positive: { pos 1 ≤ℤ d },
}
