//! A network with its sizes and its cost.
ghost use Rattle.std.specs.Prelude.{◌≡◌, ◌≤ℤ◌, pos, length};
ghost use Rattle.tree_rules.specs.integer_laws.Range.{InRange, AllInRange};
ghost use Rattle.tree_rules.specs.Claim.{IsSized};
ghost use Rattle.branch_tree.specs.Sized.{IsKept};

use pgraph::UnitSet;
use std::marker::Model;

/// Units with a size for each in rising order of units, and the cost. Sizes are in millionths over
/// d. The cost over d and the payout period is in 10^-18 of the money unit. d is at least 1, and
/// all numbers are in range.
#[derive(Drop)]
pub struct Network {
    units: UnitSet,
    sizes: Vec<i128>,
    d: i128,
    cost: i128,
}

impl Model for Network {
    ghost use Rattle.tree_rules.specs.Claim as rules;
    ghost use Rattle.branch_tree.specs.Sized.{IsKept};

    ghost Value = { rules.Network };

    ghost view = { λ w. record { units = w.units; sizes = w.sizes.items; d = w.d; cost = w.cost } };

    ghost invariant = { λ w. IsKept
        (record { units = w.units; sizes = w.sizes.items; d = w.d; cost = w.cost }) };
}

impl Network {
    /// The network of these units, with their sizes and its cost.
    pub fn of(units: UnitSet, sizes: Vec<i128>, d: i128, cost: i128) -> Network
        requires one_size { length sizes.items ≡ length units }
        requires positive { pos 1 ≤ℤ d }
        requires sizes_in_range { AllInRange sizes.items }
        requires d_in_range { InRange d }
        requires cost_in_range { InRange cost }
        ensures { result ≡ record { units = units; sizes = sizes.items; d = d; cost = cost } }
    {
        units.rises();
        Network {
            units,
            sizes,
            d,
            cost,
        }
    }

    /// The units.
    pub fn units(&self) -> UnitSet
        ensures { result ≡ self.now.units }
    {
        self.units
    }

    /// The size of each unit in rising order, in millionths over d.
    pub fn sizes(&self) -> &[i128]
        ensures { result.now ≡ self.now.sizes }
    {
        &self.sizes
    }

    /// What sizes and cost are over.
    pub fn d(&self) -> i128
        ensures { result ≡ self.now.d }
    {
        self.d
    }

    /// The cost over d and the payout period, in 10^-18 of the money unit.
    pub fn cost(&self) -> i128
        ensures { result ≡ self.now.cost }
    {
        self.cost
    }

    /// The sizes, given back.
    pub fn into_sizes(self) -> Vec<i128>
        ensures { result.items ≡ self.sizes }
    {
        self.sizes
    }

    /// There is a size for each unit, d is at least 1, and all numbers are in range. A call gives
    /// this to a proof, and does nothing.
    pub fn is_sized(&self)
        ensures sized { IsSized self.now }
        ensures kept { IsKept self.now }
    {
        let _d = self.d;
    }
}
