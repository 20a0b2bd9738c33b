//! The multipliers of a bound, with what they are over.
ghost use Rattle.std.specs.Prelude.{◌≡◌, ◌<◌, length, IfOk};
ghost use Rattle.tree_rules.specs.integer_laws.Range.{InRange, AllInRange};
ghost use Rattle.branch_tree.specs.Scaled.{scaled_of};

use std::alloc::{AllocError, Global};
use std::marker::Model;

/// A scale d, and one number for each row of a node's program, in rising order of rows. The bound
/// that the numbers give is over d. All are in range. They are in one list, the scale first, so
/// that a tree of many bounds stays small.
#[derive(Drop)]
pub struct Scaled {
    numbers: Vec<i128>,
}

impl Model for Scaled {
    ghost use Rattle.std.specs.Prelude.{◌<◌, length};
    ghost use Rattle.tree_rules.specs.integer_laws.Range.{AllInRange};
    ghost use Rattle.tree_rules.specs.Leaf as rules;
    ghost use Rattle.branch_tree.specs.Scaled.{scaled_of};

    ghost Value = { rules.Scaled };

    ghost view = { λ s. scaled_of s.numbers.items };

    ghost invariant = { λ s. (0 < length s.numbers.items) × AllInRange s.numbers.items };
}

impl Scaled {
    /// The first number as the scale of the others.
    pub fn from_vec(numbers: Vec<i128>) -> Scaled
        requires some { 0 < length numbers.items }
        requires in_range { AllInRange numbers.items }
        ensures { result ≡ scaled_of numbers.items }
    {
        Scaled { numbers }
    }

    /// A copy of the multipliers, after their scale.
    pub fn of(alloc: Global, d: i128, ys: &[i128]) -> Result<Scaled, AllocError>
        requires scale { InRange d }
        requires multipliers { AllInRange ys.now }
        ensures { IfOk result (λ s. s ≡ record { d = d; ys = ys.now }) }
    {
        let mut numbers = Vec::with_capacity(alloc, ys.len() + 1)?;
        numbers.push(d)?;
        numbers.extend_from_slice(ys)?;
        Ok(Scaled { numbers })
    }

    /// What the multipliers are over.
    pub fn d(&self) -> i128
        ensures { result ≡ self.now.d }
    {
        self.numbers[0]
    }

    /// The multipliers in order.
    pub fn ys(&self) -> &[i128]
        ensures { result.now ≡ self.now.ys }
    {
        &self.numbers[1..]
    }

    /// The scale, and then the multipliers.
    pub fn numbers(&self) -> &[i128]
        ensures is { scaled_of result.now ≡ self.now }
        ensures some { 0 < length result.now }
        ensures in_range { AllInRange result.now }
    {
        &self.numbers
    }

    /// All numbers are in range. A call gives this to a proof, and does nothing.
    pub fn are_in_range(&self)
        ensures scale { InRange self.now.d }
        ensures multipliers { AllInRange self.now.ys }
    {
        let _count = self.numbers.len();
    }
}
