//! The multipliers of a bound or of a refutation.
ghost use Rattle.std.specs.Prelude.{◌≡◌};
ghost use Rattle.tree_rules.specs.integer_laws.Range.{AllInRange};

use std::marker::Model;

/// One number for each row of a node's program, in rising order of rows. Each is in range.
#[derive(Drop)]
pub struct Multipliers {
    numbers: Vec<i128>,
}

impl Model for Multipliers {
    ghost use Rattle.std.specs.Prelude.{ℤ, List};
    ghost use Rattle.tree_rules.specs.integer_laws.Range.{AllInRange};

    ghost Value = { List ℤ };

    ghost view = { λ m. m.numbers.items };

    ghost invariant = { λ m. AllInRange m.numbers.items };
}

impl Multipliers {
    /// The list of these numbers.
    pub fn from_vec(numbers: Vec<i128>) -> Multipliers
        requires in_range { AllInRange numbers.items }
        ensures { result ≡ numbers.items }
    {
        Multipliers { numbers }
    }

    /// The numbers in order.
    pub fn numbers(&self) -> &[i128]
        ensures { result.now ≡ self.now }
    {
        &self.numbers
    }

    /// The numbers, given back.
    pub fn into_vec(self) -> Vec<i128>
        ensures { result.items ≡ self }
    {
        self.numbers
    }

    /// Each number is in range. A call gives this to a proof, and does nothing.
    pub fn are_in_range(&self)
        ensures { AllInRange self.now }
    {
        let _count = self.numbers.len();
    }
}
