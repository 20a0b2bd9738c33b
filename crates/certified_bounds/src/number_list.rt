//! A list of numbers in range that is filled again and again.
ghost use Rattle.std.specs.Prelude.{◌≡◌};
ghost use Rattle.scaled_flows.specs.integer_laws.Range.{InRange, AllInRange};

use std::alloc::{AllocError, Global};
use std::marker::Model;

/// Numbers in range, as many as there is room for. Contracts see the list.
#[derive(Drop)]
pub(crate) struct NumberList {
    numbers: Vec<i128>,
}

impl Model for NumberList {
    ghost use Rattle.std.specs.Prelude.{List, ℤ};
    ghost use Rattle.scaled_flows.specs.integer_laws.Range.{AllInRange};

    ghost Value = { List ℤ };

    ghost view = { λ l. l.numbers.items };

    ghost invariant = { λ l. AllInRange l.numbers.items };
}

/// The number without so many of its last bits.
fn shortened(number: i128, by: u32) -> i128
    ensures { InRange result }
{
    let rest = number.wrapping_shr(by.min(127));
    if rest == i128::MIN { 0 } else { rest }
}

/// Drops so many of the last bits of each number.
fn shorten_all(numbers: &mut [i128], by: u32)
    requires { AllInRange numbers.old }
    ensures { AllInRange numbers.new }
{
    'all: for number in numbers.iter_mut() {
        *number = shortened(*number, by);
    }
}

impl NumberList {
    pub(crate) fn open(alloc: Global, most: usize) -> Result<NumberList, AllocError> {
        let numbers = Vec::with_capacity(alloc, most)?;
        Ok(NumberList { numbers })
    }

    pub(crate) fn clear(&mut self) {
        self.numbers.clear();
    }

    /// Appends a number, unless it is out of range or there is no room for it.
    pub(crate) fn push(&mut self, number: i128) -> bool {
        number != i128::MIN && self.numbers.push(number).is_ok()
    }

    /// Appends the number, if there is one.
    pub(crate) fn push_some(&mut self, number: Option<i128>) -> bool {
        match number {
            Some(number) => self.push(number),
            None => false,
        }
    }

    /// How many of the last bits are 0 in each number; 128 if all numbers are 0.
    pub(crate) fn idle_bits(&self) -> u32 {
        let mut bits = 0u128;
        for number in &self.numbers {
            bits |= number.unsigned_abs();
        }
        bits.trailing_zeros()
    }

    /// Drops so many of the last bits of each number.
    pub(crate) fn shorten(&mut self, by: u32) {
        shorten_all(&mut self.numbers, by);
    }

    pub(crate) fn numbers(&self) -> &[i128]
        ensures { result.now ≡ self.now }
    {
        &self.numbers
    }

    /// Each number is in range. A call proves this, and does nothing.
    pub(crate) fn are_in_range(&self)
        ensures { AllInRange self.now }
    {
        let _count = self.numbers.len();
    }
}
