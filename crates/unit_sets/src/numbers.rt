ghost use Rattle.std.specs.Iterator.{YieldsFirst, item_count};

use crate::{MatSet, UnitSet};
use std::marker::Model;

/// The numbers of a set of units, the least first. Contracts see it as the list of the numbers that
/// are left.
#[derive(Debug, Drop)]
pub struct UnitNumbers {
    pub(crate) left: UnitSet,
}

impl Model for UnitNumbers {
    ghost use Rattle.std.specs.Prelude.{List, ℕ};

    ghost Value = { List ℕ };

    ghost view = { λ it. it.left };
}

impl Iterator for UnitNumbers {
    type Item = u32;

    ghost next_gives = { YieldsFirst (λ left. left) };

    ghost remaining = { item_count (λ left. left) };

    fn next(&mut self) -> Option<u32> {
        self.left.take_least()
    }
}

impl IntoIterator for UnitSet {
    ghost use Rattle.std.specs.Prelude.{◌≡◌};
    ghost use Rattle.number_sets.specs.Sets.{IsSet};

    type Item = u32;

    type IntoIter = UnitNumbers;

    ghost into_iter_gives = { λ set it. (it ≡ set) × IsSet 128 set };

    fn into_iter(self) -> UnitNumbers {
        self.rises();
        UnitNumbers { left: self }
    }
}

/// The numbers of a set of materials, the least first. Contracts see it as the list of the numbers
/// that are left.
#[derive(Debug, Drop)]
pub struct MatNumbers {
    pub(crate) left: MatSet,
}

impl Model for MatNumbers {
    ghost use Rattle.std.specs.Prelude.{List, ℕ};

    ghost Value = { List ℕ };

    ghost view = { λ it. it.left };
}

impl Iterator for MatNumbers {
    type Item = u32;

    ghost next_gives = { YieldsFirst (λ left. left) };

    ghost remaining = { item_count (λ left. left) };

    fn next(&mut self) -> Option<u32> {
        self.left.take_least()
    }
}

impl IntoIterator for MatSet {
    ghost use Rattle.std.specs.Prelude.{◌≡◌};
    ghost use Rattle.number_sets.specs.Sets.{IsSet};

    type Item = u32;

    type IntoIter = MatNumbers;

    ghost into_iter_gives = { λ set it. (it ≡ set) × IsSet 256 set };

    fn into_iter(self) -> MatNumbers {
        self.rises();
        MatNumbers { left: self }
    }
}
