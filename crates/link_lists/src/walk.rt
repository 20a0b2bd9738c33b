//! `Walk`: the iterator over one list.

ghost use Rattle.std.specs.Iterator.{YieldsFirst, item_count};

use crate::lists::Lists;
use std::marker::Model;

/// The cells of one list in order, seen as the list of the cells that are left.
#[derive(Drop)]
pub struct Walk<'a> {
    pub(crate) lists: &'a Lists,
    pub(crate) cell: Option<u32>,
}

impl<'a> Model for Walk<'a> {
    ghost use Rattle.std.specs.Prelude.{ℕ, List};

    ghost Value = { List ℕ };

    ghost use Rattle.link_lists.specs.Walk.{left_of, IsOnTheWay};

    ghost view = { λ w. left_of w.lists.now w.cell };

    ghost invariant = { λ w. IsOnTheWay w.lists.now w.cell };
}

impl<'a> Iterator for Walk<'a> {
    type Item = u32;

    ghost next_gives = { YieldsFirst (λ left. left) };

    ghost remaining = { item_count (λ left. left) };

    fn next(&mut self) -> Option<u32> {
        let cell = self.cell?;
        let lists = self.lists;
        lists.are_apart();
        self.cell = lists.next(cell);
        Some(cell)
    }
}
