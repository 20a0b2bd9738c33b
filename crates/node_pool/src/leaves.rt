//! `Leaves`: the open leaves in rising order of value.

ghost use Rattle.std.specs.Prelude.{◌≡◌, [], ℕ, true, false, Some, ◌<◌, ◌+◌, ◌^◌, length};
ghost use Rattle.std.specs.Prelude.{slice_set, IfOk, OnErr};
ghost use Rattle.std.specs.List.{find};
ghost use Rattle.exact_numbers.specs.MixedOrder.{mixed_cmp};
ghost use Rattle.link_lists.specs.Lists.{first, following, has, row, without, IsListed};
ghost use Rattle.node_pool.specs.Order.{OpenLeaves, is_at_least, put_before, second, IsRising};

use crate::index::Index;
use exact_numbers::Mixed;
use link_lists::Lists;
use std::alloc::{AllocError, Global};
use std::marker::Model;

/// The open leaves, seen as the list of their numbers.
#[derive(Drop)]
pub struct Leaves {
    // List 0 has the leaves.
    lists: Lists,
    room: u32,
    // For each node, whether it is an open leaf.
    marks: Vec<bool>,
    index: Index,
}

impl Model for Leaves {
    ghost use Rattle.link_lists.specs.Lists.{row};
    ghost use Rattle.node_pool.specs.Order.{OpenLeaves};

    ghost Value = { OpenLeaves };

    ghost use Rattle.node_pool.specs.OneList.{IsOneList};

    ghost view = { λ s. record { leaves = row s.lists.lists 0; room = s.room } };

    ghost invariant = { λ s. IsOneList s.lists s.room s.marks.items };
}

/// Whether the leaf has at least the value `value`.
fn is_at_least(values: &Vec<Mixed>, value: &Mixed, leaf: u32) -> bool
    requires { leaf < length values.now.items }
    ensures { result ≡ is_at_least values.now.items value.now leaf }
{
    value.cmp(&values[leaf as usize]).is_le()
}

/// From a leaf of less value on to the first one that has at least this value.
fn on_to_first(lists: &Lists, values: &Vec<Mixed>, value: &Mixed, leaf: u32) -> Option<u32>
    requires listed { has (row lists.now.lists 0) leaf ≡ true }
    requires lower { is_at_least values.now.items value.now leaf ≡ false }
    requires known { (c : ℕ) → has (row lists.now.lists 0) c ≡ true
        → c < length values.now.items }
    requires rising { IsRising values.now.items (row lists.now.lists 0) }
    ensures { result ≡ find (is_at_least values.now.items value.now) (row lists.now.lists 0) }
{
    lists.are_apart();
    let mut leaf = leaf;
    while let Some(after) = lists.next(leaf) {
        if is_at_least(values, value, after) {
            return Some(after);
        }
        leaf = after;
    }
    None
}

fn mark(marks: &mut Vec<bool>, leaf: u32, is_open: bool)
    ensures { marks.new.items ≡ slice_set marks.old.items leaf is_open }
{
    if (leaf as usize) < marks.len() {
        marks[leaf as usize] = is_open;
    }
}

impl Leaves {
    pub fn with_room(alloc: Global, room: u32) -> Result<Leaves, AllocError>
        ensures { IfOk result (λ l. l ≡ record { leaves = []; room = room }) }
    {
        Ok(Leaves {
            lists: Lists::open(alloc, 1, room)?,
            room,
            marks: vec![in alloc; false; room as usize]?,
            index: Index::with_room(alloc, room)?,
        })
    }

    pub fn grow(&mut self, more: u32) -> Result<(), AllocError>
        requires { self.old.room + more < 2 ^ 32 }
        ensures more { IfOk result
            (λ _. self.new ≡ record { leaves = self.old.leaves; room = self.old.room + more }) }
        ensures same { OnErr result (self.new ≡ self.old) }
    {
        self.index.grow(self.room + more)?;
        self.marks.resize((self.room + more) as usize, false)?;
        self.lists.grow(more)?;
        self.room += more;
        Ok(())
    }

    pub fn room(&self) -> u32
        ensures { result ≡ self.now.room }
    {
        self.room
    }

    pub fn first(&self) -> Option<u32>
        ensures { result ≡ first self.now.leaves }
    {
        self.lists.first(0)
    }

    /// The leaf after the first one.
    pub fn second(&self) -> Option<u32>
        ensures { result ≡ second self.now.leaves }
    {
        self.lists.next(self.lists.first(0)?)
    }

    /// The leaf after this one.
    pub fn next(&self, leaf: u32) -> Option<u32>
        requires { has self.now.leaves leaf ≡ true }
        ensures { result ≡ following leaf self.now.leaves }
    {
        self.lists.next(leaf)
    }

    /// A leaf of less value, as close as the index leads to the first one that has at least this
    /// value.
    fn near(&self, values: &Vec<Mixed>, value: &Mixed) -> Option<u32>
        requires known { (c : ℕ) → has self.now.leaves c ≡ true → c < length values.now.items }
        ensures listed { (leaf : ℕ) → result ≡ Some leaf → has self.now.leaves leaf ≡ true }
        ensures lower { (leaf : ℕ) → result ≡ Some leaf
            → is_at_least values.now.items value.now leaf ≡ false }
    {
        let leaf = self.index.last_below(values, value)?;
        if self.marks.get(leaf as usize).copied() != Some(true)
            || is_at_least(values, value, leaf)
        {
            return None;
        }
        Some(leaf)
    }

    /// The first leaf that has at least this value.
    pub fn first_at_least(&self, values: &Vec<Mixed>, value: &Mixed) -> Option<u32>
        requires known { (c : ℕ) → has self.now.leaves c ≡ true → c < length values.now.items }
        requires rising { IsRising values.now.items self.now.leaves }
        ensures { result ≡ find (is_at_least values.now.items value.now) self.now.leaves }
    {
        match self.near(values, value) {
            None => self.first_from_front(values, value),
            Some(leaf) => on_to_first(&self.lists, values, value, leaf),
        }
    }

    fn first_from_front(&self, values: &Vec<Mixed>, value: &Mixed) -> Option<u32>
        requires known { (c : ℕ) → has self.now.leaves c ≡ true → c < length values.now.items }
        requires rising { IsRising values.now.items self.now.leaves }
        ensures { result ≡ find (is_at_least values.now.items value.now) self.now.leaves }
    {
        let leaf = self.lists.first(0)?;
        if is_at_least(values, value, leaf) {
            Some(leaf)
        } else {
            on_to_first(&self.lists, values, value, leaf)
        }
    }

    /// Puts a leaf just before another, or at the end.
    pub fn put(&mut self, values: &Vec<Mixed>, leaf: u32, before: Option<u32>)
        requires leaf { leaf < self.old.room }
        requires free { has self.old.leaves leaf ≡ false }
        requires before { (b : ℕ) → before ≡ Some b → has self.old.leaves b ≡ true }
        ensures { self.new
            ≡ record { leaves = put_before leaf before self.old.leaves; room = self.old.room } }
    {
        match before {
            None => self.lists.push_back(0, leaf),
            Some(before) => self.lists.insert_before(leaf, before),
        }
        mark(&mut self.marks, leaf, true);
        self.index.put(values, leaf);
    }

    /// Takes a leaf out.
    pub fn take(&mut self, values: &Vec<Mixed>, leaf: u32)
        requires { has self.old.leaves leaf ≡ true }
        ensures { self.new
            ≡ record { leaves = without leaf self.old.leaves; room = self.old.room } }
    {
        self.lists.take(leaf);
        mark(&mut self.marks, leaf, false);
        self.index.take(values, leaf);
    }
}
