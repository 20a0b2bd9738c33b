//! How the tree grows.
ghost use Rattle.std.specs.Prelude.{◌≡◌, ℕ, ◌<◌, ◌≤◌, ◌+◌, ◌++◌, ◌∷◌, [], true, length, slice_set};
ghost use Rattle.node_pool.specs.link_lists.Lists.{has};
ghost use Rattle.node_pool.specs.Pooled.{IsShut};
ghost use Rattle.branch_tree.specs.View.{end_of};
ghost use Rattle.search_tree.specs.Cells.{cell_at};
ghost use Rattle.search_tree.specs.Growth.{as_parent, as_shut, is_open, AreOpenAfter};
ghost use Rattle.search_tree.specs.Growth.{cells_in_turn, values_in_turn};

use crate::cell::Cell;
use branch_tree::End;
use node_pool::{Mixed, Pool};

/// A child that is ready, with its value.
#[derive(Drop)]
pub struct Fresh {
    pub cell: Cell,
    pub value: Mixed,
}

impl Cell {
    /// Gives the node an end whose children begin with the node `first`.
    pub fn make_parent(&mut self, end: End, first: u32)
        ensures { self.new ≡ as_parent self.old first (end_of end) }
    {
        self.end = end;
        self.first = first;
    }

    /// Gives the node another end.
    pub fn make_end(&mut self, end: End)
        ensures { self.new ≡ as_shut self.old (end_of end) }
    {
        self.end = end;
    }

    /// Whether the node is an open leaf.
    pub fn ends_open(&self) -> bool
        ensures { result ≡ is_open self.now.end }
    {
        match self.end {
            End::Open(_) => true,
            _ => false,
        }
    }
}

/// Adds a child of the node `leaf` after all other nodes, as an open leaf if it is one. It takes no
/// memory if the pool has room for it.
fn add_child(pool: &mut Pool<Cell>, leaf: u32, fresh: Fresh)
    requires parent { IsShut pool.old leaf }
    requires room { 0 < pool.old.spare }
    ensures cells { pool.new.payloads ≡ pool.old.payloads ++ fresh.cell ∷ [] }
    ensures values { pool.new.values ≡ pool.old.values ++ fresh.value ∷ [] }
    ensures parent { IsShut pool.new leaf }
    ensures room { pool.old.spare ≤ pool.new.spare + 1 }
    ensures open { has pool.new.leaves (length pool.old.payloads) ≡ is_open fresh.cell.end }
    ensures others { (j : ℕ) → j < length pool.old.payloads
        → has pool.new.leaves j ≡ has pool.old.leaves j }
{
    pool.is_pool();
    let open = fresh.cell.ends_open();
    if let Ok(id) = pool.add(Some(leaf), fresh.value, fresh.cell) {
        if !open {
            pool.shut(id);
        }
    }
}

/// Gives an open leaf an end whose children begin with the node `first`. It takes no memory.
fn mark_branch(pool: &mut Pool<Cell>, leaf: u32, end: End, first: u32)
    requires { has pool.old.leaves leaf ≡ true }
    ensures cells { pool.new.payloads
        ≡ slice_set pool.old.payloads leaf
        (as_parent (cell_at pool.old.payloads leaf) first (end_of end)) }
    ensures values { pool.new.values ≡ pool.old.values }
    ensures parent { IsShut pool.new leaf }
    ensures room { pool.new.spare ≡ pool.old.spare }
    ensures others { (j : ℕ) → (j ≡ leaf → ⊥) → has pool.new.leaves j ≡ has pool.old.leaves j }
{
    pool.is_pool();
    pool.shut(leaf);
    pool.payload_mut(leaf).make_parent(end, first);
}

/// Branches an open leaf: gives it the end, and adds its children, which are in the list with the
/// last one first. They begin with the node `first`. The list is empty then, and no memory is
/// taken.
pub fn branch(pool: &mut Pool<Cell>, leaf: u32, end: End, first: u32, children: &mut Vec<Fresh>)
    requires leaf { has pool.old.leaves leaf ≡ true }
    requires room { length children.old.items ≤ pool.old.spare }
    ensures cells { pool.new.payloads
        ≡ slice_set pool.old.payloads leaf
        (as_parent (cell_at pool.old.payloads leaf) first (end_of end))
        ++ cells_in_turn children.old.items }
    ensures values { pool.new.values ≡ pool.old.values ++ values_in_turn children.old.items }
    ensures open { AreOpenAfter pool.old pool.new leaf }
{
    mark_branch(pool, leaf, end, first);
    'children: while let Some(fresh) = children.pop() {
        add_child(pool, leaf, fresh);
    }
}
