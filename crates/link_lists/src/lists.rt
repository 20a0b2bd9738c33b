//! `Lists`: several doubly linked lists, and the stack of unlinked cells.

ghost use Rattle.std.specs.Prelude.{◌≡◌, ◌<◌, ◌+◌, ◌^◌, ℕ, true, [], length, IfOk, OnErr};
ghost use Rattle.link_lists.specs.Lists.{row, has, IsListed, IsFree, AreApart, AreBelow, first};
ghost use Rattle.link_lists.specs.Lists.{following, preceding, opened, with_cells, with_pushed};
ghost use Rattle.link_lists.specs.Lists.{with_inserted, with_taken, IsTop, unlinked, relinked};

use crate::links::{
    Link, bypass, cell_of, lengthen, lengthen_stack, next_node, prev_node, restore, rings, splice,
};
use crate::walk::Walk;
use std::alloc::{AllocError, Global};
use std::marker::Model;

/// Several lists of cells, and the stack of the unlinked cells. Each cell number or list number
/// that a call takes is below the count of cells or lists.
#[derive(Drop)]
pub struct Lists {
    lists: u32,
    cells: u32,
    // List l is node l, which closes it to a ring, and cell c is the node after all of these and c
    // others.
    links: Vec<Link>,
    stack: Vec<u32>,
    depth: u32,
}

impl Model for Lists {
    ghost use Rattle.link_lists.specs.Lists.{Rows};

    ghost Value = { Rows };

    ghost use Rattle.link_lists.specs.Links.{state_of, IsHeld};

    ghost view = { λ s. state_of s.lists s.cells s.links.items s.stack.items s.depth };

    ghost invariant = { λ s. IsHeld s.lists s.cells s.links.items s.stack.items s.depth };
}

impl Lists {
    /// Makes empty lists, and cells that are free. `Err` means out of memory.
    pub fn open(alloc: Global, lists: u32, cells: u32) -> Result<Lists, AllocError>
        ensures { IfOk result (λ r. r ≡ opened lists cells) }
    {
        let links = rings(alloc, lists as usize, lists as usize + cells as usize)?;
        let stack = vec![in alloc; 0u32; cells as usize]?;
        Ok(Lists {
            lists,
            cells,
            links,
            stack,
            depth: 0,
        })
    }

    /// Adds so many free cells. `Err` means out of memory; then all is as before.
    pub fn grow(&mut self, cells: u32) -> Result<(), AllocError>
        requires { self.old.cells + cells < 2 ^ 32 }
        ensures more { IfOk result (λ _. self.new ≡ with_cells self.old cells) }
        ensures same { OnErr result (self.new ≡ self.old) }
    {
        let cells = self.cells + cells;
        lengthen(&mut self.links, self.lists as usize + cells as usize)?;
        lengthen_stack(&mut self.stack, cells as usize)?;
        self.cells = cells;
        Ok(())
    }

    /// The first cell of the list, or `None` if the list is empty.
    pub fn first(&self, list: u32) -> Option<u32>
        requires { list < length self.now.lists }
        ensures { result ≡ first (row self.now.lists list) }
    {
        cell_of(next_node(&self.links, list as usize), self.lists)
    }

    /// The cell that follows in its list, or `None` at the list's end.
    pub fn next(&self, cell: u32) -> Option<u32>
        requires { IsListed self.now.lists cell }
        ensures { (l : ℕ) → has (row self.now.lists l) cell ≡ true
            → result ≡ following cell (row self.now.lists l) }
    {
        cell_of(
            next_node(&self.links, self.lists as usize + cell as usize),
            self.lists,
        )
    }

    /// The cell before it in its list, or `None` at the list's beginning.
    pub fn prev(&self, cell: u32) -> Option<u32>
        requires { IsListed self.now.lists cell }
        ensures { (l : ℕ) → has (row self.now.lists l) cell ≡ true
            → result ≡ preceding cell (row self.now.lists l) }
    {
        cell_of(
            prev_node(&self.links, self.lists as usize + cell as usize),
            self.lists,
        )
    }

    /// The list's cells in order.
    pub fn walk(&self, list: u32) -> Walk<'_>
        requires { list < length self.now.lists }
        ensures { result ≡ row self.now.lists list }
    {
        self.are_apart();
        Walk {
            lists: self,
            cell: self.first(list),
        }
    }

    /// Puts a free cell at the end of the list. No cell is unlinked.
    pub fn push_back(&mut self, list: u32, cell: u32)
        requires list { list < length self.old.lists }
        requires cell { cell < self.old.cells }
        requires free { IsFree self.old.lists cell }
        requires none_unlinked { self.old.stack ≡ [] }
        ensures { self.new ≡ with_pushed self.old list cell }
    {
        let node = self.lists as usize + cell as usize;
        splice(&mut self.links, node, list as usize);
    }

    /// Puts a free cell just before `at`, in the list of that cell. No cell is unlinked.
    pub fn insert_before(&mut self, cell: u32, at: u32)
        requires listed { IsListed self.old.lists at }
        requires cell { cell < self.old.cells }
        requires free { IsFree self.old.lists cell }
        requires none_unlinked { self.old.stack ≡ [] }
        ensures { self.new ≡ with_inserted self.old cell at }
    {
        let after = self.lists as usize + at as usize;
        splice(&mut self.links, self.lists as usize + cell as usize, after);
    }

    /// Takes the cell out of its list, so it is free. No cell is unlinked.
    pub fn take(&mut self, cell: u32)
        requires listed { IsListed self.old.lists cell }
        requires none_unlinked { self.old.stack ≡ [] }
        ensures { self.new ≡ with_taken self.old cell }
    {
        bypass(&mut self.links, self.lists as usize + cell as usize);
    }

    /// Takes the cell out of its list, and puts it on the stack with the list and the place that it
    /// leaves.
    pub fn unlink(&mut self, cell: u32)
        requires { IsListed self.old.lists cell }
        ensures unlinked { self.new ≡ unlinked self.old cell }
        ensures undone { relinked self.new ≡ self.old }
    {
        bypass(&mut self.links, self.lists as usize + cell as usize);
        self.stack[self.depth as usize] = cell;
        self.depth += 1;
    }

    /// Puts the cell on top of the stack back into its list, at the place that it left. All is as
    /// before its `unlink`.
    pub fn relink(&mut self, cell: u32)
        requires { IsTop cell self.old.stack }
        ensures { self.new ≡ relinked self.old }
    {
        restore(&mut self.links, self.lists as usize + cell as usize);
        self.depth -= 1;
    }

    /// Changes nothing. What it ensures is true of all lists, for the proofs of callers.
    pub fn are_apart(&self)
        ensures apart { AreApart self.now.lists }
        ensures below { AreBelow self.now.cells self.now.lists }
    {
        let _lists = &self.links;
    }
}
