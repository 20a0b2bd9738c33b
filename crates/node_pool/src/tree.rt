//! `Tree`: nodes with parents, by first child and next sibling.

ghost use Rattle.std.specs.Prelude.{◌≡◌, [], ◌++◌, ◌∷◌, None, ℕ, vec_capacity, vec_len, ◌<◌, ◌≤◌};
ghost use Rattle.std.specs.Prelude.{◌+◌, ◌-◌, ◌^◌, Some, length, max, IfOk, OnOk, OnErr};
ghost use Rattle.link_lists.specs.Lists.{first};
ghost use Rattle.node_pool.specs.Kin.{parents_of, first_at, last_at, next_at, with_at, IsAdopted};
ghost use Rattle.node_pool.specs.Kin.{IsAdoptedBy};
ghost use Rattle.node_pool.specs.Tree.{Branches, children, sibling_after, AreAfterParents, IsThere};
ghost use Rattle.node_pool.specs.Tree.{with_node};

use std::alloc::{AllocError, Global};
use std::marker::Model;

/// A node's place in the tree.
#[derive(Clone, Copy, Drop)]
pub struct Kin {
    parent: Option<u32>,
    first_child: Option<u32>,
    last_child: Option<u32>,
    next_sibling: Option<u32>,
}

/// A tree, seen as the parents of its nodes.
#[derive(Drop)]
pub struct Tree {
    kin: Vec<Kin>,
}

impl Model for Tree {
    ghost use Rattle.std.specs.Prelude.{vec_capacity};
    ghost use Rattle.node_pool.specs.Kin.{parents_of, first_at, last_at, next_at, with_at};
    ghost use Rattle.node_pool.specs.Kin.{IsAdopted, IsAdoptedBy};
    ghost use Rattle.node_pool.specs.Tree.{Branches};

    ghost Value = { Branches };

    ghost use Rattle.node_pool.specs.Kin.{parents_of, IsLinked};

    ghost view = { λ t. record { parents = parents_of t.kin.items; room = vec_capacity t.kin } };

    ghost invariant = { λ t. IsLinked (parents_of t.kin.items) t.kin.items };
}

fn set_first(kin: &mut Vec<Kin>, node: u32, child: u32)
    requires { node < length kin.old.items }
    ensures parents { parents_of kin.new.items ≡ parents_of kin.old.items }
    ensures first { first_at kin.new.items ≡ with_at (first_at kin.old.items) node (Some child) }
    ensures last { last_at kin.new.items ≡ last_at kin.old.items }
    ensures next { next_at kin.new.items ≡ next_at kin.old.items }
    ensures capacity { vec_capacity kin.new ≡ vec_capacity kin.old }
{
    kin[node as usize].first_child = Some(child);
}

fn set_last(kin: &mut Vec<Kin>, node: u32, child: u32)
    requires { node < length kin.old.items }
    ensures parents { parents_of kin.new.items ≡ parents_of kin.old.items }
    ensures first { first_at kin.new.items ≡ first_at kin.old.items }
    ensures last { last_at kin.new.items ≡ with_at (last_at kin.old.items) node (Some child) }
    ensures next { next_at kin.new.items ≡ next_at kin.old.items }
    ensures capacity { vec_capacity kin.new ≡ vec_capacity kin.old }
{
    kin[node as usize].last_child = Some(child);
}

fn set_next(kin: &mut Vec<Kin>, node: u32, sibling: u32)
    requires { node < length kin.old.items }
    ensures parents { parents_of kin.new.items ≡ parents_of kin.old.items }
    ensures first { first_at kin.new.items ≡ first_at kin.old.items }
    ensures last { last_at kin.new.items ≡ last_at kin.old.items }
    ensures next { next_at kin.new.items ≡ with_at (next_at kin.old.items) node (Some sibling) }
    ensures capacity { vec_capacity kin.new ≡ vec_capacity kin.old }
{
    kin[node as usize].next_sibling = Some(sibling);
}

/// Links the node as the last child of its parent.
fn adopt(kin: &mut Vec<Kin>, parent: u32, id: u32)
    requires parent { parent < length kin.old.items }
    requires last { (l : ℕ) → last_at kin.old.items parent ≡ Some l → l < length kin.old.items }
    ensures adopted { IsAdopted kin.old.items kin.new.items parent id }
    ensures capacity { vec_capacity kin.new ≡ vec_capacity kin.old }
{
    match kin[parent as usize].last_child {
        None => {
            set_first(kin, parent, id);
            set_last(kin, parent, id);
        }
        Some(last) => {
            set_next(kin, last, id);
            set_last(kin, parent, id);
        }
    }
}

fn adopt_by(kin: &mut Vec<Kin>, parent: Option<u32>, id: u32)
    requires parent { (p : ℕ) → parent ≡ Some p → p < length kin.old.items }
    requires last { (p l : ℕ) → parent ≡ Some p → last_at kin.old.items p ≡ Some l
        → l < length kin.old.items }
    ensures adopted { IsAdoptedBy kin.old.items kin.new.items parent id }
    ensures capacity { vec_capacity kin.new ≡ vec_capacity kin.old }
{
    match parent {
        None => {}
        Some(parent) => adopt(kin, parent, id),
    }
}

impl Tree {
    /// No nodes, and memory for so many.
    pub fn with_room(alloc: Global, room: u32) -> Result<Tree, AllocError>
        ensures nodes { IfOk result (λ t. t.parents ≡ []) }
        ensures room { IfOk result (λ t. room ≤ t.room) }
    {
        Ok(Tree {
            kin: Vec::with_capacity(alloc, room as usize)?,
        })
    }

    pub fn len(&self) -> usize
        ensures { result ≡ length self.now.parents }
    {
        self.kin.len()
    }

    /// Makes memory for so many more nodes. The tree stays.
    pub fn reserve(&mut self, more: u32) -> Result<(), AllocError>
        ensures parents { self.new.parents ≡ self.old.parents }
        ensures no_less { self.old.room ≤ self.new.room }
        ensures enough { OnOk result (length self.old.parents + more ≤ self.new.room) }
    {
        self.kin.reserve(more as usize)
    }

    /// Adds a node, the last child of its parent.
    pub fn push(&mut self, parent: Option<u32>)
        requires there { IsThere self.old.parents parent }
        requires room { length self.old.parents < self.old.room }
        requires few { length self.old.parents < 2 ^ 32 }
        ensures { self.new ≡ with_node self.old parent }
    {
        let id = self.kin.len() as u32;
        adopt_by(&mut self.kin, parent, id);
        self.kin.push_reserved(Kin {
            parent,
            first_child: None,
            last_child: None,
            next_sibling: None,
        });
    }

    /// The first child, or `None` if there is no child.
    pub fn first_child(&self, id: u32) -> Option<u32>
        requires { id < length self.now.parents }
        ensures { result ≡ first (children self.now.parents id) }
    {
        self.kin[id as usize].first_child
    }

    /// The child of the same parent that was added next, or `None` if there is none.
    pub fn next_sibling(&self, id: u32) -> Option<u32>
        requires { id < length self.now.parents }
        ensures { result ≡ sibling_after self.now.parents id }
    {
        self.kin[id as usize].next_sibling
    }

    /// Changes nothing. What it ensures is true of all trees.
    pub fn is_tree(&self)
        ensures { AreAfterParents self.now.parents }
    {
        let _kin = &self.kin;
    }
}
