//! `Pool`: a tree of nodes with values and payloads, and its open leaves.

ghost use Rattle.std.specs.Prelude.{◌≡◌, ◌∷◌, [], ℕ, true, false, Some, ◌<◌, ◌≤◌, ◌+◌, ◌-◌, ◌^◌};
ghost use Rattle.std.specs.Prelude.{length, max, IfOk, OnOk, IsOk, IfErr, OnErr, vec_len};
ghost use Rattle.std.specs.List.{slice_get};
ghost use Rattle.std.specs.Borrow.{sem};
ghost use Rattle.link_lists.specs.Lists.{first, following, has};
ghost use Rattle.node_pool.specs.Tree.{children, sibling_after, AreAfterParents};
ghost use Rattle.node_pool.specs.Order.{placed, second, IsRising};
ghost use Rattle.node_pool.specs.Pooled.{Pooled, IsParent, IsShut, AreSameNodes, IsWithLeaf};
ghost use Rattle.node_pool.specs.Pooled.{with_shut, with_value};

use crate::leaves::Leaves;
use crate::tree::Tree;
use exact_numbers::Mixed;
use std::alloc::{AllocError, Global};
use std::marker::Model;

/// A tree of nodes, numbered from 0 in the order of adding, with a value and a payload each. A node
/// is an open leaf until it is shut, and none is ever removed.
#[derive(Drop)]
pub struct Pool<T> {
    tree: Tree,
    values: Vec<Mixed>,
    payloads: Vec<T>,
    leaves: Leaves,
}

impl<T> Model for Pool<T> {
    ghost use Rattle.std.specs.Prelude.{◌-◌, length, vec_capacity};
    ghost use Rattle.node_pool.specs.Pooled.{Pooled};

    ghost Value = { Pooled T };

    ghost use Rattle.node_pool.specs.Sound.{IsSound};

    ghost view = { λ p. record {
      parents = p.tree.parents;
      values = p.values.items;
      payloads = p.payloads.items;
      leaves = p.leaves.leaves;
      spare = p.leaves.room - length p.tree.parents;
    } };

    ghost invariant = { λ p. IsSound p.tree p.values.items (vec_capacity p.values)
        (length p.payloads.items) (vec_capacity p.payloads) p.leaves };
}

impl<T> Pool<T> {
    ghost use Rattle.node_pool.specs.Lending.{LendsPayload};

    /// No nodes. The first `room` adds cannot fail.
    pub fn open(alloc: Global, room: u32) -> Result<Pool<T>, AllocError>
        ensures { IfOk result
            (λ p. p ≡ record {
              parents = [];
              values = [];
              payloads = [];
              leaves = [];
              spare =
                  room;
            }) }
    {
        let tree = Tree::with_room(alloc, room)?;
        let values = Vec::with_capacity(alloc, room as usize)?;
        let leaves = Leaves::with_room(alloc, room)?;
        let payloads = Vec::with_capacity(alloc, room as usize)?;
        Ok(Pool {
            tree,
            values,
            payloads,
            leaves,
        })
    }

    /// How many adds cannot fail.
    pub fn spare(&self) -> u32
        ensures { result ≡ self.now.spare }
    {
        self.leaves.room() - self.tree.len() as u32
    }

    /// The open leaf of least value, or `None` if no leaf is open. Of several it is the one that
    /// got the value last.
    pub fn least(&self) -> Option<u32>
        ensures { result ≡ first self.now.leaves }
    {
        self.leaves.first()
    }

    /// The open leaf that follows that of least value in the order of the open leaves, or `None` if
    /// no other leaf is open.
    pub fn next_least(&self) -> Option<u32>
        ensures { result ≡ second self.now.leaves }
    {
        self.leaves.second()
    }

    /// The open leaf that follows this one in the order of the open leaves, or `None` after the
    /// last.
    pub fn next_open(&self, id: u32) -> Option<u32>
        requires { has self.now.leaves id ≡ true }
        ensures { result ≡ following id self.now.leaves }
    {
        self.leaves.next(id)
    }

    /// The node's first child, or `None` if it has none.
    pub fn first_child(&self, id: u32) -> Option<u32>
        requires { id < length self.now.parents }
        ensures { result ≡ first (children self.now.parents id) }
    {
        self.tree.first_child(id)
    }

    /// The next child of the node's parent, or `None` if there is none.
    pub fn next_sibling(&self, id: u32) -> Option<u32>
        requires { id < length self.now.parents }
        ensures { result ≡ sibling_after self.now.parents id }
    {
        self.tree.next_sibling(id)
    }

    /// The node's value: the one that it was given last.
    pub fn value(&self, id: u32) -> Mixed
        requires { id < length self.now.parents }
        ensures { slice_get self.now.values id ≡ Some result }
    {
        self.values[id as usize]
    }

    /// The node's payload.
    pub fn payload(&self, id: u32) -> &T
        requires { id < length self.now.parents }
        ensures { slice_get self.now.payloads id ≡ Some result.now }
    {
        &self.payloads[id as usize]
    }

    /// The node's payload, for writing. Nothing else of the pool changes.
    pub fn payload_mut(&mut self, id: u32) -> &mut T
        requires { id < length self.old.parents }
        ensures* writes_back { sem 𝓛 (LendsPayload T.row self.entry id result) }
        ensures value { slice_get self.old.payloads id ≡ Some result.now }
    {
        &mut self.payloads[id as usize]
    }

    /// Makes `spare` at least `room`. `Err` means out of memory; then all is as before.
    pub fn reserve(&mut self, room: u32) -> Result<(), AllocError>
        requires { length self.old.parents + room < 2 ^ 32 }
        ensures spare { OnOk result (self.new.spare ≡ max self.old.spare room) }
        ensures nodes { AreSameNodes self.old self.new }
        ensures same { OnErr result (self.new ≡ self.old) }
    {
        let spare = self.spare();
        if room <= spare {
            return Ok(());
        }
        self.tree.reserve(room)?;
        self.values.reserve(room as usize)?;
        self.payloads.reserve(room as usize)?;
        self.leaves.grow(room - spare)?;
        Ok(())
    }

    /// Makes `spare` at least 1, and more by a part of the number of nodes, so that many adds
    /// rarely take memory.
    fn make_room(&mut self) -> Result<(), AllocError>
        requires { length self.old.parents < 2 ^ 32 - 1 }
        ensures some { OnOk result (0 < self.new.spare) }
        ensures no_less { OnOk result (self.old.spare ≤ self.new.spare) }
        ensures succeeds { 0 < self.old.spare → IsOk result }
        ensures nodes { AreSameNodes self.old self.new }
        ensures same { OnErr result (self.new ≡ self.old) }
    {
        if self.spare() > 0 {
            return Ok(());
        }
        let count = self.tree.len() as u32;
        self.reserve(count.max(8).min(u32::MAX - count))
    }

    fn add_within(&mut self, parent: Option<u32>, value: Mixed, payload: T) -> u32
        requires parent { IsParent self.old parent }
        requires spare { 0 < self.old.spare }
        ensures id { result ≡ length self.old.parents }
        ensures added { IsWithLeaf self.old parent value payload self.new }
        ensures spare { self.new.spare + 1 ≡ self.old.spare }
    {
        let id = self.tree.len() as u32;
        let before = self.leaves.first_at_least(&self.values, &value);
        self.tree.push(parent);
        self.values.push_reserved(value);
        self.payloads.push_reserved(payload);
        self.leaves.put(&self.values, id, before);
        id
    }

    /// Adds an open leaf, the last child of its parent, before the open leaves of the same value.
    /// The first node has no parent, and each other has one that is shut. `Err` gives the payload
    /// back if it is out of memory. This is impossible if `spare` is above 0.
    ///
    /// The leaf's place is searched for in a balanced tree of the open leaves, so an add takes time
    /// with the logarithm of their number.
    pub fn add(&mut self, parent: Option<u32>, value: Mixed, payload: T) -> Result<u32, T>
        requires parent { IsParent self.old parent }
        requires few { length self.old.parents < 2 ^ 32 - 1 }
        ensures id { IfOk result (λ id. id ≡ length self.old.parents) }
        ensures added { OnOk result (IsWithLeaf self.old parent value payload self.new) }
        ensures spare { OnOk result (self.old.spare ≤ self.new.spare + 1) }
        ensures succeeds { 0 < self.old.spare → IsOk result }
        ensures payload { IfErr result (λ back. back ≡ payload) }
        ensures same { OnErr result (self.new ≡ self.old) }
    {
        match self.make_room() {
            Ok(()) => Ok(self.add_within(parent, value, payload)),
            Err(_) => Err(payload),
        }
    }

    /// Changes nothing. What it ensures is true of all pools, for the proofs of callers.
    pub fn is_pool(&self)
        ensures values { length self.now.values ≡ length self.now.parents }
        ensures payloads { length self.now.payloads ≡ length self.now.parents }
        ensures leaves { (id : ℕ) → has self.now.leaves id ≡ true → id < length self.now.parents }
        ensures rising { IsRising self.now.values self.now.leaves }
        ensures after_parents { AreAfterParents self.now.parents }
        ensures numbered { length self.now.parents + self.now.spare < 2 ^ 32 }
    {
        self.tree.is_tree();
    }

    /// Shuts an open leaf: it is no longer one of the open leaves. It takes no memory, and time
    /// with the logarithm of their number.
    pub fn shut(&mut self, id: u32)
        requires { has self.old.leaves id ≡ true }
        ensures { self.new ≡ with_shut self.old id }
    {
        self.leaves.take(&self.values, id);
    }

    /// Gives an open leaf this value, which may also be less than its own. The leaf then comes
    /// before the open leaves of the same value. All else stays. It takes no memory, and time with
    /// the logarithm of the number of open leaves.
    pub fn raise(&mut self, id: u32, value: Mixed)
        requires { has self.old.leaves id ≡ true }
        ensures { self.new ≡ with_value self.old id value }
    {
        self.leaves.take(&self.values, id);
        self.values[id as usize] = value;
        let before = self.leaves.first_at_least(&self.values, &value);
        self.leaves.put(&self.values, id, before);
    }
}
