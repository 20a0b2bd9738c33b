//! `Makers`: the makers of each material as linked lists, out of which units are taken and brought
//! back.
ghost use Rattle.std.specs.Prelude.{◌≡◌, ◌<◌, ◌≤◌, ◌+◌, ◌-◌, ◌*◌, ℕ, true, false, List, [], ◌∷◌};
ghost use Rattle.std.specs.Prelude.{◌++◌, length, take, IfOk};
ghost use Rattle.std.specs.List.{prefix_len};
ghost use Rattle.pgraph.specs.number_sets.Sets.{has, first, IsSet};
ghost use Rattle.link_lists.specs.Lists.{Rows, row, IsListed};
ghost use Rattle.pgraph.specs.Tables.{shape};
ghost use Rattle.neutral_extension.specs.Candidates.{left, AreMakersOf};
ghost use Rattle.neutral_extension.specs.Cells.{cell_at, unit_cells, out_cells, full_rows};
ghost use Rattle.neutral_extension.specs.Cells.{AreInBands, AreFrom, IsFilled, IsUnitOut};
ghost use Rattle.neutral_extension.specs.OpenLeaf.{is_empty, is_single};

use link_lists::Lists;
use pgraph::{Graph, MatSet, UnitSet};
use std::alloc::{AllocError, Global};
use std::marker::Model;

/// The makers of each material, as linked lists of those that are not taken out.
#[derive(Drop)]
pub struct Makers {
    // The maker u of the material x has the cell 128 x + u in list x.
    lists: Lists,
    // The units taken out, the last one last, and room for the others.
    order: Vec<u32>,
    count: u32,
}

impl Model for Makers {
    ghost use Rattle.std.specs.Prelude.{take};
    ghost use Rattle.neutral_extension.specs.Candidates.{Candidates};
    ghost use Rattle.neutral_extension.specs.Cells.{makers_of, IsOrdered};

    ghost Value = { Candidates };

    ghost view = { λ s. record { makers = makers_of s.lists; taken = take s.count s.order.items } };

    ghost invariant = { λ s. IsOrdered s.lists (makers_of s.lists) s.order.items s.count };
}

/// The materials that the unit makes; none if there is no such unit.
fn outputs_of(graph: &Graph, u: u32) -> MatSet
    ensures { has result ≡ (shape graph.now).makes u }
{
    graph.is_proper();
    if u < graph.unit_count() {
        graph.outputs(u)
    } else {
        MatSet::empty()
    }
}

/// Unlinks the cells of the unit, that of the least material first.
fn unlink_cells(lists: &mut Lists, graph: &Graph, u: u32)
    requires unit { u < 128 }
    requires listed { (x : ℕ) → x < (shape graph.now).materials → (shape graph.now).makes u x ≡ true
        → IsListed (out_cells lists.old (unit_cells (shape graph.now).makes u x)).lists
        (cell_at x u) }
    ensures { lists.new ≡ out_cells lists.old
        (unit_cells (shape graph.now).makes u (shape graph.now).materials) }
{
    graph.is_proper();
    for x in outputs_of(graph, u) {
        lists.unlink(x * 128 + u);
    }
}

/// Relinks the cells of the unit at these outputs, that of the greatest material first. They were
/// the last to be unlinked.
fn relink_from(lists: &mut Lists, graph: &Graph, u: u32, outputs: MatSet)
    requires unit { u < 128 }
    requires out { (b : Rows) × (n : ℕ) × (n ≤ (shape graph.now).materials)
        × IsUnitOut (shape graph.now) u b lists.old × AreFrom (shape graph.now).makes u n outputs }
    ensures { (b : Rows) (n : ℕ) → n ≤ (shape graph.now).materials
        → IsUnitOut (shape graph.now) u b lists.old → AreFrom (shape graph.now).makes u n outputs
        → lists.new ≡ out_cells b (unit_cells (shape graph.now).makes u n) }
{
    graph.is_proper();
    outputs.rises();
    let Some(x) = outputs.least() else {
        return;
    };
    relink_from(lists, graph, u, outputs.without(x));
    lists.relink(x * 128 + u);
}

/// Relinks the cells of the unit, which was the last to be unlinked.
fn relink_cells(lists: &mut Lists, graph: &Graph, u: u32)
    requires unit { u < 128 }
    requires out { (b : Rows) × IsUnitOut (shape graph.now) u b lists.old }
    ensures { (b : Rows) → IsUnitOut (shape graph.now) u b lists.old → lists.new ≡ b }
{
    graph.is_proper();
    relink_from(lists, graph, u, outputs_of(graph, u));
}

/// Puts a cell for each unit of the set into an empty list.
fn fill(lists: &mut Lists, x: u32, set: UnitSet)
    requires list { (x < length lists.old.lists) × (length lists.old.lists ≤ 256) }
    requires cells { lists.old.cells ≡ length lists.old.lists * 128 }
    requires stack { lists.old.stack ≡ [] }
    requires empty { row lists.old.lists x ≡ [] }
    requires bands { AreInBands lists.old.lists }
    ensures { IsFilled lists.old lists.new x set }
{
    for u in set {
        lists.push_back(x, x * 128 + u);
    }
}

/// Lists of the makers of the graph's materials, each maker in the list of its material.
fn full_lists(alloc: Global, graph: &Graph) -> Result<Lists, AllocError>
    ensures { IfOk result (λ lists. (makers : List (List ℕ)) × AreMakersOf (shape graph.now) makers
        × (lists ≡ full_rows makers)) }
{
    graph.is_proper();
    let count = graph.material_count();
    let mut lists = Lists::open(alloc, count, count * 128)?;
    for x in 0..count {
        let producers = graph.producers(x);
        producers.rises();
        fill(&mut lists, x, producers);
    }
    Ok(lists)
}

impl Makers {
    /// The makers of the graph's materials, none of them taken out. `Err` comes only when memory
    /// runs out.
    pub fn open(alloc: Global, graph: &Graph) -> Result<Makers, AllocError>
        ensures makers { IfOk result (λ m. AreMakersOf (shape graph.now) m.makers) }
        ensures taken { IfOk result (λ m. m.taken ≡ []) }
    {
        graph.is_proper();
        let lists = full_lists(alloc, graph)?;
        let order = vec![in alloc; 0u32; 128]?;
        Ok(Makers {
            lists,
            order,
            count: 0,
        })
    }

    /// How many units are taken out.
    pub fn taken(&self) -> u32
        ensures { result ≡ length self.now.taken }
    {
        self.count
    }

    /// The units taken out, as a set.
    pub fn taken_out(&self) -> UnitSet
        ensures { (u : ℕ) → has result u ≡ has self.now.taken u }
    {
        let mut out = UnitSet::empty();
        'units: for i in 0..self.count {
            out = out.with(self.order[i as usize]);
        }
        out
    }

    /// How many of the units taken out come, in the order of taking, before the first that is not
    /// in the set.
    pub(crate) fn front_within(&self, set: UnitSet) -> u32
        ensures { result ≡ prefix_len (has set) self.now.taken }
    {
        let mut front = 0;
        'front: while front < self.count && set.has(self.order[front as usize]) {
            front += 1;
        }
        front
    }

    /// The first maker of the material that is not taken out; `None` exactly if all are.
    pub fn first(&self, x: u32) -> Option<u32>
        requires { x < length self.now.makers }
        ensures { result ≡ first (left self.now x) }
    {
        match self.lists.first(x) {
            Some(cell) => Some(cell - x * 128),
            None => None,
        }
    }

    /// Whether no maker of the material is left.
    pub(crate) fn lacks(&self, x: u32) -> bool
        requires { x < length self.now.makers }
        ensures { result ≡ is_empty (left self.now x) }
    {
        self.first(x).is_none()
    }

    /// Whether one maker of the material is left.
    pub(crate) fn has_one(&self, x: u32) -> bool
        requires { x < length self.now.makers }
        ensures { result ≡ is_single (left self.now x) }
    {
        match self.lists.first(x) {
            Some(cell) => self.lists.next(cell).is_none(),
            None => false,
        }
    }

    /// Takes the unit out of the lists of all materials. The graph is the one of `open`.
    pub fn take_out(&mut self, graph: &Graph, u: u32)
        requires same { AreMakersOf (shape graph.now) self.old.makers }
        requires unit { u < 128 }
        requires fresh { has self.old.taken u ≡ false }
        ensures { self.new ≡ record { makers = self.old.makers; taken = self.old.taken ++ u ∷ [] } }
    {
        unlink_cells(&mut self.lists, graph, u);
        self.order[self.count as usize] = u;
        self.count += 1;
    }

    /// Brings back the unit that was taken out last.
    fn undo(&mut self, graph: &Graph)
        requires same { AreMakersOf (shape graph.now) self.old.makers }
        requires some { 0 < length self.old.taken }
        ensures { self.new
            ≡ record {
              makers = self.old.makers;
              taken =
                  take (length self.old.taken - 1) self.old.taken;
            } }
    {
        let u = self.order[self.count as usize - 1];
        relink_cells(&mut self.lists, graph, u);
        self.count -= 1;
    }

    /// Brings back the units that were taken out last, until only the first `to` are out. The graph
    /// is the one of `open`.
    pub fn back(&mut self, graph: &Graph, to: u32)
        requires same { AreMakersOf (shape graph.now) self.old.makers }
        requires most { to ≤ length self.old.taken }
        ensures { self.new ≡ record { makers = self.old.makers; taken = take to self.old.taken } }
    {
        'back: while self.taken() > to {
            self.undo(graph);
        }
    }
}
