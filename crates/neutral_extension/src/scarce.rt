//! Materials of which no maker is left, or one.
ghost use Rattle.std.specs.Prelude.{◌≡◌, ◌<◌, ◌≤◌, ◌==◌, ℕ, Bool, true, false, cond, length};
ghost use Rattle.pgraph.specs.number_sets.Sets.{has};
ghost use Rattle.pgraph.specs.pns_rules.Structure.{is_made, is_used};
ghost use Rattle.pgraph.specs.Tables.{shape};
ghost use Rattle.neutral_extension.specs.Candidates.{left};
ghost use Rattle.neutral_extension.specs.OpenLeaf.{IsTold, IsCounted, is_empty, is_single};

use crate::makers::Makers;
use pgraph::{Graph, MatSet, UnitSet};

/// The materials of which no maker is left, and those of which one is left.
#[derive(Clone, Copy, Debug)]
pub struct Scarce {
    pub unmade: MatSet,
    pub single: MatSet,
}

/// The set, which has x exactly if x belongs to it.
fn with_exactly(set: MatSet, x: u32, belongs: bool) -> MatSet
    requires { x < 256 }
    ensures { (y : ℕ) → has result y ≡ cond (x == y) belongs (has set y) }
{
    if belongs { set.with(x) } else { set.without(x) }
}

/// The same, with the makers of x counted again.
fn counted_at(makers: &Makers, scarce: &Scarce, x: u32) -> Scarce
    requires material { x < length makers.now.makers }
    requires few { x < 256 }
    ensures unmade { (y : ℕ) → has result.unmade y
        ≡ cond (x == y) (is_empty (left makers.now x)) (has scarce.now.unmade y) }
    ensures single { (y : ℕ) → has result.single y
        ≡ cond (x == y) (is_single (left makers.now x)) (has scarce.now.single y) }
{
    Scarce {
        unmade: with_exactly(scarce.unmade, x, makers.lacks(x)),
        single: with_exactly(scarce.single, x, makers.has_one(x)),
    }
}

/// Counts the makers that are left of each material.
pub fn scarce_of(makers: &Makers, materials: u32) -> Scarce
    requires all { length makers.now.makers ≡ materials }
    requires few { materials ≤ 256 }
    ensures { IsCounted makers.now materials (λ x. false) result }
{
    let mut scarce = Scarce {
        unmade: MatSet::empty(),
        single: MatSet::empty(),
    };
    for x in 0..materials {
        scarce = counted_at(makers, &scarce, x);
    }
    scarce
}

/// Counts again after some units are gone, but only the materials that these make.
pub fn scarce_after(graph: &Graph, makers: &Makers, scarce: &Scarce, gone: UnitSet) -> Scarce
    requires all { length makers.now.makers ≡ (shape graph.now).materials }
    requires known { (u : ℕ) → has gone u ≡ true → u < (shape graph.now).units }
    requires others { IsCounted makers.now (shape graph.now).materials
        (is_made (shape graph.now) (has gone)) scarce.now }
    ensures { IsCounted makers.now (shape graph.now).materials (λ x. false) result }
{
    graph.is_proper();
    let mut scarce = *scarce;
    for x in graph.made(gone) {
        scarce = counted_at(makers, &scarce, x);
    }
    scarce
}

/// What the units of `rest` use, after some units are gone from it. It looks only at what the gone
/// units use.
pub fn used_after(graph: &Graph, used: MatSet, rest: UnitSet, gone: UnitSet) -> MatSet
    requires known { (u : ℕ) → has gone u ≡ true → u < (shape graph.now).units }
    requires others { IsTold (is_used (shape graph.now) (has gone))
        (is_used (shape graph.now) (has rest)) used }
    ensures { has result ≡ is_used (shape graph.now) (has rest) }
{
    graph.is_proper();
    let mut used = used;
    for x in graph.used(gone) {
        used = with_exactly(used, x, graph.is_used(rest, x));
    }
    used
}
