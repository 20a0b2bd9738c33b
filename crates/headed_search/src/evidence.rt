//! Multipliers and sets for a charge.
ghost use Rattle.std.specs.Prelude.{◌≡◌, ◌<◌, ℕ, true, length, IsTrue, IfSome};
ghost use Rattle.tree_parts.specs.integer_laws.Range.{InRange};
ghost use Rattle.tree_parts.specs.number_sets.Sets.{has};
ghost use Rattle.tree_parts.specs.problem_rules.Problem.{Problem};
ghost use Rattle.tree_parts.specs.pns_rules.Shape.{shape_of};
ghost use Rattle.tree_parts.specs.pgraph.Tables.{shape};
ghost use Rattle.tree_parts.specs.pgraph.View.{node_of};
ghost use Rattle.tree_parts.specs.flow_rules.Net.{net_of};
ghost use Rattle.tree_parts.specs.flow_rules.Relaxed.{rows};
ghost use Rattle.tree_parts.specs.pgraph.Kept.{IsKept};
ghost use Rattle.tree_parts.specs.pgraph.CoversView.{cover_of};
ghost use Rattle.tree_parts.specs.cert_check.Known.{KnowsInside};

use solver::Proposal;
use std::alloc::{AllocError, Global};
use tree_parts::{Cover, Covers, Graph, MatSet, Node, Scaled, Site, UnitSet, sets_of};

/// Multipliers over their scale, one for each row of a node, and sets.
#[derive(Drop)]
pub(crate) struct Evidence {
    pub(crate) scaled: Scaled,
    pub(crate) covers: Covers,
}

// A million sets at most are kept.
const MOST_COVERS: usize = 1_000_000;

/// The number, or 0 if it is out of range.
fn in_range(number: i128) -> i128
    ensures { InRange result }
{
    if number == i128::MIN { 0 } else { number }
}

/// The multipliers over their scale. A number out of range becomes 0.
fn scaled_by(alloc: Global, d: i128, ys: &[i128]) -> Result<Scaled, AllocError> {
    let mut numbers = Vec::new(alloc);
    numbers.push(in_range(d))?;
    'multipliers: for y in ys {
        numbers.push(in_range(*y))?;
    }
    Ok(Scaled::from_vec(numbers))
}

/// Whether the unit beside a set, if there is one, can be a unit.
fn is_small(beside: Option<u32>) -> bool
    ensures { IsTrue result → IfSome beside (λ u. u < 128) }
{
    match beside {
        Some(unit) => unit < 128,
        None => true,
    }
}

/// Whether the numbers of the set are those that covers keep.
fn may_keep(cover: &Cover) -> bool
    ensures { IsTrue result → IsKept (cover_of cover.now) }
{
    cover.weight >= 0 && is_small(cover.beside)
}

/// The set without units that are left out.
fn without(cover: &Cover, outside: UnitSet) -> Cover {
    Cover {
        weight: cover.weight,
        beside: cover.beside,
        units: cover.units.minus(outside),
    }
}

/// Whether a set says something if these units are left out.
fn says(cover: &Cover, outside: UnitSet) -> bool {
    match cover.beside {
        Some(unit) if unit < 128 && outside.has(unit) => false,
        _ => !cover.units.is_empty(),
    }
}

/// The sets that covers can keep if these units are left out.
fn kept_covers(alloc: Global, covers: &[Cover], outside: UnitSet) -> Result<Covers, AllocError> {
    let mut kept = Vec::new(alloc);
    'covers: for cover in covers {
        let rest = without(cover, outside);
        if kept.len() < MOST_COVERS && says(&rest, outside) && may_keep(&rest) {
            kept.push(rest)?;
        }
    }
    Ok(Covers::from_vec(kept))
}

/// Whether these are units of the graph.
pub(crate) fn are_units(graph: &Graph, set: UnitSet) -> bool
    ensures { IsTrue result → (u : ℕ) → has set u ≡ true → u < (shape graph.now).units }
{
    graph.is_proper();
    set.rises();
    set.within(UnitSet::below(graph.unit_count()))
}

/// Whether the units that are taken in are units of the problem.
pub(crate) fn knows_inside(site: &Site<'_>, node: &Node) -> bool
    ensures { IsTrue result → KnowsInside (shape_of site.now) (node_of node.now) }
{
    are_units(site.graph(), node.inside)
}

/// The materials that are rows of the node, if it takes in units of the plant only.
pub(crate) fn rows_of(site: &Site<'_>, node: &Node) -> Option<MatSet> {
    if knows_inside(site, node) {
        Some(sets_of(site.graph(), node).rows)
    } else {
        None
    }
}

impl Evidence {
    /// What is proposed for a node with these rows, as far as a head can have it at another one
    /// that leaves out more units.
    pub(crate) fn of(
        alloc: Global,
        proposal: &Proposal,
        from: MatSet,
        to: MatSet,
        outside: UnitSet,
    ) -> Result<Evidence, AllocError> {
        let mut ys = Vec::new(alloc);
        let mut row = 0usize;
        for material in from {
            if let Some(y) = proposal.ys.get(row) {
                if material < 256 && to.has(material) {
                    ys.push(*y)?;
                }
            }
            row = row.saturating_add(1);
        }
        Ok(Evidence {
            scaled: scaled_by(alloc, proposal.d, &ys)?,
            covers: kept_covers(alloc, &proposal.covers, outside)?,
        })
    }
}
