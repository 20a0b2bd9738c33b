//! Units of which no more than so much can be of use.
ghost use Rattle.std.specs.Prelude.{◌≡◌, ◌<◌, ◌≤◌, ◌^◌, ◌*◌, ◌+ℤ◌, ◌≤ℤ◌, ◌<ℤ◌, ◌↔◌, ℕ, pos};
ghost use Rattle.std.specs.Prelude.{int_lt, cond, length, unsigned_abs, IsTrue, IfSome, IfNone};
ghost use Rattle.std.specs.Int.{int_max};
ghost use Rattle.tree_text_rules.specs.pns_rules.Shape.{shape_of};
ghost use Rattle.charges.specs.pgraph.View.{node_of};
ghost use Rattle.tree_text_rules.specs.flow_rules.Net.{net_of, size_cost};
ghost use Rattle.tree_text_rules.specs.flow_rules.Relaxed as relaxed;
ghost use Rattle.charges.specs.Known.{facts_of};
ghost use Rattle.cert_check.specs.Known.{KnowsInside};
ghost use Rattle.tree_text_rules.specs.tree_rules.Trim as rules;
ghost use Rattle.cert_check.specs.Trims.{Bears};

use crate::known::Known;
use crate::sizes::{least_of, size_within};
use charges::{
    Site, UnitSet, costs_of, full_range, makers_most, most_used, put_rates, rate_of, rounded_up,
    sets_of,
};

/// What has to be left over and what can be used.
fn both(low: i128, used: i128) -> i128
    requires low { unsigned_abs low ≤ 10 ^ 21 }
    requires used { unsigned_abs used ≤ 256 * 10 ^ 34 }
    ensures value { result ≡ low +ℤ used }
    ensures small { unsigned_abs result ≤ 10 ^ 37 }
{
    low + used
}

/// What of the material has to be left over if it is there, and what can be used of it. The set is
/// that of the units of the node.
fn useful_there(site: &Site<'_>, known: &Known, units: UnitSet, j: u32) -> i128
    requires known { j < length site.now.materials }
    requires small { j < 256 }
    requires units { units ≡ relaxed.units (net_of site.now) (node_of known.now.node) }
    ensures value { result ≡ rules.useful_there (net_of site.now) (node_of known.now.node)
        (facts_of known.now.facts) j }
    ensures small { unsigned_abs result ≤ 10 ^ 37 }
{
    let range = full_range(site.problem(), j);
    let used = most_used(site, &known.node, units, &known.facts, j);
    both(range.low, used)
}

/// The size at which the unit makes as much of the material.
fn enough_of(site: &Site<'_>, known: &Known, units: UnitSet, u: u32, j: u32) -> i128
    requires known { j < length site.now.materials }
    requires small { j < 256 }
    requires unit { u < length site.now.units }
    requires units { units ≡ relaxed.units (net_of site.now) (node_of known.now.node) }
    requires makes { pos 0 <ℤ (net_of site.now).rate j u }
    ensures { result ≡ rules.enough_of (net_of site.now) (node_of known.now.node)
        (facts_of known.now.facts) u j }
{
    let useful = useful_there(site, known, units, j);
    let rate = rate_of(site, j, u);
    rounded_up(useful, rate)
}

/// Whether a rate is that of an output.
fn is_made(rate: i64) -> bool
    ensures { IsTrue result ↔ (pos 0 <ℤ rate) }
{
    rate > 0
}

/// Whether a rate is that of an input.
fn is_used(rate: i64) -> bool
    ensures { IsTrue result ↔ (rate <ℤ pos 0) }
{
    rate < 0
}

/// Whether an amount is within another.
fn is_no_more(amount: i128, most: i128) -> bool
    ensures { IsTrue result ↔ (amount ≤ℤ most) }
{
    amount <= most
}

/// Whether the material bears less of the unit. If it is an output, it is no raw material. If it is
/// an input, no more of it can be made than may be left over.
fn bears(site: &Site<'_>, known: &Known, units: UnitSet, u: u32, j: u32) -> bool
    requires known { j < length site.now.materials }
    requires small { j < 256 }
    requires unit { u < length site.now.units }
    requires units { units ≡ relaxed.units (net_of site.now) (node_of known.now.node) }
    ensures { IsTrue result ↔ Bears (net_of site.now) (node_of known.now.node)
        (facts_of known.now.facts) u j }
{
    let rate = rate_of(site, j, u);
    if is_made(rate) {
        return !site.graph().raws().has(j);
    }
    if !is_used(rate) {
        return true;
    }
    let made = makers_most(site, &known.facts, units, j);
    let range = full_range(site.problem(), j);
    is_no_more(made, range.high)
}

/// Whether each material bears less of the unit.
fn all_bear(site: &Site<'_>, known: &Known, units: UnitSet, u: u32) -> bool
    requires unit { u < length site.now.units }
    requires units { units ≡ relaxed.units (net_of site.now) (node_of known.now.node) }
    ensures { IsTrue result ↔ ((j : ℕ) → j < length site.now.materials
        → Bears (net_of site.now) (node_of known.now.node) (facts_of known.now.facts) u j) }
{
    let count = site.graph().material_count();
    'materials: for j in 0..count {
        if !bears(site, known, units, u, j) {
            return false;
        }
    }
    true
}

/// The greater number.
fn greater(a: i128, b: i128) -> i128
    ensures { result ≡ int_max a b }
{
    if a < b { b } else { a }
}

/// The size, or the one at which the unit makes enough of the material if it makes it and that is
/// greater.
fn with_output(site: &Site<'_>, known: &Known, units: UnitSet, u: u32, j: u32, size: i128) -> i128
    requires known { j < length site.now.materials }
    requires small { j < 256 }
    requires unit { u < length site.now.units }
    requires units { units ≡ relaxed.units (net_of site.now) (node_of known.now.node) }
    ensures { result ≡ cond (int_lt (pos 0) ((net_of site.now).rate j u))
        (int_max (rules.enough_of (net_of site.now) (node_of known.now.node)
        (facts_of known.now.facts) u j) size) size }
{
    let rate = rate_of(site, j, u);
    if !is_made(rate) {
        return size;
    }
    let enough = enough_of(site, known, units, u, j);
    greater(enough, size)
}

/// The size that is the least of the unit and makes enough of each of its outputs.
fn trimmed_size(site: &Site<'_>, known: &Known, units: UnitSet, u: u32) -> i128
    requires unit { u < length site.now.units }
    requires units { units ≡ relaxed.units (net_of site.now) (node_of known.now.node) }
    ensures { result ≡ rules.trimmed_size (net_of site.now) (node_of known.now.node)
        (facts_of known.now.facts) u }
{
    let count = site.graph().material_count();
    let mut size = least_of(site, u) as i128;
    'outputs: for j in 0..count {
        size = with_output(site, known, units, u, j, size);
    }
    size
}

/// Whether the unit earns nothing by its size.
fn earns_nothing(site: &Site<'_>, u: u32) -> bool
    requires { u < length site.now.units }
    ensures { IsTrue result ↔ (pos 0 ≤ℤ size_cost (net_of site.now) u) }
{
    let problem = site.problem();
    let mut rates = [0; 256];
    let materials = put_rates(&mut rates, problem, site.graph(), u);
    let costs = costs_of(problem, u, materials, &rates);
    costs.size >= 0
}

/// The greatest size of the unit that can be of use, if the unit may be trimmed to it.
pub(crate) fn trimmed(site: &Site<'_>, known: &Known, u: u32) -> Option<i64>
    requires inside { KnowsInside (shape_of site.now) (node_of known.now.node) }
    ensures some { IfSome result (λ v. (v ≡ rules.trimmed_size (net_of site.now)
        (node_of known.now.node) (facts_of known.now.facts) u)
        × rules.MayTrim (net_of site.now) (node_of known.now.node) (facts_of known.now.facts) u) }
    ensures none { IfNone result
        (rules.MayTrim (net_of site.now) (node_of known.now.node) (facts_of known.now.facts) u
        → ⊥) }
{
    let graph = site.graph();
    if u >= graph.unit_count() {
        return None;
    }
    if known.node.outside.has(u) {
        return None;
    }
    if !earns_nothing(site, u) {
        return None;
    }
    let sets = sets_of(graph, &known.node);
    if !all_bear(site, known, sets.units, u) {
        return None;
    }
    let size = trimmed_size(site, known, sets.units, u);
    size_within(least_of(site, u), size, known.facts.most_of(u))
}
