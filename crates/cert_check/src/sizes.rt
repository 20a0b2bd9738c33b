//! Sizes of units.
ghost use Rattle.std.specs.Prelude.{◌≡◌, ◌<◌, ◌≤ℤ◌, length, IfSome, IfNone};
ghost use Rattle.tree_text_rules.specs.flow_rules.Net.{net_of};
ghost use Rattle.tree_text_rules.specs.tree_rules.HeadFaults.{IsSize};
ghost use Rattle.cert_check.specs.View.{known_of};

use crate::known::Known;
use charges::Site;

/// The least size of the unit.
pub(crate) fn least_of(site: &Site<'_>, unit: u32) -> i64
    requires { unit < length site.now.units }
    ensures { result ≡ (net_of site.now).least unit }
{
    let problem = site.problem();
    let bounds = &problem.units()[unit as usize];
    bounds.lower
}

/// The size, if it is between the other two.
pub(crate) fn size_within(least: i64, size: i128, most: i64) -> Option<i64>
    ensures some { IfSome result (λ v. (v ≡ size) × (least ≤ℤ size) × (size ≤ℤ most)) }
    ensures none { IfNone result ((least ≤ℤ size) × (size ≤ℤ most) → ⊥) }
{
    if (least as i128) <= size && size <= most as i128 {
        Some(size as i64)
    } else {
        None
    }
}

/// The size, if the unit is not left out and may have it.
pub(crate) fn size_of_cap(site: &Site<'_>, known: &Known, unit: u32, size: i128) -> Option<i64>
    ensures some { IfSome result (λ v. (v ≡ size)
        × IsSize site.now (known_of known.now) unit size) }
    ensures none { IfNone result (IsSize site.now (known_of known.now) unit size → ⊥) }
{
    let graph = site.graph();
    if unit >= graph.unit_count() {
        return None;
    }
    if known.node.outside.has(unit) {
        return None;
    }
    size_within(least_of(site, unit), size, known.facts.most_of(unit))
}
