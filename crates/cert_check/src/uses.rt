//! Uses of materials.
ghost use Rattle.std.specs.Prelude.{◌≡◌, ◌<◌, ◌<ℤ◌, ◌↔◌, IsTrue, IfSome, IfNone};
ghost use Rattle.tree_text_rules.specs.pns_rules.Shape.{shape_of};
ghost use Rattle.charges.specs.pgraph.View.{node_of};
ghost use Rattle.charges.specs.Known.{demand_of};
ghost use Rattle.cert_check.specs.Known.{KnowsInside};
ghost use Rattle.tree_text_rules.specs.tree_rules.HeadFaults.{IsUse};
ghost use Rattle.cert_check.specs.Uses.{IsInner};
ghost use Rattle.cert_check.specs.View.{known_of};

use crate::known::Known;
use crate::sizes::size_within;
use charges::{Demand, Site, sets_of};

/// The greatest amount of a line, in millionths.
const MOST: i64 = 1_000_000_000_000_000_000;

/// Whether a unit that may stay makes or uses the material, and it is no raw material.
fn is_inner(site: &Site<'_>, known: &Known, material: u32) -> bool
    requires inside { KnowsInside (shape_of site.now) (node_of known.now.node) }
    ensures inner { IsTrue result
        ↔ IsInner (shape_of site.now) (node_of known.now.node) material }
    ensures small { IsTrue result → material < 256 }
{
    let graph = site.graph();
    if material >= graph.material_count() {
        return false;
    }
    if graph.raws().has(material) {
        return false;
    }
    let rows = sets_of(graph, &known.node).rows;
    rows.has(material)
}

/// Whether an amount is below what is known, if something is.
fn is_less(amount: i128, used: Option<i64>) -> bool
    ensures { IsTrue result ↔ IfSome used (λ v. amount <ℤ v) }
{
    match used {
        Some(most) => amount < most as i128,
        None => true,
    }
}

/// The amount that is asked for, if a line may bound the use of its material by it.
pub(crate) fn amount_of_use(site: &Site<'_>, known: &Known, demand: Demand) -> Option<i64>
    requires inside { KnowsInside (shape_of site.now) (node_of known.now.node) }
    ensures some { IfSome result (λ v. (v ≡ demand.amount)
        × IsUse site.now (known_of known.now) (demand_of demand)) }
    ensures small { IfSome result (λ v. demand.of < 256) }
    ensures none { IfNone result (IsUse site.now (known_of known.now) (demand_of demand) → ⊥) }
{
    if !is_inner(site, known, demand.of) {
        return None;
    }
    if !is_less(demand.amount, known.facts.used_of(demand.of)) {
        return None;
    }
    if demand.worth < 0 {
        return None;
    }
    size_within(0, demand.amount, MOST)
}
