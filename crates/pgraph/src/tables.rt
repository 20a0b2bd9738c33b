//! The sets that a graph takes from its problem: materials by their kind, and the units of each
//! exclusion.
ghost use Rattle.std.specs.Prelude.{◌≡◌, ◌<◌, ◌≤◌, ◌==◌, ◌&&◌, ◌||◌, ℕ, true, List, [], length};
ghost use Rattle.std.specs.Prelude.{IfOk, slice_index_or};
ghost use Rattle.flow_rules.specs.number_sets.Sets.{has};
ghost use Rattle.flow_rules.specs.problem_rules.Problem.{is_raw_material, is_product};
ghost use Rattle.pns_problem.specs.Kind.{kind_of};
ghost use Rattle.pgraph.specs.Building.{is_raw_at, is_product_at, units_excluded};

use pns_problem::{Exclusion, Kind, Material};
use std::alloc::{AllocError, Global};
use unit_sets::{MatSet, UnitSet};

fn is_raw_material(kind: Kind) -> bool
    ensures { result ≡ is_raw_material (kind_of kind) }
{
    matches!(kind, Kind::RawMaterial)
}

fn is_product(kind: Kind) -> bool
    ensures { result ≡ is_product (kind_of kind) }
{
    matches!(kind, Kind::Product)
}

/// The set, and x if it belongs to it.
fn with_if(set: MatSet, x: u32, belongs: bool) -> MatSet
    requires { x < 256 }
    ensures { (y : ℕ) → has result y ≡ ((belongs && (x == y)) || has set y) }
{
    if belongs { set.with(x) } else { set }
}

/// The raw materials and the products.
pub fn raws_and_products(materials: &[Material]) -> (MatSet, MatSet)
    requires { length materials.now ≤ 256 }
    ensures raws { has result.0 ≡ is_raw_at materials.now }
    ensures products { has result.1 ≡ is_product_at materials.now }
{
    let mut raws = MatSet::empty();
    let mut products = MatSet::empty();
    for x in 0..materials.len() {
        let material = &materials[x];
        raws = with_if(raws, x as u32, is_raw_material(material.kind));
        products = with_if(products, x as u32, is_product(material.kind));
    }
    (raws, products)
}

/// The set of the listed units.
fn set_of(units: &[u32]) -> UnitSet
    requires { (u : ℕ) → has units.now u ≡ true → u < 128 }
    ensures { has result ≡ has units.now }
{
    let mut set = UnitSet::empty();
    for u in units {
        set = set.with(*u);
    }
    set
}

/// The units of each exclusion.
pub fn excluded_units(alloc: Global, exclusions: &[Exclusion]) -> Result<Vec<UnitSet>, AllocError>
    requires { (k u : ℕ) → has (units_excluded exclusions.now k) u ≡ true → u < 128 }
    ensures count { IfOk result (λ sets. length sets.items ≡ length exclusions.now) }
    ensures units { IfOk result
        (λ sets. (k u : ℕ) → has (slice_index_or sets.items k []) u
        ≡ has (units_excluded exclusions.now k) u) }
{
    let mut sets = Vec::new(alloc);
    for exclusion in exclusions {
        sets.push(set_of(&exclusion.units))?;
    }
    Ok(sets)
}
