//! What can be made of the materials at a node.
ghost use Rattle.std.specs.Prelude.{◌≡◌, ◌<◌, ◌≤◌, ◌^◌, ◌*◌, ◌*ℤ◌, ℕ, pos, true, length};
ghost use Rattle.std.specs.Prelude.{unsigned_abs};
ghost use Rattle.std.specs.Int.{int_max};
ghost use Rattle.structure_list.specs.integer_laws.Total.{total};
ghost use Rattle.structure_list.specs.number_sets.Sets.{has};
ghost use Rattle.structure_list.specs.flow_rules.Net.{net_of};
ghost use Rattle.charges.specs.Known.{facts_of};

use crate::facts::Facts;
use crate::useful::{rate_of, times};
use structure_list::{Site, UnitSet};

/// The rate at which a unit makes a material, if it has it at this rate.
fn make_rate_of(rate: i64) -> i64
    requires { unsigned_abs rate ≤ 2000000000000000 }
    ensures value { result ≡ int_max (pos 0) rate }
    ensures small { unsigned_abs result ≤ 2000000000000000 }
{
    if rate > 0 { rate } else { 0 }
}

/// What the unit can make of the material at most.
fn make_most(site: &Site<'_>, facts: &Facts, u: u32, j: u32) -> i128
    requires known { u < length site.now.units }
    requires small { u < 128 }
    ensures value { result
        ≡ int_max (pos 0) ((net_of site.now).rate j u) *ℤ (facts_of facts.now).most u }
    ensures small { unsigned_abs result ≤ 20000000000000000000000000000000000 }
{
    times(make_rate_of(rate_of(site, j, u)), facts.most_of(u))
}

/// What the units of the set can make of the material at most.
pub fn makers_most(site: &Site<'_>, facts: &Facts, set: UnitSet, j: u32) -> i128
    requires { (u : ℕ) → has set u ≡ true → u < length site.now.units }
    ensures value { result
        ≡ total (λ u. int_max (pos 0) ((net_of site.now).rate j u) *ℤ (facts_of facts.now).most u)
        set }
    ensures small { unsigned_abs result ≤ 256 * 10 ^ 34 }
{
    let mut sum = 0;
    for u in set {
        sum += make_most(site, facts, u, j);
    }
    sum
}
