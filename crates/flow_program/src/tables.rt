//! Values by the numbers of a set. They are given in the order of the set.
ghost use Rattle.std.specs.Prelude.{◌≡◌, ◌<◌, ℕ, true, pos, length, slice_index_or};
ghost use Rattle.pgraph.specs.number_sets.Sets.{has};
ghost use Rattle.pgraph.specs.flow_rules.Net.{beside};

use pgraph::{MatSet, UnitSet};

/// The value of each material of the set.
pub fn by_material(set: MatSet, values: &[i128]) -> [i128; 256]
    requires { length values.now ≡ length set }
    ensures { (j : ℕ) → has set j ≡ true
        → slice_index_or result j (pos 0) ≡ beside set values.now j }
{
    let mut table = [0; 256];
    let mut place = 0;
    for j in set {
        table[j as usize] = values[place];
        place += 1;
    }
    table
}

/// The value of each unit of the set.
pub fn by_unit(set: UnitSet, values: &[i128]) -> [i128; 128]
    requires { length values.now ≡ length set }
    ensures { (i : ℕ) → has set i ≡ true
        → slice_index_or result i (pos 0) ≡ beside set values.now i }
{
    let mut table = [0; 128];
    let mut place = 0;
    for i in set {
        table[i as usize] = values[place];
        place += 1;
    }
    table
}
