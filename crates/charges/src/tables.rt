//! Multipliers, found by the numbers of their materials.
ghost use Rattle.std.specs.Prelude.{◌≡◌, ℕ, length};
ghost use Rattle.structure_list.specs.flow_rules.Net.{beside};
ghost use Rattle.flow_program.specs.Entry.{entry};

use structure_list::MatSet;

/// The value of each material of the set, 0 for each other.
pub(crate) fn table_of(set: MatSet, values: &[i128]) -> [i128; 256]
    requires { length values.now ≡ length set }
    ensures { entry result ≡ beside set values.now }
{
    let mut table = [0; 256];
    let mut place = 0;
    for j in set {
        table[j as usize] = values[place];
        place += 1;
    }
    table
}
