//! The numbers of the units and materials of a program, by their places in it.
ghost use Rattle.std.specs.Prelude.{◌≡◌, ◌<◌, ℕ, length, slice_index_or};
ghost use Rattle.dual_simplex.specs.Numbers.{IsTableOf, AreNumbers};

use flow_program::{MatSet, Program, UnitSet};

/// Both tables. What follows the numbers does not matter.
#[derive(Clone, Copy)]
pub(crate) struct Numbers {
    pub(crate) units: [u32; 128],
    pub(crate) rows: [u32; 256],
}

fn unit_table(set: UnitSet) -> [u32; 128]
    ensures size { length result ≡ 128 }
    ensures table { IsTableOf set result }
{
    let mut table = [0; 128];
    let mut place = 0;
    for unit in set {
        table[place] = unit;
        place += 1;
    }
    table
}

fn row_table(set: MatSet) -> [u32; 256]
    ensures size { length result ≡ 256 }
    ensures table { IsTableOf set result }
{
    let mut table = [0; 256];
    let mut place = 0;
    for material in set {
        table[place] = material;
        place += 1;
    }
    table
}

/// The numbers of a program.
pub(crate) fn numbers_of(program: &Program) -> Numbers
    ensures { AreNumbers program.now result.units result.rows }
{
    Numbers {
        units: unit_table(program.units()),
        rows: row_table(program.rows()),
    }
}
