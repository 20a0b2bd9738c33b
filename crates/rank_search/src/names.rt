//! Names of leaves: plants that each of their structures contains.
ghost use Rattle.std.specs.Prelude.{◌≡◌, ◌<◌, ◌^◌, IfOk, length};
ghost use Rattle.rank_search.specs.Names.{IsNameFor, AreNamesFor};

use crate::FoundAt;
use crate::plants::first_inside;
use abb_search::{Cell, Pool, node_at};
use rank_check::{Mixed, UnitSet};
use std::alloc::{AllocError, Global};

/// The number, counted from 1, of the first plant whose units are within these, and that costs no
/// more than the value, if there is one.
fn name_for(listed: &[FoundAt], inside: UnitSet, value: &Option<Mixed>) -> Option<u32>
    requires { length listed.now < 2 ^ 32 }
    ensures { IsNameFor listed.now inside value.now result }
{
    let Some(value) = value else {
        return None;
    };
    match first_inside(listed, inside, value) {
        None => None,
        Some(at) => Some(at as u32 + 1),
    }
}

/// For each node the plant that it names, if it has a cost that its multipliers reach.
pub(crate) fn names_for(
    alloc: Global,
    pool: &Pool<Cell>,
    listed: &[FoundAt],
    reached: &[Option<Mixed>],
) -> Result<Vec<Option<u32>>, AllocError>
    requires as_many { length reached.now ≡ length pool.now.payloads }
    requires numbered { length reached.now < 2 ^ 32 }
    requires few { length listed.now < 2 ^ 32 }
    ensures { IfOk result
        (λ names. AreNamesFor pool.now.payloads listed.now reached.now names.items) }
{
    pool.is_pool();
    let mut names = Vec::new(alloc);
    let mut leaf = 0;
    'naming: for value in reached {
        let inside = node_at(pool, leaf).inside;
        names.push(name_for(listed, inside, value))?;
        leaf += 1;
    }
    Ok(names)
}
