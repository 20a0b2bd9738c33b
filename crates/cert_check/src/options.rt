//! The walk along the options.
ghost use Rattle.std.specs.Prelude.{◌≡◌, ◌↔◌, IsTrue};
ghost use Rattle.tree_text_rules.specs.number_sets.Sets.{has, Avoids};
ghost use Rattle.tree_text_rules.specs.number_sets.Options.{all_options};

use charges::UnitSet;

/// Whether the sets are all non-empty sets between the base and the base with free units, in
/// numeric order. The time is linear in the number of the sets. It takes no memory.
pub(crate) fn are_options(base: UnitSet, free: UnitSet, found: &[UnitSet]) -> bool
    requires { Avoids (has base) (has free) }
    ensures { IsTrue result ↔ (found.now ≡ all_options base free) }
{
    base.rises();
    free.rises();
    let mut expected = UnitSet::first_option(base, free);
    'each: for i in 0..found.len() {
        let Some(option) = expected else {
            return false;
        };
        if found[i] != option {
            return false;
        }
        expected = option.next_option(base, free);
    }
    expected.is_none()
}
