//! What may be odd about an exclusion.
ghost use Rattle.std.specs.Prelude.{◌≡◌, ◌<◌, ℕ, true};
ghost use Rattle.text_lines.specs.number_sets.Sets.{has};
ghost use Rattle.command_files.specs.report_rules.Warned.{is_alone};

use cert_check::{Exclusion, UnitSet};

/// Whether at most one of its units is in the set.
pub(crate) fn is_alone(units: UnitSet, exclusion: &Exclusion) -> bool
    requires { (u : ℕ) → has exclusion.now.units u ≡ true → u < 128 }
    ensures { result ≡ is_alone (has units) exclusion.now }
{
    let mut found = false;
    'counting: for u in &exclusion.units {
        if units.has(*u) {
            if found {
                return false;
            }
            found = true;
        }
    }
    true
}
