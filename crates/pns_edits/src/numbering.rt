//! Numbers of materials and units after one was inserted or removed.
ghost use Rattle.std.specs.Prelude.{◌≡◌, ◌<◌, map};
ghost use Rattle.edit_laws.specs.number_sets.Sets.{has};
ghost use Rattle.edit_laws.specs.problem_rules.Each.{Each};
ghost use Rattle.edit_laws.specs.problem_rules.Problem.{terms_have};
ghost use Rattle.edit_laws.specs.edit_rules.Numbering.{in_term, in_unit, in_exclusion};
ghost use Rattle.edit_laws.specs.edit_rules.Numbering.{any_unit_has};
ghost use Rattle.edit_laws.specs.edit_rules.Numbering.{any_excludes};
ghost use Rattle.pns_edits.specs.Renumbering.{new_number};
ghost use Rattle.pns_edits.specs.Terms.{AreTermsBelow, IsUnitBelow, AreNumbersBelow};
ghost use Rattle.pns_edits.specs.Terms.{IsExclusionBelow};

use edit_scripts::{Exclusion, OperatingUnit, Term};

/// The place at which an item was inserted, or from which it was removed. The items after it have
/// new numbers.
#[derive(Clone, Copy)]
pub(crate) enum Renumbering {
    PutIn(u32),
    TakenOut(u32),
}

fn new_number(by: Renumbering, x: u32) -> u32
    requires { x < 4294967295 }
    ensures { result ≡ new_number by x }
{
    match by {
        Renumbering::PutIn(k) => if x < k { x } else { x + 1 },
        Renumbering::TakenOut(k) => if k < x { x - 1 } else { x },
    }
}

fn renumber_terms(terms: &mut [Term], by: Renumbering)
    requires { AreTermsBelow 256 terms.old }
    ensures { terms.new ≡ map (in_term (new_number by)) terms.old }
{
    'moving: for term in terms.iter_mut() {
        term.material = new_number(by, term.material);
    }
}

/// Gives the units the new numbers of materials.
pub(crate) fn renumber_units(units: &mut [OperatingUnit], by: Renumbering)
    requires { Each (IsUnitBelow 256) units.old }
    ensures { units.new ≡ map (in_unit (new_number by)) units.old }
{
    'moving: for unit in units.iter_mut() {
        renumber_terms(&mut unit.inputs, by);
        renumber_terms(&mut unit.outputs, by);
    }
}

fn renumber_members(members: &mut [u32], by: Renumbering)
    requires { AreNumbersBelow 128 members.old }
    ensures { members.new ≡ map (new_number by) members.old }
{
    'moving: for member in members.iter_mut() {
        *member = new_number(by, *member);
    }
}

/// Gives the exclusions the new numbers of units.
pub(crate) fn renumber_exclusions(exclusions: &mut [Exclusion], by: Renumbering)
    requires { Each (IsExclusionBelow 128) exclusions.old }
    ensures { exclusions.new ≡ map (in_exclusion (new_number by)) exclusions.old }
{
    'moving: for exclusion in exclusions.iter_mut() {
        renumber_members(&mut exclusion.units, by);
    }
}

fn terms_have(terms: &[Term], k: u32) -> bool
    ensures { result ≡ terms_have terms.now k }
{
    'looking: for term in terms {
        if term.material == k {
            return true;
        }
    }
    false
}

/// Whether some unit has the material.
pub(crate) fn any_unit_has(units: &[OperatingUnit], k: u32) -> bool
    ensures { result ≡ any_unit_has units.now k }
{
    units.iter().any(|unit| terms_have(&unit.inputs, k) || terms_have(&unit.outputs, k))
}

pub(crate) fn has_number(numbers: &[u32], k: u32) -> bool
    ensures { result ≡ has numbers.now k }
{
    'looking: for number in numbers {
        if *number == k {
            return true;
        }
    }
    false
}

/// Whether some exclusion has the unit.
pub(crate) fn any_excludes(exclusions: &[Exclusion], k: u32) -> bool
    ensures { result ≡ any_excludes exclusions.now k }
{
    exclusions
        .iter()
        .any(|exclusion| has_number(&exclusion.units, k))
}
