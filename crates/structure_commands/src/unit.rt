//! What may be odd about an operating unit.
ghost use Rattle.std.specs.Prelude.{◌≡◌, ◌<◌, length, take};
ghost use Rattle.std.specs.List.{list_any};
ghost use Rattle.text_lines.specs.problem_rules.Problem.{rate_in};
ghost use Rattle.command_files.specs.report_rules.Warned.{has_no_charge, has_default_capacity};
ghost use Rattle.command_files.specs.report_rules.Warned.{is_free, are_among};
ghost use Rattle.command_files.specs.report_rules.Warned.{same_terms, same_bounds, same_costs};
ghost use Rattle.command_files.specs.report_rules.Warned.{are_alike, is_fine};
ghost use Rattle.command_files.specs.report_rules.Warned.{are_fine, has_fine_rates};

use crate::material::NO_BOUND;
use cert_check::{OperatingUnit, Term};

fn has_no_charge(unit: &OperatingUnit) -> bool
    ensures { result ≡ has_no_charge unit.now }
{
    unit.fix == 0 && unit.investment_fix == 0 && unit.investment_proportional == 0
}

/// A fixed cost or an investment cost, and no bound on the capacity.
pub(crate) fn has_default_capacity(unit: &OperatingUnit) -> bool
    ensures { result ≡ has_default_capacity unit.now }
{
    !has_no_charge(unit) && unit.upper == NO_BOUND
}

/// No cost at all.
pub(crate) fn is_free(unit: &OperatingUnit) -> bool
    ensures { result ≡ is_free unit.now }
{
    has_no_charge(unit) && unit.proportional == 0
}

// The rate of a material among the terms, 0 if it is not there.
fn rate_in(terms: &[Term], material: u32) -> i64
    ensures { result ≡ rate_in terms.now material }
{
    'looking: for term in terms {
        if term.material == material {
            return term.rate;
        }
    }
    0
}

fn are_among(others: &[Term], terms: &[Term]) -> bool
    ensures { result ≡ are_among others.now terms.now }
{
    'looking: for term in terms {
        if rate_in(others, term.material) != term.rate {
            return false;
        }
    }
    true
}

fn same_terms(terms: &[Term], others: &[Term]) -> bool
    ensures { result ≡ same_terms terms.now others.now }
{
    are_among(others, terms) && are_among(terms, others)
}

fn same_bounds(unit: &OperatingUnit, other: &OperatingUnit) -> bool
    ensures { result ≡ same_bounds unit.now other.now }
{
    unit.lower == other.lower && unit.upper == other.upper
}

fn same_costs(unit: &OperatingUnit, other: &OperatingUnit) -> bool
    ensures { result ≡ same_costs unit.now other.now }
{
    unit.fix == other.fix
        && unit.proportional == other.proportional
        && unit.investment_fix == other.investment_fix
        && unit.investment_proportional == other.investment_proportional
}

fn are_alike(unit: &OperatingUnit, other: &OperatingUnit) -> bool
    ensures { result ≡ are_alike unit.now other.now }
{
    same_bounds(unit, other)
        && same_costs(unit, other)
        && same_terms(&unit.inputs, &other.inputs)
        && same_terms(&unit.outputs, &other.outputs)
}

/// Whether one of the others is like the unit in all but the name.
pub(crate) fn is_like_one(unit: &OperatingUnit, others: &[OperatingUnit]) -> bool
    ensures { result ≡ list_any (are_alike unit.now) others.now }
{
    'looking: for other in others {
        if are_alike(unit, other) {
            return true;
        }
    }
    false
}

fn is_fine(rate: i64) -> bool
    ensures { result ≡ is_fine rate }
{
    rate.unsigned_abs() % 1000 != 0
}

fn are_fine(terms: &[Term]) -> bool
    ensures { result ≡ are_fine terms.now }
{
    'looking: for term in terms {
        if is_fine(term.rate) {
            return true;
        }
    }
    false
}

/// Whether a rate of the unit has more than three decimals.
pub(crate) fn has_fine_rates(unit: &OperatingUnit) -> bool
    ensures { result ≡ has_fine_rates unit.now }
{
    are_fine(&unit.inputs) || are_fine(&unit.outputs)
}
