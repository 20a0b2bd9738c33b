//! The items that lines are of.
ghost use Rattle.std.specs.Prelude.{◌≡◌, ◌<◌, ◌≤◌, IfSome, length, option_map};
ghost use Rattle.text_lines.specs.problem_rules.Problem.{material_names, unit_names};
ghost use Rattle.text_lines.specs.problem_rules.Problem.{exclusion_names};
ghost use Rattle.text_lines.specs.problem_rules.Problem as rules;
ghost use Rattle.text_lines.specs.problem_rules.Names.{is_among};
ghost use Rattle.text_lines.specs.text_rules.Line.{head_of};
ghost use Rattle.text_lines.specs.View.{texts};
ghost use Rattle.command_files.specs.report_rules.Item.{number_of, rates_item, item_at};
ghost use Rattle.structure_commands.specs.Judged.{IsKnown};

use crate::line::Line;
use cert_check::{Exclusion, Material, OperatingUnit, Problem, Section};
use command_files::Item;
use text_lines::name::is_among;

// The number of the material of this name.
fn material_number(materials: &[Material], name: &[u8]) -> Option<u32>
    requires { length materials.now ≤ 256 }
    ensures number { result ≡ number_of (material_names materials.now) name.now }
    ensures known { IfSome result (λ x. x < length materials.now) }
{
    let mut x = 0;
    'looking: for material in materials {
        if material.name.as_bytes() == name {
            return Some(x);
        }
        x += 1;
    }
    None
}

// The number of the unit of this name.
fn unit_number(units: &[OperatingUnit], name: &[u8]) -> Option<u32>
    requires { length units.now ≤ 128 }
    ensures number { result ≡ number_of (unit_names units.now) name.now }
    ensures known { IfSome result (λ u. u < length units.now) }
{
    let mut u = 0;
    'looking: for unit in units {
        if unit.name.as_bytes() == name {
            return Some(u);
        }
        u += 1;
    }
    None
}

// The number of the exclusion of this name.
fn exclusion_number(exclusions: &[Exclusion], name: &[u8]) -> Option<u32>
    requires { length exclusions.now ≤ 64 }
    ensures number { result ≡ number_of (exclusion_names exclusions.now) name.now }
    ensures known { IfSome result (λ k. k < length exclusions.now) }
{
    let mut k = 0;
    'looking: for exclusion in exclusions {
        if exclusion.name.as_bytes() == name {
            return Some(k);
        }
        k += 1;
    }
    None
}

// The unit at its line of rates, by whether it has a line of its own too.
fn rates_item(own: bool, u: u32) -> Item
    ensures { result ≡ rates_item own u }
{
    if own {
        Item::Rates(u)
    } else {
        Item::BareUnit(u)
    }
}

// The item that a line of rates of this name is of.
fn rates_at(units: &[OperatingUnit], own: &[&[u8]], name: &[u8]) -> Option<Item>
    requires { length units.now ≤ 128 }
    ensures item { result ≡ option_map (rates_item (is_among (texts own.now) name.now))
        (number_of (unit_names units.now) name.now) }
    ensures known { IfSome result
        (λ item. (p : rules.Problem) → p.units ≡ units.now → IsKnown p item) }
{
    let u = unit_number(units, name)?;
    Some(rates_item(is_among(own, name), u))
}

/// The item that a line is of, by its section and its name; `own` are the names of the units that
/// have a line of their own.
pub(crate) fn item_at(problem: &Problem, own: &[&[u8]], line: &Line<'_>) -> Option<Item>
    ensures item { result ≡ item_at problem.now (texts own.now) line.now.section
        (head_of line.now.text) }
    ensures known { IfSome result (IsKnown problem.now) }
{
    problem.is_valid();
    let name = line.head();
    match line.section() {
        Section::Materials => material_number(problem.materials(), name).map(Item::Material),
        Section::OperatingUnits => unit_number(problem.units(), name).map(Item::Unit),
        Section::Rates => rates_at(problem.units(), own, name),
        Section::Exclusions => exclusion_number(problem.exclusions(), name).map(Item::Exclusion),
        Section::Preamble | Section::MeasurementUnits | Section::Defaults => None,
    }
}
