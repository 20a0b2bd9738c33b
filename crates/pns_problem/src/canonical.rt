//! The canonical text of a problem, appended line by line.
ghost use Rattle.std.specs.Prelude.{◌≡◌, ◌<◌, ◌++◌, OnOk, false, [], length};
ghost use Rattle.std.specs.Prelude.{string_bytes};
ghost use Rattle.std.specs.Prelude.{map};
ghost use Rattle.text_rules.specs.problem_rules.Problem.{material_names, unit_names};
ghost use Rattle.text_rules.specs.problem_rules.Validity.{names_no_material, is_empty, IsValid};
ghost use Rattle.text_rules.specs.Printed.{amount_bytes};
ghost use Rattle.text_rules.specs.Canonical.{joined, spaced, field, field_unless_zero};
ghost use Rattle.text_rules.specs.Canonical.{kind_word};
ghost use Rattle.text_rules.specs.Canonical.{material_items, unit_items, item_line};
ghost use Rattle.text_rules.specs.Canonical.{name_at};
ghost use Rattle.text_rules.specs.Canonical.{token_text, side_tokens, rates_tokens};
ghost use Rattle.text_rules.specs.Canonical.{named};
ghost use Rattle.text_rules.specs.Canonical.{payout_lines, exclusion_section, canonical};
ghost use Rattle.pns_problem.specs.Kind.{kind_of};
ghost use Rattle.pns_problem.specs.Printing.{printed, further, further_items, rate_text};
ghost use Rattle.pns_problem.specs.Printing.{term_text};
ghost use Rattle.pns_problem.specs.Printing.{further_terms, material_amounts};
ghost use Rattle.pns_problem.specs.Printing.{unit_amounts};
ghost use Rattle.pns_problem.specs.Printing.{unit_investment_fix};
ghost use Rattle.pns_problem.specs.Printing.{unit_investment_proportional};
ghost use Rattle.pns_problem.specs.Printing.{material_line, unit_line, rates_line};
ghost use Rattle.pns_problem.specs.Printing.{exclusion_line};
ghost use Rattle.pns_problem.specs.Printing.{IsPrintable, AreKnown, HasKnownMembers};
ghost use Rattle.text_rules.specs.problem_rules.Each.{Each};

use crate::amount::push_amount;
use crate::exclusion::Exclusion;
use crate::material::{Kind, Material};
use crate::parts::Parts;
use crate::term::Term;
use crate::unit::OperatingUnit;
use std::alloc::AllocError;

/// `key=V`
fn push_field(text: &mut String, key: &str, value: i64) -> Result<(), AllocError>
    ensures { OnOk result
        (string_bytes text.new ≡ string_bytes text.old
        ++ field key.now (amount_bytes value)) }
{
    text.push_str(key)?;
    text.push('=')?;
    push_amount(text, value)?;
    Ok(())
}

/// `, key=V`
fn push_further(text: &mut String, key: &str, value: i64) -> Result<(), AllocError>
    ensures { OnOk result
        (string_bytes text.new ≡ string_bytes text.old
        ++ further (field key.now (amount_bytes value))) }
{
    text.push_str(", ")?;
    push_field(text, key, value)?;
    Ok(())
}

fn push_further_unless_zero(text: &mut String, key: &str, value: i64) -> Result<(), AllocError>
    ensures { OnOk result
        (string_bytes text.new ≡ string_bytes text.old
        ++ further_items (field_unless_zero key.now value)) }
{
    if value.unsigned_abs() == 0 {
        return Ok(());
    }
    push_further(text, key, value)?;
    Ok(())
}

fn push_kind(text: &mut String, kind: Kind) -> Result<(), AllocError>
    ensures { OnOk result
        (string_bytes text.new ≡ string_bytes text.old ++ kind_word (kind_of kind)) }
{
    match kind {
        Kind::RawMaterial => text.push_str("raw_material")?,
        Kind::Intermediate => text.push_str("intermediate")?,
        Kind::Product => text.push_str("product")?,
    }
    Ok(())
}

/// `NAME: `
fn push_name(text: &mut String, name: &str) -> Result<(), AllocError>
    ensures { OnOk result
        (string_bytes text.new ≡ string_bytes text.old ++ named name.now []) }
{
    text.push_str(name)?;
    text.push_str(": ")?;
    Ok(())
}

fn push_material_amounts(text: &mut String, material: &Material) -> Result<(), AllocError>
    ensures { let m = material.now in
        OnOk result
        (string_bytes text.new ≡ string_bytes text.old
        ++ further_items (material_amounts m)) }
{
    push_further(text, "price", material.price)?;
    push_further(text, "flow_rate_lower_bound", material.lower)?;
    push_further(text, "flow_rate_upper_bound", material.upper)?;
    Ok(())
}

fn push_material(text: &mut String, material: &Material) -> Result<(), AllocError>
    ensures { let m = material.now in
        OnOk result
        (string_bytes text.new ≡ string_bytes text.old
        ++ item_line m.name (material_items m)) }
{
    push_name(text, &material.name)?;
    push_kind(text, material.kind)?;
    push_material_amounts(text, material)?;
    Ok(())
}

fn push_unit_amounts(text: &mut String, unit: &OperatingUnit) -> Result<(), AllocError>
    ensures { let u = unit.now in
        OnOk result
        (string_bytes text.new ≡ string_bytes text.old ++ further_items (unit_amounts u)) }
{
    push_further(text, "capacity_upper_bound", unit.upper)?;
    push_further(text, "fix_cost", unit.fix)?;
    push_further(text, "proportional_cost", unit.proportional)?;
    Ok(())
}

fn push_investments(text: &mut String, unit: &OperatingUnit) -> Result<(), AllocError>
    ensures { let u = unit.now in
        OnOk result
        (string_bytes text.new ≡ string_bytes text.old
        ++ (further_items (unit_investment_fix u)
        ++ further_items (unit_investment_proportional u))) }
{
    push_further_unless_zero(text, "investment_fix_cost", unit.investment_fix)?;
    push_further_unless_zero(
        text,
        "investment_proportional_cost",
        unit.investment_proportional,
    )?;
    Ok(())
}

fn push_unit(text: &mut String, unit: &OperatingUnit) -> Result<(), AllocError>
    ensures { let u = unit.now in
        OnOk result
        (string_bytes text.new ≡ string_bytes text.old ++ item_line u.name (unit_items u)) }
{
    push_name(text, &unit.name)?;
    push_field(text, "capacity_lower_bound", unit.lower)?;
    push_unit_amounts(text, unit)?;
    push_investments(text, unit)?;
    Ok(())
}

/// A rate with a space, if it is not 1.
fn push_rate(text: &mut String, rate: i64) -> Result<(), AllocError>
    ensures { OnOk result
        (string_bytes text.new ≡ string_bytes text.old ++ rate_text rate) }
{
    if rate.unsigned_abs() == 1_000_000 {
        return Ok(());
    }
    push_amount(text, rate)?;
    text.push(' ')?;
    Ok(())
}

fn material_name(materials: &[Material], number: u32) -> &str
    requires { number < length materials.now }
    ensures { result.now ≡ name_at (material_names materials.now) number }
{
    let material = &materials[number as usize];
    &material.name
}

fn unit_name(units: &[OperatingUnit], number: u32) -> &str
    requires { number < length units.now }
    ensures { result.now ≡ name_at (unit_names units.now) number }
{
    let unit = &units[number as usize];
    &unit.name
}

fn push_term(text: &mut String, materials: &[Material], term: &Term) -> Result<(), AllocError>
    requires { term.now.material < length materials.now }
    ensures { OnOk result
        (string_bytes text.new ≡ string_bytes text.old
        ++ term_text (material_names materials.now) term.now) }
{
    push_rate(text, term.rate)?;
    let name = material_name(materials, term.material);
    text.push_str(name)?;
    Ok(())
}

/// The terms after the first of a side.
fn push_further_terms(
    text: &mut String,
    materials: &[Material],
    terms: &[Term],
) -> Result<(), AllocError>
    requires { names_no_material (length materials.now) terms.now ≡ false }
    ensures { OnOk result
        (string_bytes text.new ≡ string_bytes text.old
        ++ further_terms (material_names materials.now) terms.now) }
{
    'printing: for term in terms {
        text.push_str(" + ")?;
        push_term(text, materials, term)?;
    }
    Ok(())
}

fn push_side(text: &mut String, materials: &[Material], terms: &[Term]) -> Result<(), AllocError>
    requires some { is_empty terms.now ≡ false }
    requires known { names_no_material (length materials.now) terms.now ≡ false }
    ensures { OnOk result
        (string_bytes text.new ≡ string_bytes text.old
        ++ token_text (side_tokens (material_names materials.now) terms.now)) }
{
    push_term(text, materials, &terms[0])?;
    push_further_terms(text, materials, &terms[1..])?;
    Ok(())
}

fn push_rates(
    text: &mut String,
    materials: &[Material],
    unit: &OperatingUnit,
) -> Result<(), AllocError>
    requires { IsPrintable (length materials.now) unit.now }
    ensures { let names = material_names materials.now in
        let u = unit.now in
        OnOk result (string_bytes text.new ≡ string_bytes text.old
        ++ named u.name (token_text (rates_tokens names u))) }
{
    push_name(text, &unit.name)?;
    push_side(text, materials, &unit.inputs)?;
    text.push_str(" => ")?;
    push_side(text, materials, &unit.outputs)?;
    Ok(())
}

fn push_further_members(
    text: &mut String,
    units: &[OperatingUnit],
    members: &[u32],
) -> Result<(), AllocError>
    requires { AreKnown (length units.now) members.now }
    ensures { OnOk result
        (string_bytes text.new ≡ string_bytes text.old
        ++ further_items (map (name_at (unit_names units.now)) members.now)) }
{
    'printing: for member in members {
        text.push_str(", ")?;
        let name = unit_name(units, *member);
        text.push_str(name)?;
    }
    Ok(())
}

fn push_members(
    text: &mut String,
    units: &[OperatingUnit],
    members: &[u32],
) -> Result<(), AllocError>
    requires some { 0 < length members.now }
    requires known { AreKnown (length units.now) members.now }
    ensures { OnOk result
        (string_bytes text.new ≡ string_bytes text.old
        ++ joined 44 (spaced (map (name_at (unit_names units.now)) members.now))) }
{
    let first = unit_name(units, members[0]);
    text.push_str(first)?;
    push_further_members(text, units, &members[1..])?;
    Ok(())
}

fn push_exclusion(
    text: &mut String,
    units: &[OperatingUnit],
    exclusion: &Exclusion,
) -> Result<(), AllocError>
    requires { HasKnownMembers (length units.now) exclusion.now }
    ensures { let e = exclusion.now in
        OnOk result
        (string_bytes text.new ≡ string_bytes text.old
        ++ item_line e.name (map (name_at (unit_names units.now)) e.units)) }
{
    push_name(text, &exclusion.name)?;
    push_members(text, units, &exclusion.units)?;
    Ok(())
}

fn push_material_lines(text: &mut String, materials: &[Material]) -> Result<(), AllocError>
    ensures { OnOk result
        (string_bytes text.new ≡ string_bytes text.old
        ++ printed (map material_line materials.now)) }
{
    'printing: for material in materials {
        push_material(text, material)?;
        text.push('\n')?;
    }
    Ok(())
}

fn push_unit_lines(text: &mut String, units: &[OperatingUnit]) -> Result<(), AllocError>
    ensures { OnOk result
        (string_bytes text.new ≡ string_bytes text.old
        ++ printed (map unit_line units.now)) }
{
    'printing: for unit in units {
        push_unit(text, unit)?;
        text.push('\n')?;
    }
    Ok(())
}

fn push_rates_lines(
    text: &mut String,
    materials: &[Material],
    units: &[OperatingUnit],
) -> Result<(), AllocError>
    requires { Each (IsPrintable (length materials.now)) units.now }
    ensures { OnOk result
        (string_bytes text.new ≡ string_bytes text.old
        ++ printed (map (rates_line (material_names materials.now)) units.now)) }
{
    'printing: for unit in units {
        push_rates(text, materials, unit)?;
        text.push('\n')?;
    }
    Ok(())
}

fn push_exclusion_lines(
    text: &mut String,
    units: &[OperatingUnit],
    exclusions: &[Exclusion],
) -> Result<(), AllocError>
    requires { Each (HasKnownMembers (length units.now)) exclusions.now }
    ensures { OnOk result
        (string_bytes text.new ≡ string_bytes text.old
        ++ printed (map (exclusion_line (unit_names units.now)) exclusions.now)) }
{
    'printing: for exclusion in exclusions {
        push_exclusion(text, units, exclusion)?;
        text.push('\n')?;
    }
    Ok(())
}

/// The section of the defaults, if the payout period is not 1.
fn push_payout(text: &mut String, payout: i64) -> Result<(), AllocError>
    ensures { OnOk result
        (string_bytes text.new ≡ string_bytes text.old ++ printed (payout_lines payout)) }
{
    let years = payout.unsigned_abs();
    if years == 1 {
        return Ok(());
    }
    text.push_str("\ndefaults:\npayout_period=")?;
    write!(text, "{years}")?;
    text.push('\n')?;
    Ok(())
}

/// The section of the exclusions, if there are any.
fn push_exclusion_section(
    text: &mut String,
    units: &[OperatingUnit],
    exclusions: &[Exclusion],
) -> Result<(), AllocError>
    requires { Each (HasKnownMembers (length units.now)) exclusions.now }
    ensures { OnOk result
        (string_bytes text.new ≡ string_bytes text.old
        ++ printed (exclusion_section (map (exclusion_line (unit_names units.now))
        exclusions.now))) }
{
    if exclusions.is_empty() {
        return Ok(());
    }
    text.push_str("\nmutual_exclusions:\n")?;
    push_exclusion_lines(text, units, exclusions)?;
    Ok(())
}

/// Appends the canonical text of a valid problem.
pub(crate) fn push_problem(text: &mut String, parts: &Parts) -> Result<(), AllocError>
    requires { IsValid parts.now }
    ensures { OnOk result
        (string_bytes text.new ≡ string_bytes text.old ++ canonical parts.now) }
{
    text.push_str("file_type=PNS_problem_v1\n")?;
    push_payout(text, parts.payout)?;
    text.push_str("\nmaterials:\n")?;
    push_material_lines(text, &parts.materials)?;
    text.push_str("\noperating_units:\n")?;
    push_unit_lines(text, &parts.units)?;
    text.push_str("\nmaterial_to_operating_unit_flow_rates:\n")?;
    push_rates_lines(text, &parts.materials, &parts.units)?;
    push_exclusion_section(text, &parts.units, &parts.exclusions)?;
    Ok(())
}
