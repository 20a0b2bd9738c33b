//! The parts of the problem that lines without a fault stand for.
ghost use Rattle.std.specs.Prelude.{◌≡◌, ◌<◌, ◌^◌, length, ◌++◌, ◌&&◌, false, IfOk, OnOk, map};
ghost use Rattle.std.specs.Prelude.{not};
ghost use Rattle.std.specs.Prelude.{option_map, true, IfSome, is_some, find, string_bytes};
ghost use Rattle.text_lines.specs.problem_rules.Names.{is_name, is_among, has_double};
ghost use Rattle.std.specs.Str.{bytes_eq};
ghost use Rattle.text_lines.specs.text_rules.Line.{head_of, is_at, lines_at, heads_at};
ghost use Rattle.text_lines.specs.text_rules.Term.{pairs_at};
ghost use Rattle.text_lines.specs.text_rules.Value.{item_fields, settings_of, material_from};
ghost use Rattle.text_lines.specs.text_rules.Value.{unit_from};
ghost use Rattle.text_lines.specs.text_rules.Value.{materials_from, term_from, sides_named};
ghost use Rattle.text_lines.specs.text_rules.Value.{listed_unit};
ghost use Rattle.text_lines.specs.text_rules.Value.{bare_unit, bare_lines, units_from};
ghost use Rattle.text_lines.specs.text_rules.Value.{unit_names_from};
ghost use Rattle.text_lines.specs.text_rules.Value.{numbers_among, exclusion_named};
ghost use Rattle.text_lines.specs.text_rules.Value.{exclusions_from};
ghost use Rattle.text_lines.specs.text_rules.Value.{problem_from};
ghost use Rattle.text_lines.specs.View.{texts};
ghost use Rattle.text_lines.specs.Terms.{term_view, terms_view, sides_view};

use crate::cut::Kept;
use crate::item::Item;
use crate::meaning::{Names, unit_heads};
use crate::settings::{Settings, kind_at, number_at, payout_of};
use pns_problem::{Exclusion, Material, OperatingUnit, Parts, Term};
use std::alloc::{AllocError, Global};
use std::str;
use text_lines::amount::millionths;
use text_lines::name_set::{NameSet, once};
use text_lines::{Section, term};

// The name as a string: a name is ASCII, and so UTF-8.
#[tactic(auto, using(text_lines::proofs::Ascii::name_utf8))]
fn name_string(alloc: Global, name: &[u8]) -> Result<String, AllocError>
    requires { is_name name.now ≡ true }
    ensures { IfOk result (λ s. string_bytes s ≡ name.now) }
{
    match str::from_utf8(name) {
        Ok(text) => String::from_str(alloc, text),
        Err(_) => unreachable!(),
    }
}

// The material of this name with these items.
fn material(
    alloc: Global,
    settings: &Settings,
    name: &[u8],
    items: &[Item<'_>],
) -> Result<Material, AllocError>
    requires { is_name name.now ≡ true }
    ensures { IfOk result (λ m. m ≡ material_from settings.now name.now (item_fields items.now)) }
{
    let name = name_string(alloc, name)?;
    Ok(Material {
        name,
        kind: kind_at(items, settings.kind),
        price: number_at(items, b"price", settings.price),
        lower: number_at(items, b"flow_rate_lower_bound", settings.flow_lower),
        upper: number_at(items, b"flow_rate_upper_bound", settings.flow_upper),
    })
}

fn materials(
    alloc: Global,
    settings: &Settings,
    lines: &[Kept<'_>],
) -> Result<Vec<Material>, AllocError>
    ensures { IfOk result (λ materials. materials.items ≡ materials_from settings.now lines.now) }
{
    let mut materials = Vec::new(alloc);
    for line in lines {
        if let Some(items) = line.material_items() {
            materials.push(material(alloc, settings, line.head(), items)?)?;
        }
    }
    Ok(materials)
}

// The term, with the number of its material, which is 0 if the name is none of these.
#[tactic(auto, using(crate::proofs::Counts::position_few))]
fn term(names: &NameSet<'_>, term: &term::Term<'_>) -> Term
    requires { length names.now < 2 ^ 32 }
    ensures { result ≡ term_from names.now (term_view term.now) }
{
    Term {
        material: names.number_of(term.name).unwrap_or(0) as u32,
        rate: millionths(term.number),
    }
}

fn terms(
    alloc: Global,
    names: &NameSet<'_>,
    terms: &[term::Term<'_>],
) -> Result<Vec<Term>, AllocError>
    requires { length names.now < 2 ^ 32 }
    ensures { IfOk result
        (λ all. all.items ≡ map (λ one. term_from names.now (term_view one)) terms.now) }
{
    terms.iter().map(|one| term(names, one)).collect(alloc)
}

// The sides of the line of rates of this name.
fn rates_named<'b, 'a>(lines: &'b [Kept<'a>], name: &[u8]) -> Option<&'b term::Sides<'a>>
    ensures { option_map (λ sides. sides_view sides.now) result
        ≡ option_map (λ line. pairs_at line.text)
        (find (λ line. bytes_eq (head_of line.text) name.now) (lines_at Section.Rates lines.now)) }
{
    for line in lines {
        if let Some(sides) = line.sides() {
            if line.head() == name {
                return Some(sides);
            }
        }
    }
    None
}

#[tactic(auto, using(crate::proofs::CutLines::sides_missing))]
fn sides_named(
    alloc: Global,
    names: &NameSet<'_>,
    lines: &[Kept<'_>],
    name: &[u8],
) -> Result<(Vec<Term>, Vec<Term>), AllocError>
    requires { length names.now < 2 ^ 32 }
    ensures { IfOk result
        (λ sides. (sides.0.items, sides.1.items) ≡ sides_named names.now lines.now name.now) }
{
    let Some(sides) = rates_named(lines, name) else {
        return Ok((Vec::new(alloc), Vec::new(alloc)));
    };
    let inputs = terms(alloc, names, &sides.inputs)?;
    let outputs = terms(alloc, names, &sides.outputs)?;
    Ok((inputs, outputs))
}

// The unit of this name with these items.
fn unit(
    alloc: Global,
    settings: &Settings,
    names: &NameSet<'_>,
    lines: &[Kept<'_>],
    name: &[u8],
    items: &[Item<'_>],
) -> Result<OperatingUnit, AllocError>
    requires named { is_name name.now ≡ true }
    requires few { length names.now < 2 ^ 32 }
    ensures { IfOk result (λ u. u ≡ unit_from settings.now name.now (item_fields items.now)
        (sides_named names.now lines.now name.now).0 (sides_named names.now lines.now name.now).1) }
{
    let (inputs, outputs) = sides_named(alloc, names, lines, name)?;
    let name = name_string(alloc, name)?;
    Ok(OperatingUnit {
        name,
        lower: number_at(items, b"capacity_lower_bound", settings.capacity_lower),
        upper: number_at(items, b"capacity_upper_bound", settings.capacity_upper),
        fix: number_at(items, b"fix_cost", settings.fix),
        proportional: number_at(items, b"proportional_cost", settings.proportional),
        investment_fix: number_at(items, b"investment_fix_cost", settings.investment_fix),
        investment_proportional: number_at(
            items,
            b"investment_proportional_cost",
            settings.investment_proportional,
        ),
        inputs,
        outputs,
    })
}

fn listed_units(
    alloc: Global,
    settings: &Settings,
    names: &NameSet<'_>,
    lines: &[Kept<'_>],
) -> Result<Vec<OperatingUnit>, AllocError>
    requires { length names.now < 2 ^ 32 }
    ensures { IfOk result
        (λ units. units.items
        ≡ map (λ line. listed_unit settings.now names.now lines.now line.text)
        (lines_at Section.OperatingUnits lines.now)) }
{
    let mut units = Vec::new(alloc);
    for line in lines {
        if let Some(items) = line.unit_items() {
            units.push(unit(alloc, settings, names, lines, line.head(), items)?)?;
        }
    }
    Ok(units)
}

// The name, if the line is one of rates, of a unit without a line of its own.
fn bare_name<'a>(units: &NameSet<'_>, line: &Kept<'a>) -> Option<&'a [u8]>
    ensures some { IfSome result (λ name. name.now ≡ head_of line.now.text) }
    ensures named { IfSome result (λ name. is_name name.now ≡ true) }
    ensures at { is_some result
        ≡ (is_at Section.Rates line.now && not (is_among units.now (head_of line.now.text))) }
{
    line.sides()?;
    let name = line.head();
    if units.has(name) {
        return None;
    }
    Some(name)
}

// Adds the units of the lines of rates of units without a line of their own.
fn push_bare_units(
    alloc: Global,
    settings: &Settings,
    names: &Names<'_>,
    lines: &[Kept<'_>],
    units: &mut Vec<OperatingUnit>,
) -> Result<(), AllocError>
    requires { length names.now.materials < 2 ^ 32 }
    ensures { OnOk result
        (units.new.items ≡ units.old.items
        ++ map (λ line. bare_unit settings.now names.now.materials lines.now line.text)
        (bare_lines names.now.units lines.now)) }
{
    for line in lines {
        if let Some(name) = bare_name(&names.units, line) {
            units.push(unit(alloc, settings, &names.materials, lines, name, &[])?)?;
        }
    }
    Ok(())
}

fn units(
    alloc: Global,
    settings: &Settings,
    names: &Names<'_>,
    lines: &[Kept<'_>],
) -> Result<Vec<OperatingUnit>, AllocError>
    requires units { names.now.units ≡ heads_at Section.OperatingUnits lines.now }
    requires few { length names.now.materials < 2 ^ 32 }
    ensures { IfOk result
        (λ units. units.items ≡ units_from settings.now names.now.materials lines.now) }
{
    let mut units = listed_units(alloc, settings, &names.materials, lines)?;
    push_bare_units(alloc, settings, names, lines, &mut units)?;
    Ok(units)
}

fn is_bare(units: &NameSet<'_>, line: &Kept<'_>) -> bool
    ensures { result
        ≡ (is_at Section.Rates line.now && not (is_among units.now (head_of line.now.text))) }
{
    bare_name(units, line).is_some()
}

// Adds the names of the units without a line of their own.
fn push_bare_names<'a>(
    all: &mut Vec<&'a [u8]>,
    units: &NameSet<'_>,
    lines: &[Kept<'a>],
) -> Result<(), AllocError>
    ensures { OnOk result
        (texts all.new.items ≡ texts all.old.items
        ++ map (λ line. head_of line.text) (bare_lines units.now lines.now)) }
{
    for line in lines {
        if is_bare(units, line) {
            all.push(line.head())?;
        }
    }
    Ok(())
}

// The names of the units, in their order.
fn unit_names<'a>(
    alloc: Global,
    names: &Names<'a>,
    lines: &[Kept<'a>],
) -> Result<Vec<&'a [u8]>, AllocError>
    requires { names.now.units ≡ heads_at Section.OperatingUnits lines.now }
    ensures { IfOk result (λ all. texts all.items ≡ unit_names_from lines.now) }
{
    let mut all = unit_heads(alloc, lines)?;
    push_bare_names(&mut all, &names.units, lines)?;
    Ok(all)
}

// The numbers of the units that are among the names.
fn numbers_among(
    alloc: Global,
    among: &NameSet<'_>,
    units: &[&[u8]],
) -> Result<Vec<u32>, AllocError>
    requires { length units.now < 2 ^ 32 }
    ensures { IfOk result (λ members. members.items ≡ numbers_among among.now 0 (texts units.now)) }
{
    let mut members = Vec::new(alloc);
    for (number, name) in units.iter().enumerate() {
        if among.has(*name) {
            members.push(number as u32)?;
        }
    }
    Ok(members)
}

// The exclusion of this name with these members.
fn exclusion(
    alloc: Global,
    units: &[&[u8]],
    name: &[u8],
    members: &[&[u8]],
) -> Result<Exclusion, AllocError>
    requires named { is_name name.now ≡ true }
    requires once { has_double (texts members.now) ≡ false }
    requires few { length units.now < 2 ^ 32 }
    ensures { IfOk result
        (λ x. x ≡ exclusion_named (texts units.now) name.now (texts members.now)) }
{
    let Some(among) = once(alloc, members)? else {
        unreachable!()
    };
    let units = numbers_among(alloc, &among, units)?;
    let name = name_string(alloc, name)?;
    Ok(Exclusion { name, units })
}

fn exclusions(
    alloc: Global,
    units: &[&[u8]],
    lines: &[Kept<'_>],
) -> Result<Vec<Exclusion>, AllocError>
    requires { length units.now < 2 ^ 32 }
    ensures { IfOk result
        (λ exclusions. exclusions.items ≡ exclusions_from (texts units.now) lines.now) }
{
    let mut exclusions = Vec::new(alloc);
    for line in lines {
        if let Some(members) = line.members() {
            exclusions.push(exclusion(alloc, units, line.head(), members)?)?;
        }
    }
    Ok(exclusions)
}

/// The parts of the problem.
#[tactic(auto, using(crate::proofs::Counts::heads_few, crate::proofs::Counts::units_few))]
pub(crate) fn parts_of(
    alloc: Global,
    settings: &Settings,
    names: &Names<'_>,
    lines: &[Kept<'_>],
) -> Result<Parts, AllocError>
    requires settings { settings.now ≡ settings_of lines.now }
    requires materials { names.now.materials ≡ heads_at Section.Materials lines.now }
    requires units { names.now.units ≡ heads_at Section.OperatingUnits lines.now }
    requires few { length lines.now < 2 ^ 32 }
    ensures { IfOk result (λ parts. parts ≡ problem_from lines.now) }
{
    let materials = materials(alloc, settings, lines)?;
    let units = units(alloc, settings, names, lines)?;
    let unit_names = unit_names(alloc, names, lines)?;
    let exclusions = exclusions(alloc, &unit_names, lines)?;
    Ok(Parts {
        materials,
        units,
        exclusions,
        payout: payout_of(lines),
    })
}
