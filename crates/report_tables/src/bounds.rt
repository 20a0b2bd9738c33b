//! The lines of the bounds that a leaf uses.
ghost use Rattle.std.specs.Prelude.{◌≡◌, ◌<◌, ◌++◌, ◌∷◌, [], ℕ, pos, true, length, OnOk};
ghost use Rattle.std.specs.Prelude.{◌<ℤ◌, ◌&&◌, not, int_lt, string_bytes};
ghost use Rattle.std.specs.Ordering.{int_eq};
ghost use Rattle.cert_check.specs.integer_laws.Range.{InRange};
ghost use Rattle.text_lines.specs.number_sets.Sets.{has};
ghost use Rattle.text_lines.specs.problem_rules.Problem.{is_raw_material, rate_of};
ghost use Rattle.cert_check.specs.pns_problem.Kind.{kind_of};
ghost use Rattle.cert_check.specs.pns_problem.Printing.{printed};
ghost use Rattle.cert_check.specs.pns_rules.Shape.{shape_of};
ghost use Rattle.cert_check.specs.pgraph.View.{node_of};
ghost use Rattle.cert_check.specs.flow_rules.Net.{net_of};
ghost use Rattle.cert_check.specs.flow_rules.Relaxed as relaxed;
ghost use Rattle.cert_check.specs.flow_rules.Steps.{AreInRange};
ghost use Rattle.cert_check.specs.flow_rules.BoundSteps.{rows_at, reduced_steps};
ghost use Rattle.cert_check.specs.flow_program.Entry.{entry};
ghost use Rattle.cert_check.specs.flow_program.NodeSets.{AreSetsOf, AreNeeded};
ghost use Rattle.cert_check.specs.Known.{KnowsInside};
ghost use Rattle.cert_check.specs.tree_rules.Leaf.{IsRefuted, multiplier};
ghost use Rattle.report_amounts.specs.report_rules.Amounts.{quotient};
ghost use Rattle.report_amounts.specs.report_rules.Clash.{bound_line, uses_lower, material_here};
ghost use Rattle.report_amounts.specs.report_rules.Clash.{material_lines};
ghost use Rattle.report_amounts.specs.report_rules.Clash.{unit_here, unit_lines};

use crate::left::left_after;
use cert_check::{
    Kind, MatSet, Node, NodeSets, Problem, Site, UnitSet, by_material, put_rates, sets_of,
    unit_numbers,
};
use report_amounts::{Number, material_of, unit_of};
use std::alloc::AllocError;

/// num / den.
#[tactic(auto, unfolding(crate::specs::Unfolded::quotient))]
fn quotient(num: i128, den: i128) -> Number
    requires num_in_range { InRange num }
    requires den_in_range { InRange den }
    requires positive { pos 0 <ℤ den }
    ensures { result ≡ quotient num den }
{
    Number::of(num, den)
}

/// Appends the line of a bound of so many millionths.
fn push_bound(text: &mut String, name: &str, words: &str, bound: i128) -> Result<(), AllocError>
    requires { InRange bound }
    ensures { OnOk result
        (string_bytes text.new ≡ string_bytes text.old
        ++ printed (bound_line name.now words.now bound ∷ [])) }
{
    text.push_str("  ")?;
    text.push_str(name)?;
    text.push_str(words)?;
    quotient(bound, 1_000_000).push(text)?;
    text.push('\n')?;
    Ok(())
}

// ---- materials

/// Whether the multiplier, which is not 0, uses the lower bound of a material of this kind.
fn uses_lower(kind: Kind, y: i128) -> bool
    ensures { result ≡ uses_lower (is_raw_material (kind_of kind)) y }
{
    match kind {
        Kind::RawMaterial => y < 0,
        Kind::Intermediate | Kind::Product => y > 0,
    }
}

/// The lower bound of a material at a node: 0 if it need not be there.
fn lower_at(problem: &Problem, node: &Node, needed: MatSet, j: u32) -> i64
    requires known { j < length problem.now.materials }
    requires needed { AreNeeded (shape_of problem.now) (node_of node.now) needed }
    ensures { result ≡ relaxed.lower_at (net_of problem.now) (node_of node.now) j }
{
    problem.is_valid();
    if needed.has(j) {
        material_of(problem, j).lower
    } else {
        0
    }
}

fn push_material(
    text: &mut String,
    problem: &Problem,
    j: u32,
    lower: i64,
    y: i128,
) -> Result<(), AllocError>
    requires { j < length problem.now.materials }
    ensures { OnOk result
        (string_bytes text.new ≡ string_bytes text.old
        ++ printed (material_here problem.now j lower y)) }
{
    if y == 0 {
        return Ok(());
    }
    let material = material_of(problem, j);
    if uses_lower(material.kind, y) {
        push_bound(
            text,
            problem.material_name(j),
            ": at least ",
            i128::from(lower),
        )
    } else {
        push_bound(
            text,
            problem.material_name(j),
            ": at most ",
            i128::from(material.upper),
        )
    }
}

/// Appends the lines of the materials. The multiplier of each is at its number.
fn push_materials(
    text: &mut String,
    problem: &Problem,
    node: &Node,
    sets: &NodeSets,
    ys: &[i128],
) -> Result<(), AllocError>
    requires sets { AreSetsOf (shape_of problem.now) (node_of node.now) sets.now.units
        sets.now.rows
        sets.now.needed }
    requires all_ys { length ys.now ≡ 256 }
    ensures { OnOk result
        (string_bytes text.new ≡ string_bytes text.old
        ++ printed (material_lines problem.now (node_of node.now) (entry ys.now))) }
{
    problem.is_valid();
    for j in sets.rows {
        let lower = lower_at(problem, node, sets.needed, j);
        push_material(text, problem, j, lower, ys[j as usize])?;
    }
    Ok(())
}

// ---- units

/// Whether a unit uses its least size, if what is left is not below 0.
fn uses_least(low: i128, left: i128) -> bool
    ensures { result ≡ int_lt (pos 0) left && not (int_eq low (pos 0)) }
{
    left > 0 && low != 0
}

fn push_unit(
    text: &mut String,
    problem: &Problem,
    u: u32,
    low: i128,
    left: i128,
) -> Result<(), AllocError>
    requires known { u < length problem.now.units }
    requires low_in_range { InRange low }
    ensures { OnOk result
        (string_bytes text.new ≡ string_bytes text.old
        ++ printed (unit_here problem.now u low left)) }
{
    let name = problem.unit_name(u);
    if left < 0 {
        let upper = i128::from(unit_of(problem, u).upper);
        push_bound(text, name, ": size at most ", upper)
    } else if uses_least(low, left) {
        push_bound(text, name, ": size at least ", low)
    } else {
        Ok(())
    }
}

/// Appends the lines of the units. The multiplier of each material is at its number.
fn push_units(
    text: &mut String,
    site: &Site<'_>,
    node: &Node,
    set: UnitSet,
    ys: &[i128],
) -> Result<(), AllocError>
    requires units { set ≡ relaxed.units (net_of site.now) (node_of node.now) }
    requires all_ys { length ys.now ≡ 256 }
    requires in_range { (i : ℕ) → has set i ≡ true
        → AreInRange
        (reduced_steps (entry ys.now) (λ j. rate_of site.now j i)
        (rows_at (net_of site.now) (node_of node.now) i) (pos 0)) }
    ensures { OnOk result
        (string_bytes text.new ≡ string_bytes text.old
        ++ printed (unit_lines site.now (node_of node.now) (entry ys.now))) }
{
    let problem = site.problem();
    let graph = site.graph();
    problem.is_valid();
    let mut rates = [0; 256];
    for u in set {
        let materials = put_rates(&mut rates, problem, graph, u);
        materials.rises();
        let unit = unit_numbers(problem, node, u, materials, &rates);
        let left = left_after(materials, &rates, ys);
        push_unit(text, problem, u, unit.low, left)?;
    }
    Ok(())
}

// ---- both

/// Appends the lines of the bounds that the multipliers use, one for each row of the node.
pub(crate) fn push_bounds(
    text: &mut String,
    site: &Site<'_>,
    node: &Node,
    ys: &[i128],
) -> Result<(), AllocError>
    requires known { KnowsInside (shape_of site.now) (node_of node.now) }
    requires refuted { IsRefuted site.now (node_of node.now) ys.now }
    ensures { OnOk result
        (string_bytes text.new ≡ string_bytes text.old
        ++ printed
        (material_lines site.now (node_of node.now)
        (multiplier site.now (node_of node.now) ys.now)
        ++ unit_lines site.now (node_of node.now)
        (multiplier site.now (node_of node.now) ys.now))) }
{
    let sets = sets_of(site.graph(), node);
    let y_at = by_material(sets.rows, ys);
    push_materials(text, site.problem(), node, &sets, &y_at)?;
    push_units(text, site, node, sets.units, &y_at)?;
    Ok(())
}
