//! Whether a number is at one of its bounds.
ghost use Rattle.std.specs.Prelude.{◌≡◌, ◌<◌, ◌*ℤ◌, ◌&&◌, ◌||◌, not, pos, true, length};
ghost use Rattle.std.specs.Ordering.{int_eq};
ghost use Rattle.report_amounts.specs.integer_laws.Range.{InRange};
ghost use Rattle.report_amounts.specs.number_sets.Sets.{has};
ghost use Rattle.report_amounts.specs.problem_rules.Problem.{is_raw_material};
ghost use Rattle.report_amounts.specs.pns_problem.Kind.{kind_of};
ghost use Rattle.report_amounts.specs.flow_rules.Net.{net_of, materials_of, million};
ghost use Rattle.report_amounts.specs.tree_rules.Claim.{IsFeasible};
ghost use Rattle.report_amounts.specs.report_rules.Report.{bought_or_left, turned_flow};
ghost use Rattle.report_amounts.specs.report_rules.Drawn.{is_limited, is_unit_limited};
ghost use Rattle.report_amounts.specs.report_rules.Drawn.{is_material_limited};

use report_amounts::{
    Kind, Network, Problem, checked_product, flow_at, material_of, size_at, unit_of,
};

/// Whether z over d is the bound. A product that overflows is not z, which is in range.
fn is_at(z: i128, bound: i128, d: i128) -> bool
    requires { InRange z }
    ensures { result ≡ int_eq z (bound *ℤ d) }
{
    match checked_product(bound, d) {
        Some(product) => product == z,
        None => false,
    }
}

/// Whether z over d is at its lower bound, which is not 0.
fn is_least(lower: i128, z: i128, d: i128) -> bool
    requires { InRange z }
    ensures { result ≡ (not (int_eq lower (pos 0)) && int_eq z (lower *ℤ d)) }
{
    if lower == 0 {
        false
    } else {
        is_at(z, lower, d)
    }
}

/// Whether z over d is at its upper bound or at its lower one, which is not 0.
fn is_at_some(lower: i128, upper: i128, z: i128, d: i128) -> bool
    requires { InRange z }
    ensures { result
        ≡ (int_eq z (upper *ℤ d) || (not (int_eq lower (pos 0)) && int_eq z (lower *ℤ d))) }
{
    if is_at(z, upper, d) {
        true
    } else {
        is_least(lower, z, d)
    }
}

/// Whether z over d is at one of its bounds, and is not fixed.
fn is_limited(lower: i128, upper: i128, z: i128, d: i128) -> bool
    requires { InRange z }
    ensures { result ≡ is_limited lower upper z d }
{
    if lower == upper {
        false
    } else {
        is_at_some(lower, upper, z, d)
    }
}

/// Whether the size of the unit is at a limit.
pub(crate) fn is_unit_limited(problem: &Problem, network: &Network, u: u32) -> bool
    requires { u < length problem.now.units }
    ensures { result ≡ is_unit_limited problem.now network.now u }
{
    let unit = unit_of(problem, u);
    is_limited(
        i128::from(unit.lower),
        i128::from(unit.upper),
        size_at(network, u),
        network.d(),
    )
}

fn bought_or_left(kind: Kind, flow: i128) -> i128
    requires { InRange flow }
    ensures value { result ≡ bought_or_left (is_raw_material (kind_of kind)) flow }
    ensures in_range { InRange result }
{
    match kind {
        Kind::RawMaterial => -flow,
        Kind::Intermediate | Kind::Product => flow,
    }
}

/// What is left over of the material, or of a raw material what is bought.
fn turned_flow(problem: &Problem, network: &Network, j: u32) -> i128
    requires feasible { IsFeasible problem.now network.now }
    requires material { has (materials_of (net_of problem.now) (has network.now.units)) j ≡ true }
    requires known { j < length problem.now.materials }
    ensures value { result ≡ turned_flow problem.now network.now j }
    ensures in_range { InRange result }
{
    bought_or_left(material_of(problem, j).kind, flow_at(problem, network, j))
}

fn times_million(bound: i64) -> i128
    ensures { result ≡ million *ℤ bound }
{
    1_000_000 * i128::from(bound)
}

/// Whether what is bought or left over of the material is at a limit.
pub(crate) fn is_material_limited(problem: &Problem, network: &Network, j: u32) -> bool
    requires feasible { IsFeasible problem.now network.now }
    requires material { has (materials_of (net_of problem.now) (has network.now.units)) j ≡ true }
    requires known { j < length problem.now.materials }
    ensures { result ≡ is_material_limited problem.now network.now j }
{
    let material = material_of(problem, j);
    is_limited(
        times_million(material.lower),
        times_million(material.upper),
        turned_flow(problem, network, j),
        network.d(),
    )
}
