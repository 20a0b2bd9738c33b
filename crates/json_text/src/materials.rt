//! The materials of a network.
ghost use Rattle.std.specs.Prelude.{◌≡◌, ◌<◌, ◌++◌, ℕ, true, IfOk, OnOk, map, length, codes};
ghost use Rattle.report_rules.specs.number_sets.Sets.{has};
ghost use Rattle.tree_reading.specs.pns_problem.Printing.{printed};
ghost use Rattle.report_rules.specs.problem_rules.Problem.{material_at};
ghost use Rattle.report_rules.specs.text_rules.Canonical.{kind_word};
ghost use Rattle.report_rules.specs.flow_rules.Net.{net_of, materials_of};
ghost use Rattle.report_rules.specs.tree_rules.Claim.{IsFeasible};
ghost use Rattle.report_rules.specs.Facts as facts;

use crate::members::{limit_member, number_member, text_member};
use crate::{Json, push_array};
use report_rules::UnitAmount;
use report_tables::{
    Marginals, cost, kind_word, material_limit, material_of, materials_in, net, price, unit_sum,
};
use std::alloc::{AllocError, Global};
use tree_reading::{Network, Problem, Site};

fn kind_member(alloc: Global, problem: &Problem, j: u32) -> Result<Json, AllocError>
    requires { j < length problem.now.materials }
    ensures { IfOk result
        (λ json. json ≡ facts.text_member (codes "kind")
        (kind_word (material_at problem.now j).kind)) }
{
    text_member(alloc, "kind", kind_word(material_of(problem, j).kind))
}

fn material_json(
    alloc: Global,
    problem: &Problem,
    network: &Network,
    marginals: &Marginals,
    j: u32,
) -> Result<Json, AllocError>
    requires feasible { IsFeasible problem.now network.now }
    requires material { has (materials_of (net_of problem.now) (has network.now.units)) j ≡ true }
    requires known { j < length problem.now.materials }
    ensures { IfOk result
        (λ json. json ≡ facts.material_json problem.now network.now marginals.now j) }
{
    let name = text_member(alloc, "name", problem.material_name(j))?;
    let kind = kind_member(alloc, problem, j)?;
    let amount = unit_sum(UnitAmount::Made(j), problem, network);
    let made = number_member(alloc, "made", &amount)?;
    let amount = unit_sum(UnitAmount::Used(j), problem, network);
    let used = number_member(alloc, "used", &amount)?;
    let left = number_member(alloc, "net", &net(problem, network, j))?;
    let limit = limit_member(alloc, material_limit(problem, network, j))?;
    let money = number_member(alloc, "price", &price(problem, j))?;
    let paid = number_member(alloc, "cost", &cost(problem, network, j))?;
    let more = number_member(alloc, "marginal", &marginals.of_material(problem, j))?;
    let members = [name, kind, made, used, left, limit, money, paid, more];
    let json = Json::object(alloc, &members)?;
    Ok(json)
}

fn material_values(
    alloc: Global,
    site: &Site<'_>,
    network: &Network,
    marginals: &Marginals,
) -> Result<Vec<Json>, AllocError>
    requires feasible { IsFeasible site.now network.now }
    ensures { IfOk result
        (λ values. values.items
        ≡ map (facts.material_json site.now network.now marginals.now)
        (materials_of (net_of site.now) (has network.now.units))) }
{
    let mut values = Vec::new(alloc);
    for j in materials_in(site, network) {
        values.push(material_json(alloc, site.problem(), network, marginals, j)?)?;
    }
    Ok(values)
}

/// Appends the lines of the materials.
pub(crate) fn push_materials(
    alloc: Global,
    text: &mut Vec<u8>,
    site: &Site<'_>,
    network: &Network,
    marginals: &Marginals,
) -> Result<(), AllocError>
    requires feasible { IsFeasible site.now network.now }
    ensures { OnOk result
        (text.new.items ≡ text.old.items
        ++ printed (facts.material_lines site.now network.now marginals.now)) }
{
    let values = material_values(alloc, site, network, marginals)?;
    push_array(text, "materials", &values)
}
