//! The marginals of a network.
ghost use Rattle.std.specs.Prelude.{◌≡◌, ◌<◌, ℕ, ℤ, true, length, IfOk};
ghost use Rattle.report_rules.specs.number_sets.Sets.{has};
ghost use Rattle.report_rules.specs.flow_rules.Net.{net_of};
ghost use Rattle.report_rules.specs.flow_rules.Flows.{IsFlows};
ghost use Rattle.report_rules.specs.tree_rules.Claim.{IsFeasible};
ghost use Rattle.report_rules.specs.tree_rules.Claim as claims;
ghost use Rattle.report_rules.specs.tree_rules.LeastFlows.{IsLeastFlows};
ghost use Rattle.report_rules.specs.Marginal.{AreMarginals};
ghost use Rattle.flow_evaluator.specs.Answers.{AnswersFor};

use crate::{Marginals, Multipliers};
use flow_evaluator::{Network, Scaled, Site, StructureFlows, UnitSet, flows_of, node_of, sets_of};
use std::alloc::{AllocError, Global};

/// The marginals by multipliers of least flows of these units.
fn least(site: &Site<'_>, set: UnitSet, bound: Scaled) -> Marginals
    requires known { (u : ℕ) → has set u ≡ true → u < length site.now.units }
    requires least { (v : claims.Network) × (v.units ≡ set)
        × IsLeastFlows site.now v bound.d bound.ys }
    ensures { AreMarginals site.now set result }
{
    let graph = site.graph();
    let node = node_of(site.problem(), set);
    let sets = sets_of(graph, &node);
    let multipliers = Multipliers::of(sets.rows, bound);
    Marginals::of(multipliers)
}

/// The marginals by the answer for the flows of these units, which have some.
fn marginals_by(site: &Site<'_>, set: UnitSet, flows: StructureFlows) -> Marginals
    requires known { (u : ℕ) → has set u ≡ true → u < length site.now.units }
    requires flows { AnswersFor site.now set flows }
    requires some { (z : ℕ → ℤ) × (e : ℤ) × IsFlows (net_of site.now) (has set) z e }
    ensures { AreMarginals site.now set result }
{
    match flows {
        StructureFlows::Least { bound, .. } => least(site, set, bound),
        StructureFlows::Refuted { .. } => Marginals::past(),
        StructureFlows::Past { .. } => Marginals::past(),
    }
}

/// The marginals of a network that passes as a claim.
pub fn marginals_of(
    alloc: Global,
    site: &Site<'_>,
    network: &Network,
) -> Result<Marginals, AllocError>
    requires feasible { IsFeasible site.now network.now }
    ensures { IfOk result (AreMarginals site.now network.now.units) }
{
    let set = network.units();
    let flows = flows_of(alloc, site, set)?;
    Ok(marginals_by(site, set, flows))
}
