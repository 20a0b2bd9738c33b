//! What the flows of a network cost in a problem.
ghost use Rattle.std.specs.Prelude.{◌≡◌, ◌<◌, ℕ, true, IfOk, IfErr, OnOk};
ghost use Rattle.stability_laws.specs.number_sets.Sets.{has};
ghost use Rattle.stability_laws.specs.integer_laws.Range.{InRange};
ghost use Rattle.stability_laws.specs.pns_rules.Shape.{shape_of};
ghost use Rattle.solver.specs.pgraph.Tables.{shape};
ghost use Rattle.stability_laws.specs.flow_rules.Net.{net_of};
ghost use Rattle.stability_laws.specs.flow_rules.Flows.{cost};
ghost use Rattle.stability_laws.specs.flow_rules.Steps.{AreInRange, IsFirstPast};
ghost use Rattle.stability_laws.specs.flow_rules.CostSteps.{cost_steps};
ghost use Rattle.stability_laws.specs.tree_rules.Claim.{size_in};

use solver::{Graph, Network, PastSum, Problem, cost_of};
use stability_laws::sums_are_last;
use std::alloc::{AllocError, Global};

/// What the network's flows cost in the problem, over its `d`; or the first step of this cost that
/// overflows.
pub(crate) fn cost_in(problem: &Problem, graph: &Graph, network: &Network) -> Result<i128, PastSum>
    requires graph { shape graph.now ≡ shape_of problem.now }
    requires known { (u : ℕ) → has network.now.units u ≡ true → u < (shape graph.now).units }
    ensures value { IfOk result
        (λ total. total ≡ cost (net_of problem.now) (has network.now.units) (size_in network.now)
        network.now.d) }
    ensures steps { OnOk result
        (AreInRange
        (cost_steps (net_of problem.now) (has network.now.units) (size_in network.now)
        network.now.d)) }
    ensures in_range { IfOk result InRange }
    ensures past { IfErr result
        (λ e. IsFirstPast
        (cost_steps (net_of problem.now) (has network.now.units) (size_in network.now)
        network.now.d) e.at) }
{
    sums_are_last();
    network.is_sized();
    cost_of(
        problem,
        graph,
        network.units(),
        network.sizes(),
        network.d(),
    )
}

/// The flows of the network at another cost.
pub(crate) fn at_cost(alloc: Global, network: &Network, cost: i128) -> Result<Network, AllocError>
    requires { InRange cost }
    ensures { IfOk result (λ w. w ≡ record network.now { cost = cost }) }
{
    network.is_sized();
    let sizes = network.sizes().to_vec(alloc)?;
    Ok(Network::of(network.units(), sizes, network.d(), cost))
}
