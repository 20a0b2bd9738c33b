//! A search at one value: is the network optimal there, or another one cheaper?
ghost use Rattle.std.specs.Prelude.{◌≡◌, ◌≤◌, ◌≤ℤ◌, ◌<ℤ◌, ◌*ℤ◌, ◌↔◌, pos, IsTrue, IfOk, IfErr};
ghost use Rattle.std.specs.Prelude.{Some};
ghost use Rattle.stability_laws.specs.pns_rules.Shape.{shape_of};
ghost use Rattle.solver.specs.neutral_extension.Candidates.{AreMakersOf};
ghost use Rattle.stability_laws.specs.tree_rules.Claim.{IsFeasible};
ghost use Rattle.stability_laws.specs.report_rules.Spot.{value_at, valued, value_on};
ghost use Rattle.stability_laws.specs.report_rules.Spot.{IsAllowedValue};
ghost use Rattle.stability_laws.specs.report_rules.Range.{repriced};
ghost use Rattle.stability.specs.Desk.{IsDesk};
ghost use Rattle.stability.specs.Refusal.{IsProbed, IsSearchStop, IsStopAt};

use crate::case::Case;
use crate::costs::{at_cost, cost_in};
use crate::desk::Desk;
use crate::outcome::RangeFault;
use solver::{CostOver, Found, Network, Problem, Watch, accepted_has_flows, accepted_is_optimal};
use stability_laws::{Side, present_stays, structures_stay};
use std::alloc::AllocError;

/// Whether the network costs less than this much.
fn is_cheaper(much: &CostOver, network: &Network) -> bool
    ensures { IsTrue result
        ↔ ((network.now.cost *ℤ much.now.d) <ℤ (much.now.cost *ℤ network.now.d)) }
{
    network.is_sized();
    !much.is_reached(network.cost(), network.d())
}

impl<'a> Case<'a> {
    /// The network with its cost in the problem with this value in the spot.
    fn network_in(&self, problem: &Problem, value: i64) -> Result<Network, RangeFault>
        requires { problem.now ≡ valued self.now.problem self.now.spot value }
        ensures same { IfOk result
            (λ w. w ≡ repriced self.now.problem self.now.spot self.now.network value) }
        ensures passes { IfOk result
            (λ w. IsFeasible (valued self.now.problem self.now.spot value) w) }
        ensures stopped { IfErr result
            (IsStopAt self.now.problem self.now.spot self.now.network self.now.budget value) }
    {
        structures_stay();
        match cost_in(problem, self.graph, self.network) {
            Err(past) => Err(RangeFault::PastCost { value, at: past.at }),
            Ok(cost) => match at_cost(self.alloc, self.network, cost) {
                Ok(network) => Ok(network),
                Err(_) => Err(RangeFault::Memory),
            },
        }
    }

    /// Searches the problem with this value in the spot for a network that is cheaper than that of
    /// the case.
    fn search<W: Watch>(
        &self,
        desk: &mut Desk<W>,
        value: i64,
        network: Network,
    ) -> Result<Option<Network>, RangeFault>
        requires problem { desk.old.problem ≡ valued self.now.problem self.now.spot value }
        requires own { AreMakersOf (shape_of self.now.problem) desk.old.makers }
        requires network { network
            ≡ repriced self.now.problem self.now.spot self.now.network value }
        requires passes { IsFeasible (valued self.now.problem self.now.spot value) network }
        ensures probed { IfOk result
            (IsProbed self.now.problem self.now.spot self.now.network value) }
        ensures stopped { IfErr result
            (IsSearchStop self.now.problem self.now.spot self.now.budget value) }
        ensures same { desk.new ≡ desk.old }
    {
        structures_stay();
        accepted_is_optimal();
        accepted_has_flows();
        desk.problem().is_valid();
        let much = CostOver {
            cost: network.cost(),
            d: network.d(),
        };
        match desk.search(self.graph, self.budget, network) {
            Found::Solved { network, tree: _ } => {
                network.is_sized();
                if is_cheaper(&much, &network) {
                    Ok(Some(network))
                } else {
                    Ok(None)
                }
            }
            Found::Infeasible { tree: _ } => unreachable!(),
            Found::Spent {
                best,
                tree,
                next,
                options,
            } => Err(RangeFault::Spent {
                value,
                best,
                tree,
                next,
                options,
            }),
            Found::Past {
                best,
                tree,
                node,
                nonbasic,
                place,
            } => Err(RangeFault::Past {
                value,
                best,
                tree,
                node,
                nonbasic,
                place,
            }),
            Found::Memory => Err(RangeFault::Memory),
        }
    }

    fn same_network(&self) -> Result<Network, AllocError>
        ensures { IfOk result (λ w. w ≡ self.now.network) }
    {
        self.network.is_sized();
        at_cost(self.alloc, self.network, self.network.cost())
    }

    /// A network of least cost that is cheaper now, if there is one.
    pub(crate) fn probe_now<W: Watch>(
        &self,
        desk: &mut Desk<W>,
    ) -> Result<Option<Network>, RangeFault>
        requires problem { desk.old.problem ≡ self.now.problem }
        requires desk { IsDesk self.now desk.old }
        ensures probed { IfOk result
            (IsProbed self.now.problem self.now.spot self.now.network
            (value_at self.now.problem self.now.spot)) }
        ensures stopped { IfErr result
            (IsSearchStop self.now.problem self.now.spot self.now.budget
            (value_at self.now.problem self.now.spot)) }
        ensures desk { IsDesk self.now desk.new }
    {
        self.is_known();
        present_stays();
        match self.same_network() {
            Ok(network) => self.search(desk, self.value_now(), network),
            Err(_) => Err(RangeFault::Memory),
        }
    }

    /// A network of least cost that is cheaper with this value in the spot, if there is one.
    pub(crate) fn probe<W: Watch>(
        &self,
        desk: &mut Desk<W>,
        value: i64,
    ) -> Result<Option<Network>, RangeFault>
        requires desk { IsDesk self.now desk.old }
        requires allowed { IsAllowedValue self.now.spot value }
        ensures probed { IfOk result
            (IsProbed self.now.problem self.now.spot self.now.network value) }
        ensures stopped { IfErr result
            (IsStopAt self.now.problem self.now.spot self.now.network self.now.budget value) }
        ensures desk { IsDesk self.now desk.new }
    {
        desk.set(self, value);
        match self.network_in(desk.problem(), value) {
            Ok(network) => self.search(desk, value, network),
            Err(fault) => Err(fault),
        }
    }

    /// The same so far away from the present value.
    pub(crate) fn probe_at<W: Watch>(
        &self,
        desk: &mut Desk<W>,
        side: Side,
        away: u64,
    ) -> Result<Option<Network>, RangeFault>
        requires desk { IsDesk self.now desk.old }
        requires allowed { IsAllowedValue self.now.spot
            (value_on side (value_at self.now.problem self.now.spot) away) }
        ensures probed { IfOk result
            (IsProbed self.now.problem self.now.spot self.now.network
            (value_on side (value_at self.now.problem self.now.spot) away)) }
        ensures stopped { IfErr result
            (IsStopAt self.now.problem self.now.spot self.now.network self.now.budget
            (value_on side (value_at self.now.problem self.now.spot) away)) }
        ensures desk { IsDesk self.now desk.new }
    {
        self.probe(desk, self.value(side, away))
    }
}
