//! A trial structure at a node: a solution structure that has the units that run at the node's last
//! flows.
ghost use Rattle.std.specs.Prelude.{◌≡◌, ◌<◌, ℕ, true, IsTrue, IfSome};
ghost use Rattle.dual_simplex.specs.number_sets.Sets.{has, IsWithin, Avoids};
ghost use Rattle.dual_simplex.specs.pns_rules.Shape.{shape_of};
ghost use Rattle.dual_simplex.specs.pns_rules.Structure.{IsStructure, IsBetween, InFamily};
ghost use Rattle.dual_simplex.specs.pns_rules.Ends.{IsSound};
ghost use Rattle.dual_simplex.specs.pgraph.Tables.{shape};
ghost use Rattle.dual_simplex.specs.pgraph.View.{node_of};

use dual_simplex::{Graph, Node, OperatingUnit, Site, UnitSet, Verdict};
use node_evaluation::maximal;

/// The free units that run, and those that owe a part of their fixed cost at their sizes, whether
/// they run or not.
#[derive(Clone, Copy)]
pub(crate) struct Running {
    pub units: UnitSet,
    pub owing: UnitSet,
}

/// Whether a free unit of this size owes a part of its fixed cost, which it pays by its size.
fn owes(unit: &OperatingUnit, size: i64) -> bool {
    size < unit.upper && (unit.fix > 0 || unit.investment_fix > 0)
}

impl Running {
    /// With one free unit more, of this size.
    fn with(self, u: u32, unit: &OperatingUnit, size: i64) -> Running
        requires { u < 128 }
    {
        let mut running = self;
        if size > 0 {
            running.units = running.units.with(u);
        }
        if owes(unit, size) {
            running.owing = running.owing.with(u);
        }
        running
    }
}

/// The free units that run, if these are the sizes of the units that are not left out, in rising
/// order.
pub(crate) fn running_units(site: &Site<'_>, node: &Node, sizes: &[i64]) -> Running {
    let (problem, graph) = (site.problem(), site.graph());
    let units = problem.units();
    let mut running = Running {
        units: UnitSet::empty(),
        owing: UnitSet::empty(),
    };
    let mut rest = sizes.iter();
    for u in 0..graph.unit_count() {
        if !node.outside.has(u) {
            let size = rest.next().copied().unwrap_or(0);
            if !node.inside.has(u) {
                running = running.with(u, &units[u as usize], size);
            }
        }
    }
    running
}

/// The units that are taken in at the node, and those that run.
fn units_in_use(graph: &Graph, node: &Node, running: UnitSet) -> UnitSet
    requires { IsSound (shape graph.now) (node_of node.now) }
    ensures known { (u : ℕ) → has result u ≡ true → u < (shape graph.now).units }
    ensures inside { IsWithin (has node.now.inside) (has result) }
    ensures outside { Avoids (has result) (has node.now.outside) }
{
    graph.is_proper();
    let free = UnitSet::below(graph.unit_count()).minus(node.outside);
    running.meet(free).union(node.inside)
}

/// The greatest solution structure without the units that are left out, if it has all that are in
/// use.
fn greatest_with(graph: &Graph, in_use: UnitSet, left_out: UnitSet) -> Option<UnitSet>
    ensures { IfSome result (λ s. IsBetween (shape graph.now) (has in_use) (has left_out) (has s)) }
{
    let set = maximal(graph, left_out)?;
    if in_use.within(set) { Some(set) } else { None }
}

/// A solution structure that has the units in use and, of the others that are not left out, none
/// that it can do without.
fn least_with(graph: &Graph, in_use: UnitSet, left_out: UnitSet) -> Option<UnitSet>
    ensures { IfSome result (λ s. IsBetween (shape graph.now) (has in_use) (has left_out) (has s)) }
{
    let mut gone = left_out;
    let mut set = greatest_with(graph, in_use, gone)?;
    for u in set.minus(in_use) {
        let more = gone.with(u);
        if let Some(rest) = greatest_with(graph, in_use, more) {
            gone = more;
            set = rest;
        }
    }
    Some(set)
}

/// Whether the units are a solution structure.
fn is_structure(graph: &Graph, set: UnitSet) -> bool
    requires { (u : ℕ) → has set u ≡ true → u < (shape graph.now).units }
    ensures { IsTrue result → IsStructure (shape graph.now) (has set) }
{
    match graph.judge(set) {
        Verdict::Meets => true,
        Verdict::Breaks { .. } => false,
    }
}

/// A solution structure that has the units in use: these, if they are one, else with as few more as
/// it takes. It has no unit that is spared or left out.
fn structure_of(graph: &Graph, node: &Node, in_use: UnitSet, spared: UnitSet) -> Option<UnitSet>
    requires known { (u : ℕ) → has in_use u ≡ true → u < (shape graph.now).units }
    requires inside { IsWithin (has node.now.inside) (has in_use) }
    requires outside { Avoids (has in_use) (has node.now.outside) }
    ensures { IfSome result
        (λ s. IsBetween (shape graph.now) (has node.now.inside) (has node.now.outside) (has s)) }
{
    if is_structure(graph, in_use) {
        return Some(in_use);
    }
    least_with(graph, in_use, spared.union(node.outside))
}

/// A clash-free structure of the node's family that has the free units that run, and as few more as
/// it takes. None of these is spared.
pub(crate) fn structure_with(
    graph: &Graph,
    node: &Node,
    running: UnitSet,
    spared: UnitSet,
) -> Option<UnitSet>
    requires { IsSound (shape graph.now) (node_of node.now) }
    ensures { IfSome result
        (λ s. InFamily (shape graph.now) (has node.now.inside) (has node.now.outside) (has s)) }
{
    let in_use = units_in_use(graph, node, running);
    let set = structure_of(graph, node, in_use, spared)?;
    match graph.clash(set) {
        None => Some(set),
        Some(_) => None,
    }
}
