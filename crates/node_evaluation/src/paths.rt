//! Units in use that lead to no product, and the units that would lead on from them. It guides a
//! search, and nothing is promised of it.
ghost use Rattle.std.specs.Prelude.{◌≡◌};
ghost use Rattle.structure_list.specs.pns_rules.Shape.{shape_of};
ghost use Rattle.structure_list.specs.pgraph.Tables.{shape};

use structure_list::{Graph, MatSet, Node, OperatingUnit, Problem, UnitSet, maximal};

/// Whether a unit may be idle at no cost.
fn can_stand_still(unit: &OperatingUnit) -> bool {
    unit.lower < 1 && unit.fix < 1 && unit.investment_fix < 1
}

/// The units that are not left out and may be idle at no cost.
fn standing_still(problem: &Problem, graph: &Graph, node: &Node) -> UnitSet
    requires { shape graph.now ≡ shape_of problem.now }
{
    graph.is_proper();
    let units = problem.units();
    let mut still = UnitSet::empty();
    for u in 0..graph.unit_count() {
        if !node.outside.has(u) && can_stand_still(&units[u as usize]) {
            still = still.with(u);
        }
    }
    still
}

/// The materials that units of the set make, raw ones left out.
fn made_by(graph: &Graph, set: UnitSet) -> MatSet {
    graph.is_proper();
    let mut made = MatSet::empty();
    for u in 0..graph.unit_count() {
        if set.has(u) {
            made = made.union(graph.outputs(u));
        }
    }
    made.minus(graph.raws())
}

/// The set with the free units that use what it makes.
fn with_users(graph: &Graph, free: UnitSet, set: UnitSet) -> UnitSet {
    graph.is_proper();
    let made = made_by(graph, set);
    let mut more = set;
    for u in 0..graph.unit_count() {
        if free.has(u) && !graph.inputs(u).meet(made).is_empty() {
            more = more.with(u);
        }
    }
    more
}

/// The set with the free units that use, along chains, what it makes.
fn led_on(graph: &Graph, free: UnitSet, set: UnitSet) -> UnitSet {
    let mut reached = set;
    for _turn in 0..graph.unit_count() {
        let more = with_users(graph, free, reached);
        if more.within(reached) {
            return reached;
        }
        reached = more;
    }
    reached
}

/// The free units that lead on from stuck units. A unit in use is stuck if it is in no structure
/// whose units are all in use or may be idle at no cost. Before a unit that leads on goes in, what
/// stuck units earn counts, and no path to a product is paid for. There are none if there is no
/// such structure at all.
pub(crate) fn leading(problem: &Problem, graph: &Graph, node: &Node, used: UnitSet) -> UnitSet
    requires { shape graph.now ≡ shape_of problem.now }
{
    graph.is_proper();
    let all = UnitSet::below(graph.unit_count());
    let in_use = used.minus(node.outside).union(node.inside);
    let still = standing_still(problem, graph, node);
    let Some(structure) = maximal(graph, all.minus(in_use.union(still))) else {
        return UnitSet::empty();
    };
    let stuck = in_use.minus(structure);
    if stuck.is_empty() {
        return stuck;
    }
    let free = all.minus(node.inside).minus(node.outside);
    led_on(graph, free, stuck).minus(stuck)
}
