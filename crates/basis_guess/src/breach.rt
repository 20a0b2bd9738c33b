//! Sets of units that are broken: each structure has one of them, but the program has less.
use crate::program::{Owed, is_in};
use crate::tableau::{Tableau, Variable};
use charges::{Cover, Graph, Node, UnitSet, covers_node};
use std::alloc::{AllocError, Global};

/// How much of each unit is built in the program.
#[derive(Drop)]
pub(crate) struct Built {
    parts: Vec<f64>,
}

// A set is broken if this much is missing.
const MISSING: f64 = 0.00001;

impl Built {
    pub(crate) fn of(
        alloc: Global,
        tableau: &Tableau,
        shares: &[f64],
    ) -> Result<Built, AllocError> {
        let mut parts = Vec::new(alloc);
        for (unit, share) in shares.iter().enumerate() {
            let size = tableau.value_of(Variable::Size(unit));
            let built = tableau.value_of(Variable::Built(unit));
            parts.push(size * *share + built)?;
        }
        Ok(Built { parts })
    }

    pub(crate) fn by(&self, unit: usize) -> f64 {
        match self.parts.get(unit) {
            Some(part) => *part,
            None => 0.0,
        }
    }

    fn sum(&self, set: UnitSet) -> f64 {
        let mut sum = 0.0;
        for unit in set {
            sum = sum + self.by(unit as usize);
        }
        sum
    }
}

/// Whether each unit of the set is free and owes something.
fn all_owe(node: &Node, owed: &Owed, set: UnitSet) -> bool {
    for unit in set {
        if is_in(node.inside, unit as usize) || !(owed.by(unit as usize) > 0.0) {
            return false;
        }
    }
    !set.is_empty()
}

/// Whether the list has the set already.
fn has(list: &[Cover], cover: &Cover) -> bool {
    for other in list {
        if other.units.bits() == cover.units.bits() && other.beside == cover.beside {
            return true;
        }
    }
    false
}

/// Where sets are looked for.
#[derive(Clone, Copy)]
pub(crate) struct Place<'a> {
    pub(crate) graph: &'a Graph,
    pub(crate) node: &'a Node,
    pub(crate) owed: &'a Owed,
    pub(crate) built: &'a Built,
}

/// Whether each structure of the node has a unit of the set.
fn covers(place: Place<'_>, cover: &Cover) -> bool {
    if let Some(unit) = cover.beside {
        if unit >= 128 {
            return false;
        }
    }
    covers_node(place.graph, place.node, cover)
}

/// Adds the set to the list if it is broken, new, and one that each structure meets.
fn try_set(
    place: Place<'_>,
    units: UnitSet,
    beside: Option<u32>,
    list: &mut Vec<Cover>,
) -> Result<(), AllocError> {
    let wanted = match beside {
        Some(unit) => place.built.by(unit as usize),
        None => 1.0,
    };
    let cover = Cover {
        weight: 0,
        beside,
        units,
    };
    if place.built.sum(units) + MISSING < wanted
        && all_owe(place.node, place.owed, units)
        && !has(list, &cover)
        && covers(place, &cover)
    {
        list.push(cover)?;
    }
    Ok(())
}

/// The units that make a material; none if the plant does not have it.
pub(crate) fn makers_of(graph: &Graph, material: u32) -> UnitSet {
    if material < graph.material_count() {
        graph.producers(material)
    } else {
        UnitSet::empty()
    }
}

/// The units that use a material; none if the plant does not have it.
pub(crate) fn users_of(graph: &Graph, material: u32) -> UnitSet {
    if material < graph.material_count() {
        graph.consumers(material)
    } else {
        UnitSet::empty()
    }
}

/// Adds the broken sets that the materials of the plant give.
pub(crate) fn add_broken(place: Place<'_>, list: &mut Vec<Cover>) -> Result<(), AllocError> {
    let graph = place.graph;
    graph.is_proper();
    let node = place.node;
    for material in 0..graph.material_count() {
        if !graph.raws().has(material) {
            let makers = graph.producers(material).minus(node.outside);
            if makers.meet(node.inside).is_empty() {
                try_set(place, makers, None, list)?;
            }
        }
    }
    for unit in 0..graph.unit_count() {
        if node.outside.has(unit)
            || node.inside.has(unit)
            || !(place.built.by(unit as usize) > MISSING)
        {
            continue;
        }
        for material in graph.inputs(unit).minus(graph.raws()) {
            let makers = makers_of(graph, material).minus(node.outside).without(unit);
            if makers.meet(node.inside).is_empty() {
                try_set(place, makers, Some(unit), list)?;
            }
        }
        let mut users = UnitSet::empty();
        for material in graph.outputs(unit) {
            users = users.union(users_of(graph, material));
        }
        let users = users.minus(node.outside).without(unit);
        if users.meet(node.inside).is_empty() {
            try_set(place, users, Some(unit), list)?;
        }
    }
    Ok(())
}
