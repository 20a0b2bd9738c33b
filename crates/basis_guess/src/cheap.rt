//! A cheap network: least flows at slopes that follow the sizes, and then exchanges of units.
use crate::breach::{makers_of, users_of};
use crate::propose::ChargeGuess;
use crate::tableau::{Outcome, Tableau, Variable, magnitude};
use charges::{Graph, Node, UnitSet, maximal};
use std::alloc::{AllocError, Global};

/// A structure, its units that run, and what its flows cost in money.
#[derive(Clone, Copy)]
struct Priced {
    units: UnitSet,
    running: UnitSet,
    cost: f64,
}

/// Where a network is looked for.
#[derive(Clone, Copy)]
struct Spot<'a> {
    graph: &'a Graph,
    node: &'a Node,
}

// So often slopes follow the sizes, and so many exchanges are made at most.
const MOST_SLOPES: u32 = 30;

const MOST_EXCHANGES: u32 = 60;

// A unit that is larger than this runs.
const RUNS: f64 = 0.000001;

// A cost is less if it is so much less, over its measure.
const LESS: f64 = 0.0000001;

// No cost is as much as this.
const NO_END: f64 = 1000000000000000000000000000000.0;

impl<'a> Spot<'a> {
    /// The units that the plant has and the node does not leave out.
    fn left(self) -> UnitSet {
        self.graph.is_proper();
        UnitSet::below(self.graph.unit_count()).minus(self.node.outside)
    }

    /// Whether the node leaves it open if the unit is taken in.
    fn is_open(self, unit: u32) -> bool {
        unit < 128 && !self.node.inside.has(unit) && !self.node.outside.has(unit)
    }

    /// The greatest structure within the set that has all that the node takes in.
    fn within(self, set: UnitSet) -> Option<UnitSet> {
        self.graph.is_proper();
        let all = UnitSet::below(self.graph.unit_count());
        let units = maximal(self.graph, all.minus(set).union(self.node.outside))?;
        if self.node.inside.within(units) && self.graph.clash(units).is_none() {
            Some(units)
        } else {
            None
        }
    }

    /// The greatest structure that has the units of one set and none of the other.
    fn between(self, in_use: UnitSet, left_out: UnitSet) -> Option<UnitSet> {
        let units = maximal(self.graph, left_out)?;
        if in_use.within(units) {
            Some(units)
        } else {
            None
        }
    }

    /// A structure that has the units in use and as few more as it takes.
    fn with_few_more(self, in_use: UnitSet) -> Option<UnitSet> {
        let mut gone = self.node.outside;
        let mut set = self.between(in_use, gone)?;
        for unit in set.minus(in_use) {
            if unit >= 128 {
                continue;
            }
            let more = gone.with(unit);
            if let Some(rest) = self.between(in_use, more) {
                gone = more;
                set = rest;
            }
        }
        Some(set)
    }

    /// The units that run, with those that the node takes in.
    fn running(self, tableau: &Tableau) -> UnitSet {
        let mut running = self.node.inside;
        for unit in self.left() {
            if unit < 128 && tableau.value_of(Variable::Size(unit as usize)) > RUNS {
                running = running.with(unit);
            }
        }
        running
    }

    /// The units that make or use what this one makes or uses, on the same side.
    fn beside(self, unit: u32) -> UnitSet {
        let mut set = UnitSet::empty();
        if unit < self.graph.unit_count() {
            for material in self.graph.outputs(unit) {
                set = set.union(makers_of(self.graph, material));
            }
            for material in self.graph.inputs(unit) {
                set = set.union(users_of(self.graph, material));
            }
        }
        set
    }
}

/// Whether the first cost is less.
fn is_less(cost: f64, than: f64) -> bool {
    cost + LESS * magnitude(than).max(1.0) < than
}

/// The cheaper one, the old one if they cost the same.
fn cheaper(old: Option<Priced>, found: Option<Priced>) -> Option<Priced> {
    match (old, found) {
        (Some(best), Some(new)) => {
            if is_less(new.cost, best.cost) {
                Some(new)
            } else {
                Some(best)
            }
        }
        (Some(best), None) => Some(best),
        (None, found) => found,
    }
}

/// The units of a structure, if there is one.
fn units_of(found: Option<Priced>) -> Option<UnitSet> {
    match found {
        Some(priced) => Some(priced.units),
        None => None,
    }
}

impl ChargeGuess {
    /// What the greatest structure within the set costs, if a program may be solved for it.
    fn priced(
        &mut self,
        alloc: Global,
        spot: Spot<'_>,
        set: UnitSet,
    ) -> Result<Option<Priced>, AllocError> {
        let Some(units) = spot.within(set) else {
            return Ok(None);
        };
        if !self.may_solve() {
            return Ok(None);
        }
        spot.graph.is_proper();
        let node = Node {
            inside: units,
            outside: UnitSet::below(spot.graph.unit_count()).minus(units),
        };
        let (mut tableau, _rows) = self.program(alloc, &node)?;
        if tableau.search(NO_END) != Outcome::Least {
            return Ok(None);
        }
        let running = spot.running(&tableau).meet(units);
        let cost = tableau.cost();
        Ok(Some(Priced {
            units,
            running,
            cost,
        }))
    }

    /// The same, or what is left of it without idle units, if that is cheaper.
    fn trimmed(
        &mut self,
        alloc: Global,
        spot: Spot<'_>,
        set: UnitSet,
    ) -> Result<Option<Priced>, AllocError> {
        let Some(priced) = self.priced(alloc, spot, set)? else {
            return Ok(None);
        };
        if priced.units.within(priced.running) {
            return Ok(Some(priced));
        }
        let rest = self.priced(alloc, spot, priced.running)?;
        Ok(cheaper(Some(priced), rest))
    }

    /// Lets the slopes of the units that run follow their sizes.
    fn follow(&self, spot: Spot<'_>, tableau: &Tableau, running: UnitSet, more: &mut [f64]) {
        for unit in running {
            if spot.is_open(unit) {
                let size = tableau.value_of(Variable::Size(unit as usize));
                if let Some(amount) = more.get_mut(unit as usize) {
                    if size > RUNS {
                        let slope = self.owed_by(unit as usize) / size;
                        *amount = slope - self.slope_of(spot.node, unit as usize);
                    }
                }
            }
        }
    }

    /// The cheapest structure that is met while slopes follow the sizes.
    fn by_slopes(&mut self, alloc: Global, spot: Spot<'_>) -> Result<Option<Priced>, AllocError> {
        let mut more = vec![in alloc; 0.0f64; spot.graph.unit_count() as usize]?;
        let mut best = None;
        let mut last = UnitSet::empty();
        for _ in 0..MOST_SLOPES {
            let (mut tableau, _rows) = self.program(alloc, spot.node)?;
            tableau.raise_costs(&more);
            if tableau.search(NO_END) != Outcome::Least {
                return Ok(best);
            }
            let running = spot.running(&tableau);
            if running == last {
                return Ok(best);
            }
            last = running;
            self.follow(spot, &tableau, running, &mut more);
            let set = match spot.within(running) {
                Some(set) => Some(set),
                None => spot.with_few_more(running),
            };
            if let Some(set) = set {
                let found = self.trimmed(alloc, spot, set)?;
                best = cheaper(best, found);
            }
        }
        Ok(best)
    }

    /// The cheapest of a structure and those that one exchange makes of it: a unit goes in or out,
    /// or one takes the place of another.
    fn exchanged(
        &mut self,
        alloc: Global,
        spot: Spot<'_>,
        from: Priced,
    ) -> Result<Priced, AllocError> {
        let mut best = from;
        for unit in spot.left().minus(spot.node.inside) {
            if unit >= 128 {
                continue;
            }
            if !from.units.has(unit) {
                best = self.better(alloc, spot, from.units.with(unit), best)?;
                continue;
            }
            let rest = from.units.without(unit);
            best = self.better(alloc, spot, rest, best)?;
            for other in spot.beside(unit).meet(spot.left()).minus(from.units) {
                if other < 128 {
                    best = self.better(alloc, spot, rest.with(other), best)?;
                }
            }
        }
        Ok(best)
    }

    /// The cheaper one of a structure and that within a set.
    fn better(
        &mut self,
        alloc: Global,
        spot: Spot<'_>,
        set: UnitSet,
        best: Priced,
    ) -> Result<Priced, AllocError> {
        match self.trimmed(alloc, spot, set)? {
            Some(found) if is_less(found.cost, best.cost) => Ok(found),
            _ => Ok(best),
        }
    }

    /// The structure after exchanges, as long as it gets cheaper.
    fn after_exchanges(
        &mut self,
        alloc: Global,
        spot: Spot<'_>,
        first: Priced,
    ) -> Result<Priced, AllocError> {
        let mut best = first;
        for _ in 0..MOST_EXCHANGES {
            let before = best.cost;
            best = self.exchanged(alloc, spot, best)?;
            let after = best.cost;
            if !is_less(after, before) {
                return Ok(best);
            }
        }
        Ok(best)
    }

    /// The same, if there is one.
    fn improved(
        &mut self,
        alloc: Global,
        spot: Spot<'_>,
        first: Option<Priced>,
    ) -> Result<Option<Priced>, AllocError> {
        match first {
            None => Ok(None),
            Some(priced) => Ok(Some(self.after_exchanges(alloc, spot, priced)?)),
        }
    }

    /// The units of a structure after exchanges of those of the set, as long as it gets cheaper.
    /// `Err` comes only when memory runs out.
    pub fn exchanged_units(
        &mut self,
        alloc: Global,
        graph: &Graph,
        node: &Node,
        known: UnitSet,
    ) -> Result<Option<UnitSet>, AllocError> {
        let spot = Spot { graph, node };
        let first = self.trimmed(alloc, spot, known)?;
        let best = self.improved(alloc, spot, first)?;
        Ok(units_of(best))
    }

    /// The units of a network that is likely to be cheap at the node, if one is found. It begins
    /// with slopes, and with the units of a network that is known. `Err` comes only when memory
    /// runs out.
    pub fn cheap_units(
        &mut self,
        alloc: Global,
        graph: &Graph,
        node: &Node,
        known: UnitSet,
    ) -> Result<Option<UnitSet>, AllocError> {
        let spot = Spot { graph, node };
        let by_slopes = self.by_slopes(alloc, spot)?;
        let first = self.improved(alloc, spot, by_slopes)?;
        let of_known = self.trimmed(alloc, spot, known)?;
        let second = self.improved(alloc, spot, of_known)?;
        Ok(units_of(cheaper(first, second)))
    }
}
