//! Rows for what can be used of a material: what a maker makes beyond that is worth nothing.
use crate::breach::Place;
use crate::program::{float_of, is_in, share_of};
use crate::tableau::{Ends, Tableau, Variable, magnitude};
use crate::{Numbers, Standing};
use charges::Graph;
use std::alloc::{AllocError, Global};
use std::num::nearest_i64_to_f64;

/// A row for a material: its number, and that of the material's own row.
#[derive(Clone, Copy)]
pub(crate) struct Knee {
    pub(crate) row: usize,
    pub(crate) own: usize,
}

/// A sum that is to be at least `low`, what it is, and how much more it can be at most.
#[derive(Drop)]
struct Sum {
    terms: Vec<(Variable, f64)>,
    low: f64,
    value: f64,
    most: f64,
}

const MILLION: f64 = 1000000.0;

// A row is broken if this much is missing, over its measure.
const MISSING: f64 = 0.00001;

impl Sum {
    /// Adds a term of a variable.
    fn add(
        &mut self,
        tableau: &Tableau,
        variable: Variable,
        factor: f64,
    ) -> Result<(), AllocError> {
        self.value = self.value + factor * tableau.value_of(variable);
        self.terms.push((variable, factor))?;
        Ok(())
    }

    /// Whether much is missing.
    fn is_broken(&self) -> bool {
        self.value + MISSING * magnitude(self.low).max(1.0) < self.low
    }
}

/// At what rate the unit makes the material; below 0 if it uses it, and 0 without it.
fn rate_of(numbers: &Numbers, unit: usize, material: usize) -> f64 {
    for rate in numbers.rates(unit) {
        if rate.material == material {
            return nearest_i64_to_f64(rate.rate) / MILLION;
        }
    }
    0.0
}

/// A material of which so much has to be left over at a node.
#[derive(Clone, Copy)]
struct Need<'a> {
    numbers: &'a Numbers,
    place: Place<'a>,
    material: usize,
    low: f64,
}

impl<'a> Need<'a> {
    /// At what rate a unit that is not left out makes the material; below 0 if it uses it.
    fn rate(self, unit: usize) -> f64 {
        if is_in(self.place.node.outside, unit) {
            0.0
        } else {
            rate_of(self.numbers, unit, self.material)
        }
    }

    /// The most that can be used of it.
    fn useful(self) -> f64 {
        let mut useful = self.low;
        for unit in 0..self.place.owed.count() {
            let rate = self.rate(unit);
            if rate < 0.0 {
                useful = useful - self.moved(unit, rate);
            }
        }
        useful
    }

    /// How much of it a unit of the greatest size makes, below 0 if it uses it.
    fn moved(self, unit: usize, rate: f64) -> f64 {
        let high = self.numbers.size_ends(self.place.node, unit).high;
        rate * float_of(high) / MILLION
    }

    /// What the makers make, each no more than what can be used of it and, if it is free, than this
    /// for the part of it that is built; less what is used.
    fn sum(self, alloc: Global, tableau: &Tableau) -> Result<Sum, AllocError> {
        let mut sum = Sum {
            terms: Vec::new(alloc),
            low: self.low,
            value: 0.0,
            most: 1.0,
        };
        let useful = self.useful();
        for unit in 0..self.place.owed.count() {
            let rate = self.rate(unit);
            if rate == 0.0 {
                continue;
            }
            if rate > 0.0 {
                sum.most = sum.most + self.moved(unit, rate) + useful + useful;
            }
            let size = Variable::Size(unit);
            let made = rate * tableau.value_of(size);
            let inside = is_in(self.place.node.inside, unit);
            if inside && made > useful {
                sum.low = sum.low - useful;
            } else if !inside && self.is_beyond(unit, made, useful) {
                let share = share_of(self.numbers, self.place.node, unit);
                sum.add(tableau, size, useful * share)?;
                sum.add(tableau, Variable::Built(unit), useful)?;
            } else {
                sum.add(tableau, size, rate)?;
            }
        }
        Ok(sum)
    }

    /// Whether a free unit that owes something makes more than what can be used for its part.
    fn is_beyond(self, unit: usize, made: f64, useful: f64) -> bool {
        self.place.owed.by(unit) > 0.0 && made > useful * self.place.built.by(unit)
    }
}

/// Whether the material is raw.
fn is_raw(graph: &Graph, material: usize) -> bool {
    material < 256 && graph.raws().has(material as u32)
}

/// Adds a row for each material of which such a sum is broken. A charge has one multiplier for a
/// material, so there is none if what the material's own row holds down is left over.
pub(crate) fn add_knees(
    alloc: Global,
    tableau: &mut Tableau,
    numbers: &Numbers,
    standings: &[Standing],
    place: Place<'_>,
) -> Result<Vec<Knee>, AllocError> {
    let mut knees = Vec::new(alloc);
    let mut own = 0usize;
    for (material, standing) in standings.iter().enumerate() {
        if *standing == Standing::Apart {
            continue;
        }
        if !is_raw(place.graph, material) && !(tableau.cost_of(Variable::Sum(own)) < 0.0) {
            let ends = numbers.balance_ends(material, *standing);
            let need = Need {
                numbers,
                place,
                material,
                low: float_of(ends.low) / (MILLION * MILLION),
            };
            let sum = need.sum(alloc, tableau)?;
            if sum.is_broken() {
                let row = tableau.rows.len();
                tableau.add_row(
                    alloc,
                    &sum.terms,
                    Ends {
                        low: sum.low,
                        high: sum.low + sum.most,
                    },
                )?;
                knees.push(Knee { row, own })?;
            }
        }
        own = own.saturating_add(1);
    }
    Ok(knees)
}
