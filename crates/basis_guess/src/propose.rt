//! Whole numbers for the charge of a node.
use crate::breach::{Built, Place, add_broken};
use crate::knees::{Knee, add_knees};
use crate::program::{Owed, float_of, is_in, put_columns, put_rows, share_of};
use crate::tableau::{Ends, Outcome, Tableau, Variable, magnitude};
use crate::{Numbers, Standing};
use charges::{Cover, Node, Site, UnitSet};
use std::alloc::{AllocError, Global};
use std::num::saturating_f64_to_i64;

/// Multipliers over a scale, one for each row of the node, and covers.
#[derive(Drop)]
pub struct Proposal {
    pub d: i128,
    pub ys: Vec<i128>,
    pub covers: Vec<Cover>,
    /// What the charge is near, in money.
    pub near: f64,
}

/// The numbers of a problem, for proposals.
#[derive(Drop)]
pub struct ChargeGuess {
    numbers: Numbers,
    owed: Owed,
    standings: Vec<Standing>,
    // How many programs may still be solved for cheap networks.
    left: u32,
}

// So many programs may be solved for cheap networks, and so many more after each proposal.
const FIRST_PROGRAMS: u32 = 1500;

const MORE_PROGRAMS: u32 = 4;

// The scale of multipliers and weights.
const SCALE: i128 = 1 << 20;

const SCALE_FLOAT: f64 = 1048576.0;

const MILLION: f64 = 1000000.0;

// So often sets are looked for, and so many at most are kept.
const ROUNDS: u32 = 12;

const MOST_SETS: usize = 80;

/// The cost over `d` in money; it is in 10^-18 of the money unit.
pub(crate) fn money_of(cost: i128, d: i128) -> f64 {
    float_of(cost) / float_of(d) / (MILLION * MILLION * MILLION)
}

/// A little more than the money.
pub(crate) fn enough_of(money: f64) -> f64 {
    money + magnitude(money) * 0.000001
}

impl ChargeGuess {
    /// Numbers of the site's problem. `Err` comes only when memory runs out.
    pub fn open(alloc: Global, site: &Site<'_>) -> Result<ChargeGuess, AllocError> {
        let problem = site.problem();
        let ones = vec![in alloc; 1i64; problem.materials().len()]?;
        let numbers = Numbers::of(alloc, problem, &ones, 1, 1)?;
        let owed = Owed::of(alloc, problem)?;
        let standings = vec![in alloc; Standing::Apart; problem.materials().len()]?;
        Ok(ChargeGuess {
            numbers,
            owed,
            standings,
            left: FIRST_PROGRAMS,
        })
    }

    /// Whether one more program may be solved for a cheap network; it is counted.
    pub(crate) fn may_solve(&mut self) -> bool {
        if self.left == 0 {
            return false;
        }
        self.left = self.left.saturating_sub(1);
        true
    }

    /// The program of the node without sets, and how many rows it has.
    pub(crate) fn program(
        &mut self,
        alloc: Global,
        node: &Node,
    ) -> Result<(Tableau, usize), AllocError> {
        let units = self.owed.count();
        self.numbers.stand(node, &mut self.standings);
        let mut tableau = Tableau::open(alloc);
        put_columns(&mut tableau, &self.numbers, &self.owed, node, units)?;
        tableau.make_room(alloc)?;
        put_rows(
            alloc,
            &mut tableau,
            &self.numbers,
            node,
            &self.standings,
            units,
        )?;
        let rows = tableau.rows.len();
        Ok((tableau, rows))
    }

    /// What the fixed cost of a free unit adds for a size of 1 at the program's own slope.
    pub(crate) fn slope_of(&self, node: &Node, unit: usize) -> f64 {
        self.owed.by(unit) * share_of(&self.numbers, node, unit)
    }

    /// What a unit owes if it is built.
    pub(crate) fn owed_by(&self, unit: usize) -> f64 {
        self.owed.by(unit)
    }

    /// A proposal for the charge of the node, so that it reaches the cost over `d`. `Err` comes
    /// only when memory runs out.
    pub fn propose(
        &mut self,
        alloc: Global,
        site: &Site<'_>,
        node: &Node,
        cost: i128,
        d: i128,
    ) -> Result<Option<Proposal>, AllocError> {
        self.left = self.left.saturating_add(MORE_PROGRAMS);
        match self.solved(alloc, site, node, enough_of(money_of(cost, d)))? {
            Some(solved) => Ok(Some(solved.proposal(alloc, &solved.tableau, None)?)),
            None => Ok(None),
        }
    }

    /// The program of the node with the sets and limits that it needs, solved to its least cost or
    /// to one that is enough.
    pub(crate) fn solved(
        &mut self,
        alloc: Global,
        site: &Site<'_>,
        node: &Node,
        enough: f64,
    ) -> Result<Option<Solved>, AllocError> {
        let units = self.owed.count();
        let (mut tableau, rows) = self.program(alloc, node)?;
        let mut shares = Vec::new(alloc);
        for unit in 0..units {
            let free = !is_in(node.inside, unit) && !is_in(node.outside, unit);
            shares.push(if free {
                share_of(&self.numbers, node, unit)
            } else {
                0.0
            })?;
        }
        let mut covers = Vec::new(alloc);
        let mut cover_rows = Vec::new(alloc);
        let mut knees = Vec::new(alloc);
        for _ in 0..ROUNDS {
            match tableau.search(enough) {
                Outcome::Nothing => return Ok(None),
                Outcome::Enough => break,
                Outcome::Least => {}
            }
            let built = Built::of(alloc, &tableau, &shares)?;
            let known = covers.len();
            let place = Place {
                graph: site.graph(),
                node,
                owed: &self.owed,
                built: &built,
            };
            add_broken(place, &mut covers)?;
            let more = add_knees(alloc, &mut tableau, &self.numbers, &self.standings, place)?;
            if covers.len() > MOST_SETS || (covers.len() == known && more.is_empty()) {
                break;
            }
            for knee in more.iter() {
                knees.push(*knee)?;
            }
            for cover in covers.iter().skip(known) {
                cover_rows.push(tableau.rows.len())?;
                add_cover(alloc, &mut tableau, cover, &shares)?;
            }
        }
        Ok(Some(Solved {
            tableau,
            rows,
            shares,
            covers,
            cover_rows,
            knees,
        }))
    }
}

/// The program of a node after its search.
#[derive(Drop)]
pub(crate) struct Solved {
    pub(crate) tableau: Tableau,
    // So many rows are those of the node.
    rows: usize,
    // The share of its capacity at which a free unit of size 1 is, by unit.
    pub(crate) shares: Vec<f64>,
    covers: Vec<Cover>,
    cover_rows: Vec<usize>,
    knees: Vec<Knee>,
}

impl Solved {
    /// The multipliers of a tableau that has all rows of this program. A unit may be taken in
    /// besides: then sets that have it say nothing, and each structure has one of a set beside it.
    pub(crate) fn proposal(
        &self,
        alloc: Global,
        tableau: &Tableau,
        taken: Option<u32>,
    ) -> Result<Proposal, AllocError> {
        let mut covers = Vec::new(alloc);
        for (row, cover) in self.cover_rows.iter().zip(&self.covers) {
            let weight = weight_of(tableau, *row);
            if weight > 0 && !has_unit(cover.units, taken) {
                covers.push(Cover {
                    weight,
                    beside: if cover.beside == taken {
                        None
                    } else {
                        cover.beside
                    },
                    units: cover.units,
                })?;
            }
        }
        Ok(Proposal {
            d: SCALE,
            ys: multipliers(alloc, tableau, self.rows, &self.knees)?,
            covers,
            near: tableau.cost(),
        })
    }
}

/// Whether the set has the unit, if there is one.
fn has_unit(set: UnitSet, unit: Option<u32>) -> bool {
    match unit {
        Some(unit) => unit < 128 && set.has(unit),
        None => false,
    }
}

/// Adds the row of a set.
fn add_cover(
    alloc: Global,
    tableau: &mut Tableau,
    cover: &Cover,
    shares: &[f64],
) -> Result<(), AllocError> {
    let mut sum = Vec::new(alloc);
    for unit in cover.units {
        push_built(&mut sum, unit as usize, shares, 1.0)?;
    }
    let low = match cover.beside {
        Some(unit) => {
            push_built(&mut sum, unit as usize, shares, -1.0)?;
            0.0
        }
        None => 1.0,
    };
    tableau.add_row(alloc, &sum, Ends { low, high: 1000.0 })
}

/// Adds what of a unit is built.
fn push_built(
    sum: &mut Vec<(Variable, f64)>,
    unit: usize,
    shares: &[f64],
    factor: f64,
) -> Result<(), AllocError> {
    if let Some(share) = shares.get(unit) {
        sum.push((Variable::Size(unit), factor * *share))?;
    }
    sum.push((Variable::Built(unit), factor))?;
    Ok(())
}

/// The multiplier of a row that adds so much to the cost.
pub(crate) fn number_of(cost: f64) -> i128 {
    let y = cost * MILLION * SCALE_FLOAT;
    let half = if y < 0.0 { -0.5 } else { 0.5 };
    saturating_f64_to_i64(y + half) as i128
}

/// A multiplier for each row of the node: its own, with those of the material's other rows.
fn multipliers(
    alloc: Global,
    tableau: &Tableau,
    rows: usize,
    knees: &[Knee],
) -> Result<Vec<i128>, AllocError> {
    let mut ys = Vec::new(alloc);
    for row in 0..rows {
        let mut own = tableau.cost_of(Variable::Sum(row));
        for knee in knees {
            if knee.own == row {
                own = own + tableau.cost_of(Variable::Sum(knee.row));
            }
        }
        ys.push(number_of(own))?;
    }
    Ok(ys)
}

/// The weight of a set, by its row.
fn weight_of(tableau: &Tableau, row: usize) -> i128 {
    let weight = tableau.cost_of(Variable::Sum(row));
    let whole = saturating_f64_to_i64(weight * MILLION * SCALE_FLOAT);
    if whole > 0 {
        (whole as i128).wrapping_mul(1_000_000_000_000)
    } else {
        0
    }
}
