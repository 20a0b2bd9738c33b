//! What is proposed for a node: a guessed basis, its solution, and what is made of it. Only this is
//! promised: it is found safely, the work ends, and lists are in range.
ghost use Rattle.std.specs.Prelude.{◌≡◌};
ghost use Rattle.scaled_flows.specs.integer_laws.Range.{AllInRange};
ghost use Rattle.scaled_flows.specs.flow_rules.Net.{net_of};
ghost use Rattle.scaled_flows.specs.Divisors.{AreDivisors};

use crate::multipliers::ScaledRows;
use crate::noted::{codes_of, column_of};
use crate::number_list::NumberList;
use crate::rounding::Ratio;
use basis_guess::{Column, Guess, Numbers, Outcome, ShortSizes, Solver, Standing};
use scaled_flows::{Guessed, Node, Problem, Scales, gcd};
use std::alloc::{AllocError, Global};
use std::marker::Model;

/// What is proposed: sizes and multipliers that may be optimal, a row that may show that there are
/// no flows, or nothing.
#[derive(Clone, Copy, Debug, PartialEq, Eq)]
pub(crate) enum Proposed {
    Optimum,
    Row,
    Nothing,
}

/// How multipliers of the cost are written over a scale.
#[derive(Clone, Copy)]
pub(crate) enum Way {
    /// After `Optimum`: the exact ones over their least scale, if that is at most so much.
    Exact(i128),
    /// After `Optimum`: whole numbers near 2^bits times the multipliers.
    Rounded(u32),
    /// After `propose_low`, `propose_sizes` or `propose_inside`: whole numbers near 2^bits times
    /// the multipliers, or a lower power of 2 over which they are the same.
    Near(u32),
}

/// A problem in scaled numbers, with the divisors: one of each material's rates, that of sizes, and
/// that of costs.
#[derive(Drop)]
struct ScaledProblem {
    numbers: Numbers,
    rates: Vec<i64>,
    sizes: i128,
    costs: i128,
}

/// Room for what is proposed for one node after the other.
#[derive(Drop)]
pub(crate) struct Proposals {
    scaled: ScaledProblem,
    guess: Guess,
    // The columns of a basis that was noted.
    columns: Vec<Column>,
    solver: Solver,
    short: ShortSizes,
    // The rows of the node: what it demands of each material, and the divisors of those that it
    // has.
    standings: Vec<Standing>,
    row_rates: Vec<i64>,
    // Scaled multipliers of a row that can't be met, or of the cost.
    row: NumberList,
    list: NumberList,
    // The guessed size of each unit of the problem.
    guessed_sizes: Vec<i64>,
    whole_sizes: Vec<i64>,
}

impl Model for Proposals {
    ghost use Rattle.std.specs.Prelude.{List, ℤ};

    ghost Value = { List ℤ };

    ghost view = { λ p. p.list };
}

/// The divisor of each material's rates.
fn rate_divisors(alloc: Global, problem: &Problem, scales: &Scales) -> Result<Vec<i64>, AllocError>
    requires { AreDivisors (net_of problem.now) scales.now }
{
    problem.is_valid();
    let mut rates = Vec::new(alloc);
    let materials = problem.materials().len() as u32;
    'materials: for j in 0..materials {
        rates.push(scales.rate(j))?;
    }
    Ok(rates)
}

impl ScaledProblem {
    fn of(alloc: Global, problem: &Problem, scales: &Scales) -> Result<ScaledProblem, AllocError>
        requires { AreDivisors (net_of problem.now) scales.now }
    {
        let rates = rate_divisors(alloc, problem, scales)?;
        let sizes = scales.sizes() as i128;
        let costs = scales.costs();
        let numbers = Numbers::of(alloc, problem, &rates, sizes, costs)?;
        Ok(ScaledProblem {
            numbers,
            rates,
            sizes,
            costs,
        })
    }
}

// Multipliers that refute may be scaled at will: the greatest scaled one counts as this.
const MILLION: i128 = 1_000_000;

// The greatest size of a unit, in millionths.
const MOST_SIZE: i128 = 1_000_000_000_000_000;

// So many bits after a multiplier of the cost have room.
const ROOM: u32 = 64;

/// Whether the unit is left out at the node.
fn is_left_out(node: &Node, unit: usize) -> bool {
    unit < 128 && node.outside.has(unit as u32)
}

/// Writes scaled sizes over `d` in whole millionths.
fn keep_whole(whole_sizes: &mut Vec<i64>, sizes: &[i128], scale: i128, d: i128) {
    whole_sizes.clear();
    for size in sizes {
        let whole = Ratio::of_products(*size, scale, d, 1).floor();
        let kept = whole.min(MOST_SIZE).max(0) as i64;
        let _is_kept = whole_sizes.push(kept).is_ok();
    }
}

impl Proposals {
    /// Makes room for the nodes of the problem. `Err` comes when memory is refused.
    pub(crate) fn open(
        alloc: Global,
        problem: &Problem,
        scales: &Scales,
    ) -> Result<Proposals, AllocError>
        requires { AreDivisors (net_of problem.now) scales.now }
    {
        problem.is_valid();
        let units = problem.units().len() as u32;
        let materials = problem.materials().len() as u32;
        Ok(Proposals {
            scaled: ScaledProblem::of(alloc, problem, scales)?,
            guess: Guess::open(alloc, units, materials)?,
            columns: Vec::with_capacity(alloc, units as usize)?,
            solver: Solver::open(alloc, units, materials)?,
            short: ShortSizes::open(alloc, units, materials)?,
            standings: vec![in alloc; Standing::Apart; materials as usize]?,
            row_rates: Vec::with_capacity(alloc, materials as usize)?,
            row: NumberList::open(alloc, materials as usize)?,
            list: NumberList::open(alloc, materials.max(units) as usize)?,
            guessed_sizes: vec![in alloc; 0i64; units as usize]?,
            whole_sizes: Vec::with_capacity(alloc, units as usize)?,
        })
    }

    /// Goes over to the nodes of another problem with as many units and materials. `Err` comes if
    /// memory is refused.
    pub(crate) fn go_over(
        &mut self,
        alloc: Global,
        problem: &Problem,
        scales: &Scales,
    ) -> Result<(), AllocError>
        requires { AreDivisors (net_of problem.now) scales.now }
    {
        self.scaled = ScaledProblem::of(alloc, problem, scales)?;
        self.guess.forget();
        Ok(())
    }

    /// Looks for an optimum of the node's program, from the last basis or `anew`.
    pub(crate) fn propose(&mut self, node: &Node, anew: bool) -> Proposed {
        let outcome = self.guess.look(&self.scaled.numbers, node, anew);
        if !self.read_rows(node) {
            return Proposed::Nothing;
        }
        match outcome {
            Outcome::Basis
                if self
                    .solver
                    .solve(&self.scaled.numbers, self.guess.columns(), node) => {
                Proposed::Optimum
            }
            Outcome::Row if self.read_row() => Proposed::Row,
            _ => Proposed::Nothing,
        }
    }

    /// Looks, from the last basis, for multipliers that prove little less than least flows of the
    /// node cost, and keeps the sizes that these flows seem to have.
    pub(crate) fn propose_low(&mut self, node: &Node) -> Proposed {
        let outcome = self.guess.look(&self.scaled.numbers, node, false);
        if !self.read_rows(node) {
            return Proposed::Nothing;
        }
        match outcome {
            Outcome::Basis if self.read_costs() => {
                self.keep_guessed_sizes(node);
                Proposed::Optimum
            }
            Outcome::Row if self.read_row() => Proposed::Row,
            _ => Proposed::Nothing,
        }
    }

    /// The basis that was guessed last, in short numbers.
    pub(crate) fn basis(&self, alloc: Global) -> Result<Vec<u16>, AllocError> {
        codes_of(alloc, self.guess.columns())
    }

    /// Looks for an optimum of the node's program at the basis that was noted at its first look.
    pub(crate) fn propose_noted(&mut self, node: &Node, basis: &[u16]) -> Proposed {
        self.columns.clear();
        for code in basis {
            let _is_kept = self.columns.push(column_of(*code)).is_ok();
        }
        if self.read_rows(node) && self.solver.solve(&self.scaled.numbers, &self.columns, node) {
            Proposed::Optimum
        } else {
            Proposed::Nothing
        }
    }

    /// Keeps the sizes of the guess in whole millionths.
    fn keep_guessed_sizes(&mut self, node: &Node) {
        self.guess.write_sizes(
            &self.scaled.numbers,
            node,
            self.scaled.sizes,
            &mut self.guessed_sizes,
        );
        self.whole_sizes.clear();
        for (unit, size) in self.guessed_sizes.iter().enumerate() {
            if !is_left_out(node, unit) {
                let _is_kept = self.whole_sizes.push(*size).is_ok();
            }
        }
    }

    /// Reads the divisors of the rows of the node.
    fn read_rows(&mut self, node: &Node) -> bool {
        self.scaled.numbers.stand(node, &mut self.standings);
        self.row_rates.clear();
        for (rate, standing) in self.scaled.rates.iter().zip(&self.standings) {
            if *standing != Standing::Apart && self.row_rates.push(*rate).is_err() {
                return false;
            }
        }
        true
    }

    /// Reads the scaled multipliers of a row that can't be met.
    fn read_row(&mut self) -> bool {
        self.row.clear();
        for (multiplier, standing) in self.guess.multipliers().iter().zip(&self.standings) {
            if *standing != Standing::Apart && !self.row.push(*multiplier as i128) {
                return false;
            }
        }
        true
    }

    /// Looks for least flows of the node, and for multipliers that prove little less than what
    /// these cost.
    pub(crate) fn propose_sizes(&mut self, node: &Node) -> bool {
        let outcome = self.guess.look(&self.scaled.numbers, node, true);
        outcome == Outcome::Basis
            && self.read_rows(node)
            && self.read_costs()
            && self
                .solver
                .find_sizes(&self.scaled.numbers, self.guess.columns(), node)
    }

    /// Looks for flows of the node in short numbers that cost little more than the least, and for
    /// multipliers that prove little less.
    pub(crate) fn propose_inside(&mut self, node: &Node) -> bool {
        let outcome = self.guess.look_inside(&self.scaled.numbers, node);
        outcome == Outcome::Basis
            && self.read_rows(node)
            && self.read_costs()
            && self.short.take(&self.guess, &self.scaled.numbers)
    }

    /// Reads the scaled multipliers of the cost.
    fn read_costs(&mut self) -> bool {
        let by = self.guess.shift();
        if by > ROOM {
            return false;
        }
        self.row.clear();
        for (multiplier, standing) in self.guess.multipliers().iter().zip(&self.standings) {
            let whole = (*multiplier as i128).wrapping_shl(by);
            if *standing != Standing::Apart && !self.row.push(whole) {
                return false;
            }
        }
        true
    }

    /// After `Optimum`: the scaled sizes and multipliers.
    pub(crate) fn guessed(&self) -> Guessed<'_> {
        Guessed {
            sizes: self.solver.sizes(),
            d: self.solver.d(),
            multipliers: self.solver.multipliers(),
            scale: self.solver.scale(),
        }
    }

    /// The list that was written last, of multipliers or of sizes.
    pub(crate) fn list(&self) -> &[i128]
        ensures { result.now ≡ self.now }
    {
        self.list.numbers()
    }

    /// Each number of the list is in range. A call proves this, and does nothing.
    pub(crate) fn are_in_range(&self)
        ensures { AllInRange self.now }
    {
        self.list.are_in_range();
    }

    /// Writes multipliers of the cost, and gives the scale that they are over.
    pub(crate) fn write(&mut self, way: Way) -> Option<i128> {
        match way {
            Way::Exact(most) => self.write_exact(most),
            Way::Rounded(bits) => self.write_rounded(bits),
            Way::Near(bits) => self.write_near(bits),
        }
    }

    /// After `Optimum`: writes the exact multipliers over their least scale, if that is at most so
    /// much. Gives that scale.
    fn write_exact(&mut self, most: i128) -> Option<i128> {
        let rows = ScaledRows {
            numbers: self.solver.multipliers(),
            rates: &self.row_rates,
            scale: self.solver.scale(),
            costs: self.scaled.costs,
        };
        let scale = rows.exact_scale(most)?;
        if rows.write_exact(scale, &mut self.list) {
            Some(scale)
        } else {
            None
        }
    }

    /// After `Optimum`: writes whole numbers near 2^bits times the multipliers. Gives that power.
    fn write_rounded(&mut self, bits: u32) -> Option<i128> {
        let rows = ScaledRows {
            numbers: self.solver.multipliers(),
            rates: &self.row_rates,
            scale: self.solver.scale(),
            costs: self.scaled.costs,
        };
        if rows.write_rounded(bits, &mut self.list) {
            Some(1i128.wrapping_shl(bits.min(126)))
        } else {
            None
        }
    }

    /// After `Row`: writes whole numbers near 2^bits times the multipliers that refute.
    pub(crate) fn write_row(&mut self, bits: u32) -> bool {
        let rows = ScaledRows {
            numbers: self.row.numbers(),
            rates: &self.row_rates,
            scale: self.guess.scale() as i128,
            costs: MILLION,
        };
        rows.write_rounded(bits, &mut self.list)
    }

    /// After `propose_low`, `propose_sizes` or `propose_inside`: writes whole numbers near a power
    /// of 2 times the multipliers of the cost: 2^bits, or a lower one over which they are the same.
    /// Gives that power.
    fn write_near(&mut self, bits: u32) -> Option<i128> {
        let rows = ScaledRows {
            numbers: self.row.numbers(),
            rates: &self.row_rates,
            scale: self.guess.scale() as i128,
            costs: self.scaled.costs,
        };
        if !rows.write_rounded(bits, &mut self.list) {
            return None;
        }
        let idle = self.list.idle_bits().min(bits);
        self.list.shorten(idle);
        Some(1i128.wrapping_shl(bits.saturating_sub(idle).min(126)))
    }

    /// After `propose_sizes`: writes the scaled sizes over their denominator, which it gives.
    pub(crate) fn write_least(&mut self) -> Option<i128> {
        self.list.clear();
        for size in self.solver.sizes() {
            if !self.list.push(*size) {
                return None;
            }
        }
        Some(self.solver.d())
    }

    /// After `propose_inside`: writes the scaled sizes over their denominator, which it gives.
    pub(crate) fn write_short(&mut self, node: &Node) -> Option<i128> {
        self.list.clear();
        for (unit, size) in self.short.sizes().iter().enumerate() {
            if !is_left_out(node, unit) && !self.list.push(*size) {
                return None;
            }
        }
        Some(self.short.d())
    }

    /// Keeps the scaled sizes over `d` that are listed in whole millionths.
    pub(crate) fn keep_listed_sizes(&mut self, d: i128) {
        let sizes = self.list.numbers();
        keep_whole(&mut self.whole_sizes, sizes, self.scaled.sizes, d);
    }

    /// After `Optimum`: writes the sizes in millionths over their least common denominator, which
    /// it gives.
    pub(crate) fn write_sizes(&mut self) -> Option<i128> {
        let d = self.solver.d();
        if d < 1 {
            return None;
        }
        let common = gcd(d, self.scaled.sizes.max(1)).max(1);
        let factor = self.scaled.sizes.wrapping_div(common);
        self.list.clear();
        for size in self.solver.sizes() {
            if !self.list.push_some(size.checked_mul(factor)) {
                return None;
            }
        }
        Some(d.wrapping_div(common))
    }

    /// After `Optimum`: keeps the sizes in whole millionths.
    pub(crate) fn keep_whole_sizes(&mut self) {
        let sizes = self.solver.sizes();
        keep_whole(
            &mut self.whole_sizes,
            sizes,
            self.scaled.sizes,
            self.solver.d(),
        );
    }

    /// The size of each unit of the node for which sizes were kept last, in rising order and in
    /// whole millionths.
    pub(crate) fn whole_sizes(&self) -> &[i64] {
        &self.whole_sizes
    }
}
