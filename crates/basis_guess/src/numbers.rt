//! The scaled numbers of a problem, and what a node takes of them.
use crate::ranges::{END_BITS, FINE_BITS};
use crate::rounding::excess;
use charges::{Kind, Material, Node, OperatingUnit, Problem, Term, UnitSet};
use std::alloc::{AllocError, Global};

/// A material, by its number, and the scaled rate at which a unit of size 1 makes it, negative if
/// it uses it.
#[derive(Clone, Copy)]
pub struct Rate {
    pub material: usize,
    pub rate: i64,
}

/// The ends of a range.
#[derive(Clone, Copy)]
pub struct Ends {
    pub low: i128,
    pub high: i128,
}

impl Ends {
    /// One of the two ends.
    pub(crate) fn end(self, at_high: bool) -> i128 {
        if at_high { self.high } else { self.low }
    }

    /// The number between the ends that is nearest.
    pub(crate) fn nearest(self, number: i128) -> i128 {
        number.min(self.high).max(self.low)
    }

    /// So many times the ends.
    pub(crate) fn times(self, factor: i128) -> Ends {
        Ends {
            low: self.low.wrapping_mul(factor),
            high: self.high.wrapping_mul(factor),
        }
    }
}

/// What a node needs of a material: nothing if none of its units has it, its own range if the
/// material has to be there, else a range that begins at 0.
#[derive(Clone, Copy, Debug, PartialEq, Eq)]
pub enum Standing {
    Apart,
    Free,
    Needed,
}

/// What is known of a unit: its rates, the ends of its size, and what a size of 1 costs. A free
/// unit pays for its fixed cost by a slope; the cost is given without it and with it.
#[derive(Drop)]
struct Column {
    rates: Vec<Rate>,
    size: Ends,
    cost: i128,
    sloped_cost: i128,
}

/// What is known of a material: the bounds of what it leaves over or, if it is raw, of what is used
/// of it; and how much all units make and use of it at most.
#[derive(Clone, Copy)]
struct Balance {
    bounds: Ends,
    raw: bool,
    product: bool,
    reach: i128,
}

/// A problem's scaled numbers: what a unit and what a material has, by their numbers.
#[derive(Drop)]
pub struct Numbers {
    columns: Vec<Column>,
    balances: Vec<Balance>,
    end_shift: u32,
    fineness: u32,
    cost_shift: u32,
}

/// The divisors of the scale.
#[derive(Clone, Copy)]
struct Scale<'a> {
    rates: &'a [i64],
    size: i128,
    cost: i128,
}

const MILLION: i128 = 1_000_000;

// The costs of a guess have at most so many bits.
const COST_BITS: u32 = 61;

// A guess adds at most so many bits to sizes that are to be rounded.
const FINEST: u32 = 34;

/// The quotient by a divisor that should be at least 1.
fn over(number: i128, divisor: i128) -> i128 {
    number.wrapping_div(divisor.max(1))
}

/// Whether the unit is in the set.
fn is_in(set: UnitSet, unit: usize) -> bool {
    unit < 128 && set.has(unit as u32)
}

/// A yearly amount over the payout period, and one that comes once.
fn over_years(problem: &Problem, yearly: i64, once: i64) -> i128 {
    let years = problem.payout() as i128;
    years
        .wrapping_mul(yearly as i128)
        .wrapping_add(once as i128)
}

/// What a free unit of size 1 pays instead of its fixed cost.
fn slope_cost(problem: &Problem, unit: &OperatingUnit) -> i128 {
    if unit.upper <= 0 {
        return 0;
    }
    let fixed = over_years(problem, unit.fix, unit.investment_fix);
    over(fixed.wrapping_mul(MILLION), unit.upper as i128).wrapping_mul(MILLION)
}

/// What the materials of these terms are worth at a size of 1.
fn worth(problem: &Problem, terms: &[Term]) -> i128 {
    let mut sum = 0i128;
    for term in terms {
        if let Some(material) = problem.materials().get(term.material as usize) {
            let price = over_years(problem, material.price, 0);
            sum = sum.wrapping_add(price.wrapping_mul(term.rate as i128));
        }
    }
    sum
}

/// Appends the scaled rates of the terms, negative if they are used.
fn push_rates(
    rates: &mut Vec<Rate>,
    scale: Scale,
    terms: &[Term],
    used: bool,
) -> Result<(), AllocError> {
    for term in terms {
        let material = term.material as usize;
        let divisor = match scale.rates.get(material) {
            Some(divisor) => *divisor,
            None => 1,
        };
        let size = term.rate.wrapping_div(divisor.max(1));
        let rate = if used { size.wrapping_neg() } else { size };
        rates.push(Rate { material, rate })?;
    }
    Ok(())
}

fn column_of(
    alloc: Global,
    problem: &Problem,
    unit: &OperatingUnit,
    scale: Scale,
) -> Result<Column, AllocError> {
    let mut rates = Vec::new(alloc);
    push_rates(&mut rates, scale, &unit.inputs, true)?;
    push_rates(&mut rates, scale, &unit.outputs, false)?;
    let own = over_years(problem, unit.proportional, unit.investment_proportional);
    let cost = own
        .wrapping_mul(MILLION)
        .wrapping_add(worth(problem, &unit.inputs))
        .wrapping_sub(worth(problem, &unit.outputs));
    let sloped_cost = cost.wrapping_add(slope_cost(problem, unit));
    Ok(Column {
        rates,
        size: Ends {
            low: over(unit.lower as i128, scale.size),
            high: over(unit.upper as i128, scale.size),
        },
        cost: over(cost, scale.cost),
        sloped_cost: over(sloped_cost, scale.cost),
    })
}

fn balance_of(material: &Material, rate_divisor: i64, size_divisor: i128) -> Balance {
    let divisor = size_divisor.wrapping_mul(rate_divisor as i128);
    Balance {
        bounds: Ends {
            low: over((material.lower as i128).wrapping_mul(MILLION), divisor),
            high: over((material.upper as i128).wrapping_mul(MILLION), divisor),
        },
        raw: material.kind == Kind::RawMaterial,
        product: material.kind == Kind::Product,
        reach: 0,
    }
}

/// Adds what each unit makes and uses at most.
fn add_reaches(columns: &[Column], balances: &mut [Balance]) {
    for column in columns {
        for rate in &column.rates {
            if let Some(balance) = balances.get_mut(rate.material) {
                let most = column.size.high.wrapping_mul(rate.rate as i128);
                balance.reach = balance.reach.wrapping_add(most.wrapping_abs());
            }
        }
    }
}

/// All bits that some balance has, of those that units can have and bounds allow.
fn reach_bits(balances: &[Balance]) -> u128 {
    let mut bits = 0u128;
    for balance in balances {
        bits |= balance.reach.min(balance.bounds.high).unsigned_abs();
    }
    bits
}

/// All bits of some end that a guess must not drop, and all bits of some cost. A large balance may
/// lose bits, since few balances come near their upper bounds.
fn bits_of(columns: &[Column], balances: &[Balance]) -> (u128, u128) {
    let mut ends = 0u128;
    let mut costs = 0u128;
    for column in columns {
        ends |= column.size.high.unsigned_abs() | least_bits(&column.rates, balances);
        costs |= column.cost.unsigned_abs() | column.sloped_cost.unsigned_abs();
    }
    (ends, costs)
}

/// All bits that the lower bound of some material of a unit has.
fn least_bits(rates: &[Rate], balances: &[Balance]) -> u128 {
    let mut bits = 0u128;
    for rate in rates {
        if let Some(balance) = balances.get(rate.material) {
            bits |= balance.bounds.low.unsigned_abs();
        }
    }
    bits
}

impl Numbers {
    /// The numbers of a problem: the rates of each material over its divisor, sizes over theirs,
    /// balances over both, and costs over theirs. Each divisor should be at least 1 and divide what
    /// it is for. `Err` comes only when memory runs out.
    pub fn of(
        alloc: Global,
        problem: &Problem,
        rate_divisors: &[i64],
        size_divisor: i128,
        cost_divisor: i128,
    ) -> Result<Numbers, AllocError> {
        let scale = Scale {
            rates: rate_divisors,
            size: size_divisor,
            cost: cost_divisor,
        };
        let mut columns = Vec::new(alloc);
        for unit in problem.units() {
            columns.push(column_of(alloc, problem, unit, scale)?)?;
        }
        let mut balances = Vec::new(alloc);
        for (material, divisor) in problem.materials().iter().zip(rate_divisors) {
            balances.push(balance_of(material, *divisor, size_divisor))?;
        }
        add_reaches(&columns, &mut balances);
        let (ends, costs) = bits_of(&columns, &balances);
        let longest = excess(ends | reach_bits(&balances), 0);
        Ok(Numbers {
            columns,
            balances,
            end_shift: excess(ends, END_BITS),
            fineness: FINE_BITS.saturating_sub(longest).min(FINEST),
            cost_shift: excess(costs, COST_BITS),
        })
    }

    /// How many bits a guess drops of sizes and balances.
    pub(crate) fn end_shift(&self) -> u32 {
        self.end_shift
    }

    /// How many bits a guess adds to sizes and balances that are to be rounded.
    pub fn fineness(&self) -> u32 {
        self.fineness
    }

    /// How many bits a guess drops of costs.
    pub(crate) fn cost_shift(&self) -> u32 {
        self.cost_shift
    }

    /// The scaled rates of the unit, its inputs first.
    pub fn rates(&self, unit: usize) -> &[Rate] {
        match self.columns.get(unit) {
            Some(column) => &column.rates,
            None => &[],
        }
    }

    /// What a scaled size of 1 of the unit costs at the node.
    pub fn cost(&self, node: &Node, unit: usize) -> i128 {
        match self.columns.get(unit) {
            Some(column) if is_in(node.inside, unit) => column.cost,
            Some(column) => column.sloped_cost,
            None => 0,
        }
    }

    /// The ends of the scaled size of the unit at the node; both are 0 if it is left out.
    pub fn size_ends(&self, node: &Node, unit: usize) -> Ends {
        match self.columns.get(unit) {
            Some(column) if is_in(node.inside, unit) => column.size,
            Some(column) if !is_in(node.outside, unit) => Ends {
                low: 0,
                high: column.size.high,
            },
            _ => Ends { low: 0, high: 0 },
        }
    }

    /// The ends of the scaled balance of a material of this standing.
    pub fn balance_ends(&self, material: usize, standing: Standing) -> Ends {
        let Some(balance) = self.balances.get(material) else {
            return Ends { low: 0, high: 0 };
        };
        let high = balance.bounds.high;
        let low = match standing {
            Standing::Needed => balance.bounds.low,
            _ => 0,
        };
        if balance.raw {
            Ends {
                low: high.wrapping_neg(),
                high: low.wrapping_neg(),
            }
        } else {
            Ends { low, high }
        }
    }

    /// Writes the sum of the absolute rates of the units that are not left out at the node, for
    /// each material.
    pub(crate) fn sum_rates(&self, node: &Node, sums: &mut [i64]) {
        for sum in sums.iter_mut() {
            *sum = 0;
        }
        for (unit, column) in self.columns.iter().enumerate() {
            if !is_in(node.outside, unit) {
                add_rates(&column.rates, sums);
            }
        }
    }

    /// Writes what the node needs of each material.
    pub fn stand(&self, node: &Node, standings: &mut [Standing]) {
        for standing in standings.iter_mut() {
            *standing = Standing::Apart;
        }
        for (unit, column) in self.columns.iter().enumerate() {
            stand_unit(&column.rates, unit, node, standings);
        }
        for (standing, balance) in standings.iter_mut().zip(&self.balances) {
            if balance.product && *standing == Standing::Free {
                *standing = Standing::Needed;
            }
        }
    }
}

/// Marks the materials of one unit, if it is not left out.
fn stand_unit(rates: &[Rate], unit: usize, node: &Node, standings: &mut [Standing]) {
    if is_in(node.outside, unit) {
        return;
    }
    let inside = is_in(node.inside, unit);
    for rate in rates {
        if let Some(standing) = standings.get_mut(rate.material) {
            if inside {
                *standing = Standing::Needed;
            } else if *standing == Standing::Apart {
                *standing = Standing::Free;
            }
        }
    }
}

/// Adds the absolute rates of one unit.
fn add_rates(rates: &[Rate], sums: &mut [i64]) {
    for rate in rates {
        if let Some(sum) = sums.get_mut(rate.material) {
            *sum = sum.wrapping_add(rate.rate.wrapping_abs());
        }
    }
}
