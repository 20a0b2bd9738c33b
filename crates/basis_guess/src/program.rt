//! The program of a node.
use crate::tableau::{Column, Ends, Tableau, Variable};
use crate::{Numbers, Standing};
use charges::{Node, Problem, UnitSet};
use std::alloc::{AllocError, Global};
use std::num::nearest_i64_to_f64;

/// The measures of a problem's numbers: sizes and rates are in millionths, costs of a size in
/// 10^-12, balances in 10^-12.
const MILLION: f64 = 1000000.0;

/// What a free unit owes if it is built, in money, by unit.
#[derive(Drop)]
pub(crate) struct Owed {
    amounts: Vec<f64>,
}

/// The number, or an end of the range of 64 bits if it is outside.
fn narrow(number: i128) -> i64 {
    match i64::try_from(number) {
        Ok(narrow) => narrow,
        Err(_) if number < 0 => i64::MIN,
        Err(_) => i64::MAX,
    }
}

/// The nearest number in floating point, but for a few last bits.
pub(crate) fn float_of(number: i128) -> f64 {
    let high = nearest_i64_to_f64(narrow(number.wrapping_div(1_000_000_000_000_000_000)));
    let low = nearest_i64_to_f64(narrow(number.wrapping_rem(1_000_000_000_000_000_000)));
    high * 1000000000000000000.0 + low
}

impl Owed {
    pub(crate) fn of(alloc: Global, problem: &Problem) -> Result<Owed, AllocError> {
        let years = problem.payout() as i128;
        let mut amounts = Vec::new(alloc);
        for unit in problem.units() {
            let fixed = years
                .wrapping_mul(unit.fix as i128)
                .wrapping_add(unit.investment_fix as i128);
            amounts.push(float_of(fixed) / MILLION)?;
        }
        Ok(Owed { amounts })
    }

    /// How many units there are.
    pub(crate) fn count(&self) -> usize {
        self.amounts.len()
    }

    pub(crate) fn by(&self, unit: usize) -> f64 {
        match self.amounts.get(unit) {
            Some(amount) => *amount,
            None => 0.0,
        }
    }
}

pub(crate) fn is_in(set: UnitSet, unit: usize) -> bool {
    unit < 128 && set.has(unit as u32)
}

/// The share of the capacity at which a size of 1 is, of a free unit.
pub(crate) fn share_of(numbers: &Numbers, node: &Node, unit: usize) -> f64 {
    let high = float_of(numbers.size_ends(node, unit).high) / MILLION;
    if high > 0.0 { 1.0 / high } else { 0.0 }
}

/// Adds the columns of the units.
pub(crate) fn put_columns(
    tableau: &mut Tableau,
    numbers: &Numbers,
    owed: &Owed,
    node: &Node,
    units: usize,
) -> Result<(), AllocError> {
    let all = Node {
        inside: UnitSet::from_bits(u128::MAX),
        outside: UnitSet::empty(),
    };
    for unit in 0..units {
        if is_in(node.outside, unit) {
            continue;
        }
        let ends = numbers.size_ends(node, unit);
        let own = float_of(numbers.cost(&all, unit)) / (MILLION * MILLION);
        let amount = owed.by(unit);
        let free = !is_in(node.inside, unit);
        let slope = if free {
            amount * share_of(numbers, node, unit)
        } else {
            tableau.fixed = tableau.fixed + amount;
            0.0
        };
        tableau.columns.push(Column {
            variable: Variable::Size(unit),
            ends: Ends {
                low: float_of(ends.low) / MILLION,
                high: float_of(ends.high) / MILLION,
            },
            at_high: false,
            cost: own + slope,
        })?;
        if free && amount > 0.0 {
            tableau.columns.push(Column {
                variable: Variable::Built(unit),
                ends: Ends {
                    low: 0.0,
                    high: 1.0,
                },
                at_high: false,
                cost: amount,
            })?;
        }
    }
    Ok(())
}

/// Adds the rows of the materials that the node has.
pub(crate) fn put_rows(
    alloc: Global,
    tableau: &mut Tableau,
    numbers: &Numbers,
    node: &Node,
    standings: &[Standing],
    units: usize,
) -> Result<(), AllocError> {
    for (material, standing) in standings.iter().enumerate() {
        if *standing == Standing::Apart {
            continue;
        }
        let mut sum = Vec::new(alloc);
        for unit in 0..units {
            if !is_in(node.outside, unit) {
                for rate in numbers.rates(unit) {
                    if rate.material == material {
                        sum.push((
                            Variable::Size(unit),
                            nearest_i64_to_f64(rate.rate) / MILLION,
                        ))?;
                    }
                }
            }
        }
        let ends = numbers.balance_ends(material, *standing);
        tableau.add_row(
            alloc,
            &sum,
            Ends {
                low: float_of(ends.low) / (MILLION * MILLION),
                high: float_of(ends.high) / (MILLION * MILLION),
            },
        )?;
    }
    Ok(())
}
