//! The program of a node, with all its numbers.
ghost use Rattle.std.specs.Prelude.{◌≡◌, ◌<◌, ◌++◌, ℕ, true, length, map, IfOk, OnOk};
ghost use Rattle.pgraph.specs.number_sets.Sets.{has};
ghost use Rattle.pgraph.specs.pns_rules.Shape.{shape_of};
ghost use Rattle.pgraph.specs.Tables.{shape};
ghost use Rattle.pgraph.specs.View.{node_of};
ghost use Rattle.pgraph.specs.flow_rules.Net.{net_of};
ghost use Rattle.pgraph.specs.flow_rules.Relaxed.{unit_low, unit_cost, row_low, row_high};
ghost use Rattle.pgraph.specs.flow_rules.Program.{program_of, IsProgram, rates_over};
ghost use Rattle.flow_program.specs.NodeSets.{AreNeeded};
ghost use Rattle.flow_program.specs.Entry.{rate_beside};

use crate::costs::fixed_costs;
use crate::node_numbers::{row_range, unit_numbers};
use crate::node_sets::{NodeSets, sets_of};
use crate::rates::put_rates;
use pgraph::{Graph, MatSet, Node, Problem, UnitSet};
use std::alloc::{AllocError, Global};
use std::marker::Model;

/// The relaxed flow program of a node. Its units and its rows are in rising order. By their places
/// in this order, each unit has what a size of 1 costs, the range of its size, and its rate in each
/// row. Each row has the range of what its material leaves over. Sizes and rates are in millionths,
/// the rest in the measure of their products. No range is empty.
#[derive(Drop)]
pub struct Program {
    units: UnitSet,
    rows: MatSet,
    fixed: i128,
    costs: Vec<i128>,
    lows: Vec<i128>,
    highs: Vec<i128>,
    floors: Vec<i128>,
    ceilings: Vec<i128>,
    rates: Vec<i128>,
}

impl Model for Program {
    ghost use Rattle.pgraph.specs.flow_rules.Program as rules;

    ghost Value = { rules.Program };

    ghost view = { λ q. record {
      units = q.units;
      rows = q.rows;
      fixed = q.fixed;
      costs =
          q.costs.items;
      lows = q.lows.items;
      highs = q.highs.items;
      floors =
          q.floors.items;
      ceilings = q.ceilings.items;
      rates = q.rates.items;
    } };

    ghost invariant = { λ q. rules.IsProgram (record {
      units = q.units;
      rows = q.rows;
      fixed = q.fixed;
      costs = q.costs.items;
      lows = q.lows.items;
      highs = q.highs.items;
      floors = q.floors.items;
      ceilings = q.ceilings.items;
      rates = q.rates.items;
    }) };
}

/// What the units of a program have, each in rising order.
#[derive(Drop)]
struct Columns {
    costs: Vec<i128>,
    lows: Vec<i128>,
    highs: Vec<i128>,
    rates: Vec<i128>,
}

/// The ranges of the rows, in rising order.
#[derive(Drop)]
struct Bands {
    floors: Vec<i128>,
    ceilings: Vec<i128>,
}

/// The rate in the row of a material; 0 if it is no material of the unit.
fn rate_in_row(materials: MatSet, rates: &[i64], j: u32) -> i128
    requires all_rates { length rates.now ≡ 256 }
    requires known { j < 256 }
    ensures { result ≡ rate_beside materials rates.now j }
{
    if materials.has(j) {
        rates[j as usize] as i128
    } else {
        0
    }
}

/// Appends the unit's rate in each row.
fn push_rates(
    list: &mut Vec<i128>,
    rows: MatSet,
    materials: MatSet,
    rates: &[i64],
) -> Result<(), AllocError>
    requires { length rates.now ≡ 256 }
    ensures { OnOk result
        (list.new.items ≡ list.old.items ++ map (rate_beside materials rates.now) rows) }
{
    for j in rows {
        list.push(rate_in_row(materials, rates, j))?;
    }
    Ok(())
}

fn columns_of(
    alloc: Global,
    problem: &Problem,
    graph: &Graph,
    node: &Node,
    units: UnitSet,
    rows: MatSet,
) -> Result<Columns, AllocError>
    requires graph { shape graph.now ≡ shape_of problem.now }
    requires known { (u : ℕ) → has units u ≡ true → u < length problem.now.units }
    ensures costs { IfOk result
        (λ k. k.costs.items ≡ map (unit_cost (net_of problem.now) (node_of node.now)) units) }
    ensures lows { IfOk result
        (λ k. k.lows.items ≡ map (unit_low (net_of problem.now) (node_of node.now)) units) }
    ensures highs { IfOk result (λ k. k.highs.items ≡ map (net_of problem.now).most units) }
    ensures rates { IfOk result (λ k. k.rates.items ≡ rates_over (net_of problem.now) rows units) }
{
    let mut costs = Vec::new(alloc);
    let mut lows = Vec::new(alloc);
    let mut highs = Vec::new(alloc);
    let mut rates = Vec::new(alloc);
    let mut rate_at = [0; 256];
    for u in units {
        let materials = put_rates(&mut rate_at, problem, graph, u);
        let unit = unit_numbers(problem, node, u, materials, &rate_at);
        costs.push(unit.cost)?;
        lows.push(unit.low)?;
        highs.push(unit.high)?;
        push_rates(&mut rates, rows, materials, &rate_at)?;
    }
    Ok(Columns {
        costs,
        lows,
        highs,
        rates,
    })
}

fn bands_of(
    alloc: Global,
    problem: &Problem,
    node: &Node,
    rows: MatSet,
    needed: MatSet,
) -> Result<Bands, AllocError>
    requires known { (j : ℕ) → has rows j ≡ true → j < length problem.now.materials }
    requires needed { AreNeeded (shape_of problem.now) (node_of node.now) needed }
    ensures floors { IfOk result
        (λ b. b.floors.items ≡ map (row_low (net_of problem.now) (node_of node.now)) rows) }
    ensures ceilings { IfOk result
        (λ b. b.ceilings.items ≡ map (row_high (net_of problem.now) (node_of node.now)) rows) }
{
    let mut floors = Vec::new(alloc);
    let mut ceilings = Vec::new(alloc);
    for j in rows {
        let range = row_range(problem, node, needed, j);
        floors.push(range.low)?;
        ceilings.push(range.high)?;
    }
    Ok(Bands { floors, ceilings })
}

impl Program {
    /// The program of a node. Linear in its number of rates, rates of 0 included.
    pub fn of(
        alloc: Global,
        problem: &Problem,
        graph: &Graph,
        node: Node,
    ) -> Result<Program, AllocError>
        requires graph { shape graph.now ≡ shape_of problem.now }
        requires known { (u : ℕ) → has node.inside u ≡ true → u < (shape graph.now).units }
        ensures { IfOk result (λ q. q ≡ program_of (net_of problem.now) (node_of node)) }
    {
        problem.is_valid();
        node.inside.rises();
        let NodeSets {
            units,
            rows,
            needed,
        } = sets_of(graph, &node);
        let fixed = fixed_costs(problem, node.inside);
        let bands = bands_of(alloc, problem, &node, rows, needed)?;
        let columns = columns_of(alloc, problem, graph, &node, units, rows)?;
        Ok(Program {
            units,
            rows,
            fixed,
            costs: columns.costs,
            lows: columns.lows,
            highs: columns.highs,
            floors: bands.floors,
            ceilings: bands.ceilings,
            rates: columns.rates,
        })
    }

    /// Every program has this. A call gives it to a proof.
    pub fn is_program(&self)
        ensures { IsProgram self.now }
    {
        let _fixed = self.fixed;
    }

    /// The units, those of the node that are not left out.
    pub fn units(&self) -> UnitSet
        ensures { result ≡ self.now.units }
    {
        self.units
    }

    /// The rows, the materials of the units.
    pub fn rows(&self) -> MatSet
        ensures { result ≡ self.now.rows }
    {
        self.rows
    }

    /// The fixed costs of the units that are taken in.
    pub fn fixed(&self) -> i128
        ensures { result ≡ self.now.fixed }
    {
        self.fixed
    }

    /// What a size of 1 costs, for each unit.
    pub fn costs(&self) -> &[i128]
        ensures { result.now ≡ self.now.costs }
    {
        &self.costs
    }

    /// The least size of each unit.
    pub fn lows(&self) -> &[i128]
        ensures { result.now ≡ self.now.lows }
    {
        &self.lows
    }

    /// The greatest size of each unit.
    pub fn highs(&self) -> &[i128]
        ensures { result.now ≡ self.now.highs }
    {
        &self.highs
    }

    /// The least that is left over, for each row.
    pub fn floors(&self) -> &[i128]
        ensures { result.now ≡ self.now.floors }
    {
        &self.floors
    }

    /// The most that is left over, for each row.
    pub fn ceilings(&self) -> &[i128]
        ensures { result.now ≡ self.now.ceilings }
    {
        &self.ceilings
    }

    /// For each unit, its rate in each row.
    pub fn rates(&self) -> &[i128]
        ensures { result.now ≡ self.now.rates }
    {
        &self.rates
    }
}
