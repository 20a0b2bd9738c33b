//! The charge of a node, put together.
ghost use Rattle.std.specs.Prelude.{◌≡◌, ◌<◌, ◌≤◌, ◌+◌, ◌-◌, ◌++◌, ◌+ℤ◌, ℕ, List, pos, true};
ghost use Rattle.std.specs.Prelude.{length, IfOk, IfErr, OnOk};
ghost use Rattle.structure_list.specs.integer_laws.Total.{total};
ghost use Rattle.structure_list.specs.number_sets.Sets.{has};
ghost use Rattle.structure_list.specs.pns_rules.Shape.{shape_of};
ghost use Rattle.structure_list.specs.pgraph.View.{node_of};
ghost use Rattle.structure_list.specs.flow_rules.Net.{net_of, beside};
ghost use Rattle.structure_list.specs.flow_rules.Relaxed.{units, rows};
ghost use Rattle.structure_list.specs.flow_rules.Steps.{AreInRange, IsFirstPast};
ghost use Rattle.flow_program.specs.Entry.{entry};
ghost use Rattle.flow_program.specs.Rates.{AreRates};
ghost use Rattle.structure_list.specs.flow_rules.Charge.{unit_part, charge};
ghost use Rattle.structure_list.specs.flow_rules.ChargeSteps.{paid_steps, units_steps};
ghost use Rattle.structure_list.specs.flow_rules.ChargeSteps.{charge_steps};
ghost use Rattle.charges.specs.Known.{facts_of};
ghost use Rattle.structure_list.specs.pgraph.CoversView.{covers_of};
ghost use Rattle.charges.specs.Sets.{AreBesideSmall};
ghost use Rattle.structure_list.specs.flow_rules.Cover as rules;
ghost use Rattle.charges.specs.Ground.{IsGround, ArePaid};

use crate::asked::{used_by, with_worth};
use crate::bending::Sizes;
use crate::facts::Facts;
use crate::knees::knees_of;
use crate::paid::{paid_of, with_weights};
use crate::rows::rows_sum;
use crate::running::Running;
use crate::tables::table_of;
use crate::unit::{Multipliers, Terms, costs_of, with_unit};
use crate::useful::{Useful, useful_at};
use flow_program::{PastSum, put_rates, sets_of};
use structure_list::{Cover, Node, Site, UnitSet};

/// What a charge is formed from: the multiplier of the cost, one multiplier for each row of the
/// node in rising order, and covers.
#[derive(Clone, Copy, Debug)]
pub struct Charge<'a> {
    pub d: i128,
    pub ys: &'a [i128],
    pub covers: &'a [Cover],
}

/// What the sum over the units reads of a node.
#[derive(Drop)]
pub(crate) struct Ground {
    pub(crate) node: Node,
    pub(crate) facts: Facts,
    pub(crate) units: UnitSet,
    pub(crate) useful: Useful,
}

/// Between which sizes the facts have a unit.
fn sizes_of(facts: &Facts, u: u32) -> Sizes
    requires { u < 128 }
    ensures low { result.low ≡ (facts_of facts.now).least u }
    ensures high { result.high ≡ (facts_of facts.now).most u }
{
    Sizes {
        low: facts.least_of(u) as i128,
        high: facts.most_of(u) as i128,
    }
}

/// The sum with the parts of the units, each of which is paid so much.
fn with_units(
    from: Running,
    site: &Site<'_>,
    ground: &Ground,
    multipliers: &Multipliers,
    paid: &[i128],
) -> Result<Running, PastSum>
    requires ground { IsGround (net_of site.now) ground.now }
    requires all_paid { length paid.now ≡ 128 }
    requires room { from.at ≤ 140000000 }
    ensures value { (covers : List rules.Cover) → ArePaid paid.now covers
        → IfOk result (λ to. to.sum ≡ from.sum +ℤ total
        (unit_part (net_of site.now) (node_of ground.now.node) (facts_of ground.now.facts)
        multipliers.now.d (entry multipliers.now.ys) covers)
        ground.now.units) }
    ensures in_range { (covers : List rules.Cover) → ArePaid paid.now covers
        → OnOk result (AreInRange
        (units_steps (net_of site.now) (node_of ground.now.node) (facts_of ground.now.facts)
        multipliers.now.d (entry multipliers.now.ys) covers ground.now.units from.sum)) }
    ensures from_start { IfErr result (λ e. from.at ≤ e.at) }
    ensures past { (covers : List rules.Cover) → ArePaid paid.now covers
        → IfErr result (λ e. IsFirstPast
        (units_steps (net_of site.now) (node_of ground.now.node) (facts_of ground.now.facts)
        multipliers.now.d (entry multipliers.now.ys) covers ground.now.units from.sum)
        (e.at - from.at)) }
{
    let problem = site.problem();
    let graph = site.graph();
    let mut rates = [0; 256];
    let mut sum = from.sum;
    let mut at = from.at;
    for u in ground.units {
        let materials = put_rates(&mut rates, problem, graph, u);
        materials.rises();
        let knees = knees_of(&ground.useful, materials, &rates, &multipliers.ys);
        knees.set.rises();
        let terms = Terms {
            is_in: ground.node.inside.has(u),
            costs: costs_of(problem, u, materials, &rates),
            used: used_by(site, &ground.facts, u),
            paid: paid[u as usize],
            sizes: sizes_of(&ground.facts, u),
        };
        match with_unit(
            Running { sum, at },
            multipliers,
            terms,
            materials,
            &rates,
            &knees,
        ) {
            Err(past) => return Err(past),
            Ok(next) => {
                sum = next.sum;
                at = next.at;
            }
        }
    }
    Ok(Running { sum, at })
}

/// The charge of a node, in the measure of costs times `d`. Or the number of the first step of its
/// sum that overflows. If `d` is at least 0, all covers cover the node and no weight is below 0,
/// then no flows that fit the facts cost less than the charge over `d`. It takes no memory.
pub fn charge_of(
    site: &Site<'_>,
    node: &Node,
    facts: &Facts,
    handed: &Charge<'_>,
) -> Result<i128, PastSum>
    requires known { (u : ℕ) → has node.now.inside u ≡ true → u < (shape_of site.now).units }
    requires multipliers { length handed.now.ys.now
        ≡ length (rows (net_of site.now) (node_of node.now)) }
    requires few { length handed.now.covers.now ≤ 1000000 }
    requires beside { AreBesideSmall handed.now.covers.now }
    ensures value { IfOk result (λ b. b
        ≡ charge (net_of site.now) (node_of node.now) (facts_of facts.now) handed.now.d
        (beside (rows (net_of site.now) (node_of node.now)) handed.now.ys.now)
        (covers_of handed.now.covers.now)) }
    ensures in_range { OnOk result (AreInRange
        (charge_steps (net_of site.now) (node_of node.now) (facts_of facts.now) handed.now.d
        (beside (rows (net_of site.now) (node_of node.now)) handed.now.ys.now)
        (covers_of handed.now.covers.now))) }
    ensures past { IfErr result (λ e. IsFirstPast
        (charge_steps (net_of site.now) (node_of node.now) (facts_of facts.now) handed.now.d
        (beside (rows (net_of site.now) (node_of node.now)) handed.now.ys.now)
        (covers_of handed.now.covers.now))
        e.at) }
{
    let problem = site.problem();
    let sets = sets_of(site.graph(), node);
    sets.rows.rises();
    let multipliers = Multipliers {
        d: handed.d,
        ys: table_of(sets.rows, handed.ys),
    };
    match rows_sum(problem, node, sets.rows, sets.needed, &multipliers.ys) {
        Err(past) => Err(past),
        Ok(rows) => match with_worth(rows, facts.demand()) {
            Err(past) => Err(past),
            Ok(asked) => match with_weights(asked, handed.covers) {
                Err(past) => Err(past),
                Ok(sum) => match paid_of(sum.at, handed.covers) {
                    Err(past) => Err(past),
                    Ok(paid) => {
                        let ground = Ground {
                            node: *node,
                            facts: *facts,
                            units: sets.units,
                            useful: useful_at(site, node, &sets, facts),
                        };
                        let from = Running {
                            sum: sum.sum,
                            at: paid.at,
                        };
                        match with_units(from, site, &ground, &multipliers, &paid.to) {
                            Err(past) => Err(past),
                            Ok(all) => Ok(all.sum),
                        }
                    }
                },
            },
        },
    }
}
