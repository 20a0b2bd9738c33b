//! One line of a head.
ghost use Rattle.std.specs.Prelude.{◌≡◌, IfOk, IfErr};
ghost use Rattle.tree_text_rules.specs.pns_rules.Shape.{shape_of};
ghost use Rattle.charges.specs.pgraph.View.{node_of, step_of};
ghost use Rattle.charges.specs.Known.{demand_of};
ghost use Rattle.cert_check.specs.Known.{KnowsInside};
ghost use Rattle.cert_check.specs.Shown.{cost_over};
ghost use Rattle.tree_text_rules.specs.tree_rules.Head.{step, cap, out, trim, uses};
ghost use Rattle.branch_tree.specs.HeadView.{line_of};
ghost use Rattle.cert_check.specs.View.{known_of};
ghost use Rattle.cert_check.specs.Lines.{IsJudged, Fails};

use crate::after_steps;
use crate::charged::{Given, judge_charged};
use crate::known::{Known, with_in, with_out};
use crate::sizes::size_of_cap;
use crate::trim::trimmed;
use crate::uses::amount_of_use;
use branch_tree::HeadLine;
use charges::{CostOver, Demand, Site, Step, is_free};
use tree_text_rules::LineWhy;

/// Judges a step.
fn judge_step(
    site: &Site<'_>,
    known: &Known,
    claimed: Option<CostOver>,
    taken: Step,
) -> Result<Known, LineWhy>
    requires inside { KnowsInside (shape_of site.now) (node_of known.now.node) }
    ensures passes { IfOk result
        (IsJudged site.now (cost_over claimed) (known_of known.now) (step (step_of taken))) }
    ensures fails { IfErr result
        (Fails site.now (cost_over claimed) (known_of known.now) (step (step_of taken))) }
{
    let steps = [taken];
    match after_steps(site.graph(), &known.node, &steps) {
        Some(node) => Ok(Known {
            node,
            facts: known.facts,
        }),
        None => Err(LineWhy::Step),
    }
}

/// Judges a size that the unit has at most.
fn judge_cap(
    site: &Site<'_>,
    known: &Known,
    unit: u32,
    size: i128,
    given: &Given<'_>,
) -> Result<Known, LineWhy>
    requires inside { KnowsInside (shape_of site.now) (node_of known.now.node) }
    ensures passes { IfOk result
        (IsJudged site.now (cost_over given.now.claimed) (known_of known.now)
        (cap unit size given.now.scaled.now.d given.now.scaled.now.ys given.now.covers.now)) }
    ensures fails { IfErr result
        (Fails site.now (cost_over given.now.claimed) (known_of known.now)
        (cap unit size given.now.scaled.now.d given.now.scaled.now.ys given.now.covers.now)) }
{
    site.graph();
    let Some(most) = size_of_cap(site, known, unit, size) else {
        return Err(LineWhy::Fact);
    };
    let larger = Known {
        node: with_in(&known.node, unit),
        facts: known.facts.with_least(unit, most),
    };
    match judge_charged(site, &larger, given) {
        Ok(()) => Ok(Known {
            node: known.node,
            facts: known.facts.with_most(unit, most),
        }),
        Err(why) => Err(why),
    }
}

/// Judges a unit that is left out.
fn judge_out(site: &Site<'_>, known: &Known, unit: u32, given: &Given<'_>) -> Result<Known, LineWhy>
    requires inside { KnowsInside (shape_of site.now) (node_of known.now.node) }
    ensures passes { IfOk result
        (IsJudged site.now (cost_over given.now.claimed) (known_of known.now)
        (out unit given.now.scaled.now.d given.now.scaled.now.ys given.now.covers.now)) }
    ensures fails { IfErr result
        (Fails site.now (cost_over given.now.claimed) (known_of known.now)
        (out unit given.now.scaled.now.d given.now.scaled.now.ys given.now.covers.now)) }
{
    if !is_free(site.graph(), &known.node, unit) {
        return Err(LineWhy::Fact);
    }
    let taken = Known {
        node: with_in(&known.node, unit),
        facts: known.facts,
    };
    match judge_charged(site, &taken, given) {
        Ok(()) => Ok(Known {
            node: with_out(&known.node, unit),
            facts: known.facts,
        }),
        Err(why) => Err(why),
    }
}

/// Judges a unit of which no more is of use.
fn judge_trim(
    site: &Site<'_>,
    known: &Known,
    claimed: Option<CostOver>,
    unit: u32,
) -> Result<Known, LineWhy>
    requires inside { KnowsInside (shape_of site.now) (node_of known.now.node) }
    ensures passes { IfOk result
        (IsJudged site.now (cost_over claimed) (known_of known.now) (trim unit)) }
    ensures fails { IfErr result
        (Fails site.now (cost_over claimed) (known_of known.now) (trim unit)) }
{
    site.graph();
    match trimmed(site, known, unit) {
        Some(most) => Ok(Known {
            node: known.node,
            facts: known.facts.with_most(unit, most),
        }),
        None => Err(LineWhy::Trim),
    }
}

/// Judges an amount of a material that is used at most.
fn judge_use(
    site: &Site<'_>,
    known: &Known,
    demand: Demand,
    given: &Given<'_>,
) -> Result<Known, LineWhy>
    requires inside { KnowsInside (shape_of site.now) (node_of known.now.node) }
    ensures passes { IfOk result
        (IsJudged site.now (cost_over given.now.claimed) (known_of known.now)
        (uses (demand_of demand) given.now.scaled.now.d given.now.scaled.now.ys
        given.now.covers.now)) }
    ensures fails { IfErr result
        (Fails site.now (cost_over given.now.claimed) (known_of known.now)
        (uses (demand_of demand) given.now.scaled.now.d given.now.scaled.now.ys
        given.now.covers.now)) }
{
    let Some(amount) = amount_of_use(site, known, demand) else {
        return Err(LineWhy::Fact);
    };
    let asked = Known {
        node: known.node,
        facts: known.facts.with_demand(demand),
    };
    match judge_charged(site, &asked, given) {
        Ok(()) => Ok(Known {
            node: known.node,
            facts: known.facts.with_used(demand.of, amount),
        }),
        Err(why) => Err(why),
    }
}

/// Judges one line by what is known at its place, and gives what is known after it.
pub fn judge_line(
    site: &Site<'_>,
    known: &Known,
    claimed: Option<CostOver>,
    line: &HeadLine,
) -> Result<Known, LineWhy>
    requires inside { KnowsInside (shape_of site.now) (node_of known.now.node) }
    ensures passes { IfOk result
        (IsJudged site.now (cost_over claimed) (known_of known.now) (line_of line.now)) }
    ensures fails { IfErr result
        (Fails site.now (cost_over claimed) (known_of known.now) (line_of line.now)) }
{
    match line {
        HeadLine::Step(taken) => judge_step(site, known, claimed, *taken),
        HeadLine::Cap {
            unit,
            size,
            scaled,
            covers,
        } => {
            let given = Given {
                claimed,
                scaled,
                covers,
            };
            judge_cap(site, known, *unit, *size, &given)
        }
        HeadLine::Out {
            unit,
            scaled,
            covers,
        } => {
            let given = Given {
                claimed,
                scaled,
                covers,
            };
            judge_out(site, known, *unit, &given)
        }
        HeadLine::Trim(unit) => judge_trim(site, known, claimed, *unit),
        HeadLine::Use {
            material,
            amount,
            worth,
            scaled,
            covers,
        } => {
            let demand = Demand {
                of: *material,
                amount: *amount,
                worth: *worth,
            };
            let given = Given {
                claimed,
                scaled,
                covers,
            };
            judge_use(site, known, demand, &given)
        }
    }
}
