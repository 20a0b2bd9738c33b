//! The charge of a line.
ghost use Rattle.std.specs.Prelude.{◌≡◌, OnOk, IfErr};
ghost use Rattle.tree_text_rules.specs.pns_rules.Shape.{shape_of};
ghost use Rattle.charges.specs.pgraph.View.{node_of};
ghost use Rattle.charges.specs.Known.{facts_of};
ghost use Rattle.cert_check.specs.Known.{KnowsInside};
ghost use Rattle.cert_check.specs.Shown.{cost_over};
ghost use Rattle.tree_text_rules.specs.tree_rules.Charged.{IsCharged};
ghost use Rattle.tree_text_rules.specs.tree_rules.HeadFaults as rules;

use crate::judge_charge;
use crate::known::Known;
use branch_tree::Scaled;
use charges::{Charge, CostOver, Covers, Site};
use tree_text_rules::{ChargeWhy, LineWhy};

/// The cause of a charge that fails, as that of its line.
fn line_why(why: ChargeWhy) -> LineWhy
    ensures { result ≡ rules.line_why why }
{
    match why {
        ChargeWhy::Bound => LineWhy::Bound,
        ChargeWhy::Cover => LineWhy::Cover,
        ChargeWhy::Sum => LineWhy::Sum,
    }
}

/// What a line gives for its charge, and the cost that is claimed.
#[derive(Clone, Copy)]
pub(crate) struct Given<'a> {
    pub(crate) claimed: Option<CostOver>,
    pub(crate) scaled: &'a Scaled,
    pub(crate) covers: &'a Covers,
}

/// The node is to be charged what is claimed, with these facts.
pub(crate) fn judge_charged(
    site: &Site<'_>,
    known: &Known,
    given: &Given<'_>,
) -> Result<(), LineWhy>
    requires inside { KnowsInside (shape_of site.now) (node_of known.now.node) }
    ensures passes { OnOk result
        (IsCharged site.now (cost_over given.now.claimed) (node_of known.now.node)
        (facts_of known.now.facts) given.now.scaled.now.d given.now.scaled.now.ys
        given.now.covers.now) }
    ensures fails { IfErr result
        (rules.ChargeFails site.now (cost_over given.now.claimed) (node_of known.now.node)
        (facts_of known.now.facts) given.now.scaled.now.d given.now.scaled.now.ys
        given.now.covers.now) }
{
    given.covers.are_kept();
    let charge = Charge {
        d: given.scaled.d(),
        ys: given.scaled.ys(),
        covers: given.covers.covers(),
    };
    match judge_charge(site, &known.node, &known.facts, given.claimed, &charge) {
        Ok(()) => Ok(()),
        Err(why) => Err(line_why(why)),
    }
}
