//! The verdict on a ranking.
ghost use Rattle.std.specs.Prelude.{◌<◌, ◌^◌, [], length, IfOk, IfErr};
ghost use Rattle.report_rules.specs.rank_rules.Networks.{ArePassing};
ghost use Rattle.report_rules.specs.rank_rules.Text.{ranking_of};
ghost use Rattle.report_rules.specs.rank_rules.declared.why.RankWhy.TheVariants as causes;
ghost use Rattle.report_rules.specs.tree_rules.declared.why.Why.TheVariants as whys;
ghost use Rattle.report_rules.specs.RankLow.{AllCostEnough};
ghost use Rattle.report_rules.specs.RankVerdict as rules;
ghost use Rattle.report_rules.specs.RankVerdict.{StopsAt, IsRankVerdict};
ghost use Rattle.verdicts.specs.RankUnjudged.{IsRankUnjudged};

use crate::rank_low::rank_low;
use rank_check::{RankRefusal, RankText, check_rank};
use report_rules::{RankVerdict, RankWhy, Why};
use std::alloc::Global;
use tree_parts::Site;

/// Why there is no verdict.
#[derive(Clone, Copy, Debug, PartialEq, Eq)]
pub enum RankUnjudged {
    /// There was no memory for the walk through the tree.
    Memory,
    /// Of the networks, counted from 1, this is the first that fails.
    Network { number: u32, why: RankWhy },
}

/// The verdict on a ranking whose first node that does not pass is open.
fn open_verdict(
    alloc: Global,
    site: &Site<'_>,
    text: &RankText,
    node: u32,
) -> Result<RankVerdict, RankUnjudged>
    requires few { length text.now.tree < 2 ^ 32 }
    requires stops { StopsAt site.now (ranking_of text.now) node (causes.Plain whys.Open) }
    ensures verdict { IfOk result (IsRankVerdict site.now (ranking_of text.now)) }
    ensures enough { IfOk result (λ v. AllCostEnough site.now (rules.low_of v)) }
    ensures unjudged { IfErr result (IsRankUnjudged site.now (ranking_of text.now)) }
{
    match rank_low(alloc, site, text) {
        Ok(low) => Ok(RankVerdict::Unfinished { node, low }),
        Err(_) => Err(RankUnjudged::Memory),
    }
}

/// The verdict on a ranking of which this node is the first that does not pass, for a cause that
/// nodes of other trees have too.
fn plain_verdict(
    alloc: Global,
    site: &Site<'_>,
    text: &RankText,
    node: u32,
    why: Why,
) -> Result<RankVerdict, RankUnjudged>
    requires few { length text.now.tree < 2 ^ 32 }
    requires stops { StopsAt site.now (ranking_of text.now) node (causes.Plain why) }
    ensures verdict { IfOk result (IsRankVerdict site.now (ranking_of text.now)) }
    ensures enough { IfOk result (λ v. AllCostEnough site.now (rules.low_of v)) }
    ensures unjudged { IfErr result (IsRankUnjudged site.now (ranking_of text.now)) }
{
    match why {
        Why::Open => open_verdict(alloc, site, text, node),
        other => Ok(RankVerdict::Fails {
            node,
            why: RankWhy::Plain(other),
        }),
    }
}

/// The verdict on a ranking of which this node is the first that does not pass.
fn node_verdict(
    alloc: Global,
    site: &Site<'_>,
    text: &RankText,
    node: u32,
    why: RankWhy,
) -> Result<RankVerdict, RankUnjudged>
    requires few { length text.now.tree < 2 ^ 32 }
    requires stops { StopsAt site.now (ranking_of text.now) node why }
    ensures verdict { IfOk result (IsRankVerdict site.now (ranking_of text.now)) }
    ensures enough { IfOk result (λ v. AllCostEnough site.now (rules.low_of v)) }
    ensures unjudged { IfErr result (IsRankUnjudged site.now (ranking_of text.now)) }
{
    match why {
        RankWhy::Plain(cause) => plain_verdict(alloc, site, text, node, cause),
        other => Ok(RankVerdict::Fails { node, why: other }),
    }
}

/// What the tree proves of the networks. These are judged first.
pub fn rank_verdict_of(
    alloc: Global,
    site: &Site<'_>,
    text: &RankText,
) -> Result<RankVerdict, RankUnjudged>
    requires few { length text.now.tree < 2 ^ 32 }
    ensures verdict { IfOk result (λ v. IsRankVerdict site.now (ranking_of text.now) v) }
    ensures listed { IfOk result
        (λ v. ArePassing text.now.distinct site.now [] text.now.networks) }
    ensures unjudged { IfErr result (IsRankUnjudged site.now (ranking_of text.now)) }
    // No network costs less than the lower bound, if it is known.
    ensures enough { IfOk result (λ v. AllCostEnough site.now (rules.low_of v)) }
{
    match check_rank(alloc, site, text) {
        Ok(()) => Ok(RankVerdict::Proved),
        Err(RankRefusal::Node { node, why }) => node_verdict(alloc, site, text, node, why),
        Err(RankRefusal::Network { number, why }) => Err(RankUnjudged::Network { number, why }),
        Err(RankRefusal::Memory) => Err(RankUnjudged::Memory),
    }
}
