//! The lower bound of a ranking.
ghost use Rattle.std.specs.Prelude.{◌<◌, ◌^◌, length, IfOk};
ghost use Rattle.report_rules.specs.rank_rules.Text.{ranking_of};
ghost use Rattle.report_rules.specs.RankLow.{IsRankLow, AllCostEnough};

use crate::low_of;
use crate::plain::{best_claim, plain_tree};
use rank_check::RankText;
use report_rules::LowerBound;
use std::alloc::{AllocError, Global};
use tree_parts::Site;

/// The lower bound of the ranking, if it is known.
pub(crate) fn rank_low(
    alloc: Global,
    site: &Site<'_>,
    text: &RankText,
) -> Result<Option<LowerBound>, AllocError>
    requires few { length text.now.tree < 2 ^ 32 }
    ensures low { IfOk result (IsRankLow site.now (ranking_of text.now)) }
    ensures enough { IfOk result (AllCostEnough site.now) }
{
    let claim = best_claim(alloc, text.networks())?;
    let tree = plain_tree(alloc, text)?;
    let low = low_of(alloc, site, &claim, &tree)?;
    Ok(low)
}
