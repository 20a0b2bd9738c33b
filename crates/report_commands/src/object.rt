//! The object of a ranking.
ghost use Rattle.std.specs.Prelude.{◌≡◌, [], ℕ, List, IfOk, codes};
ghost use Rattle.rank_text.specs.rank_rules.Networks.{ArePassing};
ghost use Rattle.rank_text.specs.rank_rules.Text.{ranking_of};
ghost use Rattle.json_text.specs.report_rules.Facts as facts;
ghost use Rattle.json_text.specs.report_rules.Json.{member};
ghost use Rattle.json_text.specs.report_rules.JsonRanked as ranked;
ghost use Rattle.json_text.specs.report_rules.RankVerdict.{low_of};
ghost use Rattle.network_commands.specs.studio_rules.Lines.{text_of};
ghost use Rattle.network_commands.specs.studio_rules.RankJson as rules;

use crate::first::first_marginals;
use json_text::{
    Json, LowerBound, RankVerdict, bound_member, count_member, first_gap_member, first_of,
    networks_member, text_member,
};
use network_commands::rank_why_word;
use rank_text::{RankText, Site};
use std::alloc::{AllocError, Global};

fn verdict_word(verdict: RankVerdict) -> &'static str
    ensures { result.now ≡ rules.rank_verdict_word verdict }
{
    match verdict {
        RankVerdict::Proved => "proved",
        RankVerdict::Unfinished { .. } => "not finished",
        RankVerdict::Fails { .. } => "not proved",
    }
}

fn node_json(alloc: Global, verdict: RankVerdict) -> Result<Json, AllocError>
    ensures { IfOk result (λ json. json ≡ rules.rank_node_json verdict) }
{
    match verdict {
        RankVerdict::Proved => Json::null(alloc),
        RankVerdict::Unfinished { node, .. } => Json::count(alloc, u64::from(node)),
        RankVerdict::Fails { node, .. } => Json::count(alloc, u64::from(node)),
    }
}

/// The node that is open or fails, under its key.
fn node_member(alloc: Global, verdict: RankVerdict) -> Result<Json, AllocError>
    ensures { IfOk result (λ json. json ≡ member (codes "node") (rules.rank_node_json verdict)) }
{
    let node = node_json(alloc, verdict)?;
    Json::member(alloc, "node", &node)
}

fn why_json(alloc: Global, verdict: RankVerdict) -> Result<Json, AllocError>
    ensures { IfOk result (λ json. json ≡ rules.rank_why_json verdict) }
{
    match verdict {
        RankVerdict::Proved => Json::null(alloc),
        RankVerdict::Unfinished { .. } => Json::string(alloc, "open"),
        RankVerdict::Fails { why, .. } => Json::string(alloc, rank_why_word(why)),
    }
}

/// The cause, under its key.
fn why_member(alloc: Global, verdict: RankVerdict) -> Result<Json, AllocError>
    ensures { IfOk result (λ json. json ≡ member (codes "why") (rules.rank_why_json verdict)) }
{
    let why = why_json(alloc, verdict)?;
    Json::member(alloc, "why", &why)
}

/// What no network costs less than, if it is known.
fn low_of(verdict: RankVerdict) -> Option<LowerBound>
    ensures { result ≡ low_of verdict }
{
    match verdict {
        RankVerdict::Unfinished { low, .. } => low,
        RankVerdict::Proved | RankVerdict::Fails { .. } => None,
    }
}

fn claim_word(distinct: bool) -> &'static str
    ensures { result.now ≡ rules.claim_word distinct }
{
    if distinct { "alternatives" } else { "ranking" }
}

/// How many networks were asked for, under its key.
fn asked_member(alloc: Global, ranking: &RankText) -> Result<Json, AllocError>
    ensures { IfOk result (λ json. json ≡ facts.count_member (codes "asked") ranking.now.count) }
{
    count_member(alloc, "asked", u64::from(ranking.count()))
}

/// The networks, best first, under their key.
fn listed_member(alloc: Global, site: &Site<'_>, ranking: &RankText) -> Result<Json, AllocError>
    ensures { IfOk result
        (λ json. json ≡ ranked.networks_member site.now ranking.now.networks) }
{
    ranking.is_counted();
    let listed = networks_member(alloc, site.problem(), ranking.networks())?;
    Ok(listed)
}

/// What the tree proves, the networks, and the facts of the first.
pub(crate) fn rank_object(
    alloc: Global,
    site: &Site<'_>,
    ranking: &RankText,
    verdict: RankVerdict,
) -> Result<Vec<u8>, AllocError>
    requires listed { ArePassing ranking.now.distinct site.now [] ranking.now.networks }
    ensures { IfOk result
        (λ bytes. (lines : List (List ℕ))
        × rules.RankFactsSay site.now (ranking_of ranking.now) verdict lines
        × (bytes.items ≡ text_of lines)) }
{
    let stated = text_member(alloc, "verdict", verdict_word(verdict))?;
    let node = node_member(alloc, verdict)?;
    let why = why_member(alloc, verdict)?;
    let claimed = text_member(alloc, "claim", claim_word(ranking.is_distinct()))?;
    let networks = ranking.networks();
    let known = low_of(verdict);
    let low = bound_member(alloc, site.problem(), known)?;
    let gap = first_gap_member(alloc, networks, known)?;
    let asked = asked_member(alloc, ranking)?;
    let listed = listed_member(alloc, site, ranking)?;
    let head = [stated, node, why, claimed, low, gap, asked, listed];
    let marginals = first_marginals(alloc, site, networks)?;
    let bytes = first_of(alloc, &head, site, networks, &marginals)?;
    Ok(bytes)
}
