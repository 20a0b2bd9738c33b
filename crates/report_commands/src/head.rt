//! The members with the verdict and the claim.
ghost use Rattle.std.specs.Prelude.{◌≡◌, IfOk, codes};
ghost use Rattle.rank_text.specs.branch_tree.View.{claim_of};
ghost use Rattle.json_text.specs.report_rules.Json.{member};
ghost use Rattle.network_commands.specs.studio_rules.Json as rules;

use json_text::{Json, Verdict};
use network_commands::why_word;
use rank_text::Claim;
use std::alloc::{AllocError, Global};

pub(crate) fn verdict_word(verdict: Verdict) -> &'static str
    ensures { result.now ≡ rules.verdict_word verdict }
{
    match verdict {
        Verdict::Proved => "proved",
        Verdict::Unfinished { .. } => "not finished",
        Verdict::Fails { .. } => "not proved",
    }
}

fn node_json(alloc: Global, verdict: Verdict) -> Result<Json, AllocError>
    ensures { IfOk result (λ json. json ≡ rules.node_json verdict) }
{
    match verdict {
        Verdict::Proved | Verdict::Unfinished { .. } => Json::null(alloc),
        Verdict::Fails { node, .. } => Json::count(alloc, u64::from(node)),
    }
}

/// The node that fails, under its key.
pub(crate) fn node_member(alloc: Global, verdict: Verdict) -> Result<Json, AllocError>
    ensures { IfOk result (λ json. json ≡ member (codes "node") (rules.node_json verdict)) }
{
    let node = node_json(alloc, verdict)?;
    Json::member(alloc, "node", &node)
}

fn why_json(alloc: Global, verdict: Verdict) -> Result<Json, AllocError>
    ensures { IfOk result (λ json. json ≡ rules.why_json verdict) }
{
    match verdict {
        Verdict::Proved | Verdict::Unfinished { .. } => Json::null(alloc),
        Verdict::Fails { why, .. } => Json::string(alloc, why_word(why)),
    }
}

/// The cause, under its key.
pub(crate) fn why_member(alloc: Global, verdict: Verdict) -> Result<Json, AllocError>
    ensures { IfOk result (λ json. json ≡ member (codes "why") (rules.why_json verdict)) }
{
    let why = why_json(alloc, verdict)?;
    Json::member(alloc, "why", &why)
}

pub(crate) fn claim_word(claim: &Claim) -> &'static str
    ensures { result.now ≡ rules.claim_word (claim_of claim.now) }
{
    match claim {
        Claim::Network(_) => "network",
        Claim::Infeasible => "infeasible",
        Claim::Unknown => "unknown",
    }
}
