//! The whole object.
ghost use Rattle.std.specs.Prelude.{◌≡◌, ℕ, List, true, IfOk};
ghost use Rattle.rank_text.specs.tree_rules.Claim.{ClaimPasses, IsFeasible};
ghost use Rattle.json_text.specs.report_rules.Facts.{fact_lines};
ghost use Rattle.json_text.specs.report_rules.Marginal.{Marginals, AreMarginals, AreClaimMarginals};
ghost use Rattle.rank_text.specs.branch_tree.View.{claim_of};
ghost use Rattle.network_commands.specs.studio_rules.Lines.{text_of};
ghost use Rattle.network_commands.specs.studio_rules.Json.{lines_behind, FactsSay};

use crate::head::{claim_word, node_member, verdict_word, why_member};
use json_text::{
    Json, Verdict, bare_of, facts_of, gap_member, low_member, marginals_of, text_member,
};
use rank_text::{Claim, Network, Site};
use std::alloc::{AllocError, Global};

/// The object of a network, with its marginals.
fn network_text(
    alloc: Global,
    head: &[Json],
    site: &Site<'_>,
    network: &Network,
) -> Result<Vec<u8>, AllocError>
    requires feasible { IsFeasible site.now network.now }
    ensures { IfOk result
        (λ bytes. (m : Marginals) × AreMarginals site.now network.now.units m
        × (bytes.items ≡ text_of (fact_lines head.now site.now network.now m))) }
{
    let marginals = marginals_of(alloc, site, network)?;
    let bytes = facts_of(alloc, head, site, network, &marginals)?;
    Ok(bytes)
}

/// The object that begins with the members of the head.
pub(crate) fn text_behind(
    alloc: Global,
    head: &[Json],
    site: &Site<'_>,
    claim: &Claim,
) -> Result<Vec<u8>, AllocError>
    requires passes { ClaimPasses true site.now (claim_of claim.now) }
    ensures { IfOk result
        (λ bytes. (m : Marginals) × AreClaimMarginals site.now (claim_of claim.now) m
        × (bytes.items ≡ text_of (lines_behind head.now site.now m (claim_of claim.now)))) }
{
    match claim {
        Claim::Network(network) => network_text(alloc, head, site, network),
        Claim::Infeasible => bare_of(alloc, head),
        Claim::Unknown => bare_of(alloc, head),
    }
}

/// What the tree proves, and the facts of the network if one is claimed.
pub(crate) fn json_text(
    alloc: Global,
    site: &Site<'_>,
    claim: &Claim,
    verdict: Verdict,
) -> Result<Vec<u8>, AllocError>
    requires passes { ClaimPasses true site.now (claim_of claim.now) }
    ensures { IfOk result
        (λ bytes. (lines : List (List ℕ)) × FactsSay site.now (claim_of claim.now) verdict lines
        × (bytes.items ≡ text_of lines)) }
{
    let stated = text_member(alloc, "verdict", verdict_word(verdict))?;
    let node = node_member(alloc, verdict)?;
    let why = why_member(alloc, verdict)?;
    let claimed = text_member(alloc, "claim", claim_word(claim))?;
    let low = low_member(alloc, site.problem(), verdict)?;
    let gap = gap_member(alloc, claim, verdict)?;
    let head = [stated, node, why, claimed, low, gap];
    let bytes = text_behind(alloc, &head, site, claim)?;
    Ok(bytes)
}
