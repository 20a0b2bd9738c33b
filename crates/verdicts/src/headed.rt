//! The verdict on a claim with a tree that has a head.
ghost use Rattle.std.specs.Prelude.{◌≡◌, ◌<◌, ◌^◌, length, IfOk, IfErr, true, false};
ghost use Rattle.report_rules.specs.tree_rules.Claim.{ClaimPasses};
ghost use Rattle.tree_parts.specs.branch_tree.View.{claim_of};
ghost use Rattle.report_rules.specs.HeadedVerdict.{is_plain, IsHeadedVerdict};
ghost use Rattle.verdicts.specs.Unjudged.{IsUnjudgedIf};

use crate::verdict::Unjudged;
use report_rules::{HeadRefusal, HeadedVerdict};
use std::alloc::Global;
use tree_parts::{Claim, Head, Site, Tree, check_headed};

/// Whether a head has no lines.
pub fn is_plain(head: &Head) -> bool
    ensures { result ≡ is_plain head.now }
{
    head.lines().is_empty()
}

/// What the head and the tree prove of the claim. The claim is judged first. Neither a claim of
/// nothing nor an open leaf is permitted.
pub fn headed_verdict_of(
    alloc: Global,
    site: &Site<'_>,
    claim: &Claim,
    head: &Head,
    tree: &Tree,
) -> Result<HeadedVerdict, Unjudged>
    requires few { length tree.now < 2 ^ 32 }
    ensures verdict { IfOk result
        (λ v. IsHeadedVerdict site.now (claim_of claim.now) head.now tree.now v) }
    ensures passes { IfOk result (λ v. ClaimPasses true site.now (claim_of claim.now)) }
    ensures unjudged { IfErr result (IsUnjudgedIf false site.now (claim_of claim.now)) }
{
    match check_headed(alloc, site, claim, head, tree) {
        Ok(()) => Ok(HeadedVerdict::Proved),
        Err(HeadRefusal::Line { line, why }) => Ok(HeadedVerdict::LineFails { line, why }),
        Err(HeadRefusal::Node { node, why }) => Ok(HeadedVerdict::NodeFails { node, why }),
        Err(HeadRefusal::Claim(why)) => Err(Unjudged::Claim(why)),
        Err(HeadRefusal::Memory) => Err(Unjudged::Memory),
    }
}
