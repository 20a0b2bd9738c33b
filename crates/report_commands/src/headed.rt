//! The object of a tree that may have a head.
ghost use Rattle.std.specs.Prelude.{◌≡◌, ◌<◌, ◌^◌, ℕ, List, true, false, length, IfOk, IfErr};
ghost use Rattle.std.specs.Prelude.{codes};
ghost use Rattle.rank_text.specs.tree_rules.Claim.{ClaimPasses};
ghost use Rattle.rank_text.specs.branch_tree.View.{claim_of};
ghost use Rattle.json_text.specs.report_rules.Json.{member, null};
ghost use Rattle.json_text.specs.report_rules.HeadedVerdict.{is_plain};
ghost use Rattle.network_commands.specs.studio_rules.Lines.{text_of};
ghost use Rattle.network_commands.specs.studio_rules.Json as rules;
ghost use Rattle.network_commands.specs.studio_rules.Json.{HeadedFactsSay, JsonSays, JsonSaysBy};
ghost use Rattle.network_commands.specs.studio_rules.Json.{HeadedJsonSays};
ghost use Rattle.network_commands.specs.verdicts.Unjudged.{IsUnjudged, IsUnjudgedIf};

use crate::head::claim_word;
use crate::json_lines::{json_text, text_behind};
use json_text::{HeadedVerdict, Json, text_member};
use network_commands::{Unjudged, headed_verdict_of, is_plain, line_word, verdict_of, why_word};
use rank_text::{Claim, Head, Site, Tree};
use std::alloc::{AllocError, Global};

fn headed_word(verdict: HeadedVerdict) -> &'static str
    ensures { result.now ≡ rules.headed_word verdict }
{
    match verdict {
        HeadedVerdict::Proved => "proved",
        HeadedVerdict::LineFails { .. } | HeadedVerdict::NodeFails { .. } => "not proved",
    }
}

fn line_json(alloc: Global, verdict: HeadedVerdict) -> Result<Json, AllocError>
    ensures { IfOk result (λ json. json ≡ rules.headed_line_json verdict) }
{
    match verdict {
        HeadedVerdict::LineFails { line, .. } => Json::count(alloc, line as u64),
        HeadedVerdict::Proved | HeadedVerdict::NodeFails { .. } => Json::null(alloc),
    }
}

/// The line of the head that fails, under its key.
fn line_member(alloc: Global, verdict: HeadedVerdict) -> Result<Json, AllocError>
    ensures { IfOk result (λ json. json ≡ member (codes "head") (rules.headed_line_json verdict)) }
{
    let line = line_json(alloc, verdict)?;
    Json::member(alloc, "head", &line)
}

fn node_json(alloc: Global, verdict: HeadedVerdict) -> Result<Json, AllocError>
    ensures { IfOk result (λ json. json ≡ rules.headed_node_json verdict) }
{
    match verdict {
        HeadedVerdict::NodeFails { node, .. } => Json::count(alloc, u64::from(node)),
        HeadedVerdict::Proved | HeadedVerdict::LineFails { .. } => Json::null(alloc),
    }
}

/// The node that fails, under its key.
fn node_member(alloc: Global, verdict: HeadedVerdict) -> Result<Json, AllocError>
    ensures { IfOk result (λ json. json ≡ member (codes "node") (rules.headed_node_json verdict)) }
{
    let node = node_json(alloc, verdict)?;
    Json::member(alloc, "node", &node)
}

fn why_json(alloc: Global, verdict: HeadedVerdict) -> Result<Json, AllocError>
    ensures { IfOk result (λ json. json ≡ rules.headed_why_json verdict) }
{
    match verdict {
        HeadedVerdict::Proved => Json::null(alloc),
        HeadedVerdict::LineFails { why, .. } => Json::string(alloc, line_word(why)),
        HeadedVerdict::NodeFails { why, .. } => Json::string(alloc, why_word(why)),
    }
}

/// The cause, under its key.
fn why_member(alloc: Global, verdict: HeadedVerdict) -> Result<Json, AllocError>
    ensures { IfOk result (λ json. json ≡ member (codes "why") (rules.headed_why_json verdict)) }
{
    let why = why_json(alloc, verdict)?;
    Json::member(alloc, "why", &why)
}

/// A key that has no value.
fn null_member(alloc: Global, key: &str) -> Result<Json, AllocError>
    ensures { IfOk result (λ json. json ≡ member key.now null) }
{
    let none = Json::null(alloc)?;
    Json::member(alloc, key, &none)
}

/// What the head and the tree prove, and the facts of the network if one is claimed.
fn headed_text(
    alloc: Global,
    site: &Site<'_>,
    claim: &Claim,
    verdict: HeadedVerdict,
) -> Result<Vec<u8>, AllocError>
    requires passes { ClaimPasses true site.now (claim_of claim.now) }
    ensures { IfOk result
        (λ bytes. (lines : List (List ℕ))
        × HeadedFactsSay site.now (claim_of claim.now) verdict lines
        × (bytes.items ≡ text_of lines)) }
{
    let stated = text_member(alloc, "verdict", headed_word(verdict))?;
    let line = line_member(alloc, verdict)?;
    let node = node_member(alloc, verdict)?;
    let why = why_member(alloc, verdict)?;
    let claimed = text_member(alloc, "claim", claim_word(claim))?;
    let low = null_member(alloc, "low")?;
    let gap = null_member(alloc, "gap")?;
    let head = [stated, line, node, why, claimed, low, gap];
    let bytes = text_behind(alloc, &head, site, claim)?;
    Ok(bytes)
}

/// The object of a tree without a head.
fn plain_object(
    alloc: Global,
    site: &Site<'_>,
    claim: &Claim,
    tree: &Tree,
) -> Result<Vec<u8>, Unjudged>
    requires few { length tree.now < 2 ^ 32 }
    ensures says { IfOk result (λ bytes. (lines : List (List ℕ))
        × JsonSays site.now (claim_of claim.now) tree.now lines × (bytes.items ≡ text_of lines)) }
    ensures unjudged { IfErr result (IsUnjudged site.now (claim_of claim.now)) }
{
    let verdict = verdict_of(alloc, site, claim, tree)?;
    match json_text(alloc, site, claim, verdict) {
        Ok(bytes) => Ok(bytes),
        Err(_) => Err(Unjudged::Memory),
    }
}

/// The object of a tree with a head.
fn headed_object(
    alloc: Global,
    site: &Site<'_>,
    claim: &Claim,
    head: &Head,
    tree: &Tree,
) -> Result<Vec<u8>, Unjudged>
    requires few { length tree.now < 2 ^ 32 }
    ensures says { IfOk result (λ bytes. (lines : List (List ℕ))
        × JsonSaysBy site.now (claim_of claim.now) head.now tree.now lines
        × (bytes.items ≡ text_of lines)) }
    ensures unjudged { IfErr result (IsUnjudgedIf false site.now (claim_of claim.now)) }
{
    let verdict = headed_verdict_of(alloc, site, claim, head, tree)?;
    match headed_text(alloc, site, claim, verdict) {
        Ok(bytes) => Ok(bytes),
        Err(_) => Err(Unjudged::Memory),
    }
}

/// What the tree, and its head if it has one, prove of the claim, with the facts of the network if
/// one is claimed. `Err` says that the claim fails, or that there is no memory.
pub(crate) fn object_of(
    alloc: Global,
    site: &Site<'_>,
    claim: &Claim,
    head: &Head,
    tree: &Tree,
) -> Result<Vec<u8>, Unjudged>
    requires few { length tree.now < 2 ^ 32 }
    ensures says { IfOk result (λ bytes. (lines : List (List ℕ))
        × HeadedJsonSays site.now (claim_of claim.now) head.now tree.now lines
        × (bytes.items ≡ text_of lines)) }
    ensures unjudged { IfErr result
        (IsUnjudgedIf (is_plain head.now) site.now (claim_of claim.now)) }
{
    if is_plain(head) {
        plain_object(alloc, site, claim, tree)
    } else {
        headed_object(alloc, site, claim, head, tree)
    }
}
