//! The report of a tree that may have a head.
ghost use Rattle.std.specs.Prelude.{◌≡◌, ◌<◌, ◌^◌, ◌++◌, ◌∷◌, [], ℕ, List, true, false, length};
ghost use Rattle.std.specs.Prelude.{IfOk, IfErr, OnOk, string_bytes};
ghost use Rattle.verdicts.specs.tree_rules.Claim.{ClaimPasses};
ghost use Rattle.verdicts.specs.branch_tree.View.{claim_of};
ghost use Rattle.verdicts.specs.report_rules.HeadedVerdict.{is_plain};
ghost use Rattle.verdicts.specs.report_rules.Marginal.{Marginals, AreClaimMarginals};
ghost use Rattle.command_files.specs.studio_rules.Lines.{text_of};
ghost use Rattle.command_files.specs.studio_rules.Report.{failing_head_line, headed_first_line};
ghost use Rattle.command_files.specs.studio_rules.Report.{headed_tables};
ghost use Rattle.command_files.specs.studio_rules.Report.{ReportSays, ReportSaysBy};
ghost use Rattle.command_files.specs.studio_rules.Report.{HeadedVerdictSays};
ghost use Rattle.command_files.specs.studio_rules.Report.{HeadedReportSays};
ghost use Rattle.verdicts.specs.Unjudged.{IsUnjudged, IsUnjudgedIf};

use crate::verdict_lines::{network_text, push_failing, push_proved, verdict_text};
use command_files::line_word;
use report_tables::Plant;
use std::alloc::{AllocError, Global};
use verdicts::{
    Claim, Head, HeadedVerdict, LineWhy, Problem, Tree, Unjudged, headed_verdict_of, is_plain,
    verdict_of,
};

fn push_failing_head(text: &mut String, number: usize, why: LineWhy) -> Result<(), AllocError>
    ensures { OnOk result
        (string_bytes text.new ≡ string_bytes text.old ++ failing_head_line number why) }
{
    text.push_str("NOT PROVED: head ")?;
    write!(text, "{number}")?;
    text.push(' ')?;
    text.push_str(line_word(why))?;
    Ok(())
}

/// Appends what the head and the tree prove.
fn push_first(
    text: &mut String,
    problem: &Problem,
    claim: &Claim,
    verdict: HeadedVerdict,
) -> Result<(), AllocError>
    ensures { OnOk result
        (string_bytes text.new ≡ string_bytes text.old
        ++ headed_first_line problem.now (claim_of claim.now) verdict) }
{
    match verdict {
        HeadedVerdict::Proved => push_proved(text, problem, claim),
        HeadedVerdict::LineFails { line, why } => push_failing_head(text, line, why),
        HeadedVerdict::NodeFails { node, why } => push_failing(text, node, why),
    }
}

/// The first line, with its line feed.
fn first_text(
    alloc: Global,
    problem: &Problem,
    claim: &Claim,
    verdict: HeadedVerdict,
) -> Result<Vec<u8>, AllocError>
    ensures { IfOk result
        (λ bytes. bytes.items
        ≡ headed_first_line problem.now (claim_of claim.now) verdict ++ 10 ∷ []) }
{
    let mut text = String::new(alloc);
    push_first(&mut text, problem, claim, verdict)?;
    text.push('\n')?;
    Ok(text.into_bytes())
}

/// The tables of the network, if one is claimed.
fn tables_of(alloc: Global, plant: &Plant<'_>, claim: &Claim) -> Result<Vec<u8>, AllocError>
    requires passes { ClaimPasses true plant.now.site.now (claim_of claim.now) }
    ensures { IfOk result
        (λ bytes. (m : Marginals) × AreClaimMarginals plant.now.site.now (claim_of claim.now) m
        × (bytes.items ≡ text_of
        (headed_tables plant.now.measures.now plant.now.site.now m (claim_of claim.now)))) }
{
    match claim {
        Claim::Network(network) => network_text(alloc, plant, network),
        Claim::Infeasible => Ok(Vec::new(alloc)),
        Claim::Unknown => Ok(Vec::new(alloc)),
    }
}

/// What the head and the tree prove, and after it the tables of the network if one is claimed.
fn headed_text(
    alloc: Global,
    plant: &Plant<'_>,
    claim: &Claim,
    verdict: HeadedVerdict,
) -> Result<Vec<u8>, AllocError>
    requires passes { ClaimPasses true plant.now.site.now (claim_of claim.now) }
    ensures { IfOk result
        (λ bytes. (lines : List (List ℕ))
        × HeadedVerdictSays plant.now.measures.now plant.now.site.now (claim_of claim.now) verdict
        lines
        × (bytes.items ≡ text_of lines)) }
{
    let mut bytes = first_text(alloc, plant.site.problem(), claim, verdict)?;
    let tables = tables_of(alloc, plant, claim)?;
    bytes.extend_from_slice(&tables)?;
    Ok(bytes)
}

/// The report of a tree without a head.
fn plain_report(
    alloc: Global,
    plant: &Plant<'_>,
    claim: &Claim,
    tree: &Tree,
) -> Result<Vec<u8>, Unjudged>
    requires few { length tree.now < 2 ^ 32 }
    ensures says { IfOk result (λ bytes. (lines : List (List ℕ))
        × ReportSays plant.now.measures.now plant.now.site.now (claim_of claim.now) tree.now lines
        × (bytes.items ≡ text_of lines)) }
    ensures unjudged { IfErr result (IsUnjudged plant.now.site.now (claim_of claim.now)) }
{
    let verdict = verdict_of(alloc, plant.site, claim, tree)?;
    match verdict_text(alloc, plant, claim, tree, verdict) {
        Ok(bytes) => Ok(bytes),
        Err(_) => Err(Unjudged::Memory),
    }
}

/// What a head and a tree prove of the claim, as if the head had lines. The tables of the network
/// follow if one is claimed. `Err` says that the claim fails, or that there is no memory.
pub fn report_text_by(
    alloc: Global,
    plant: &Plant<'_>,
    claim: &Claim,
    head: &Head,
    tree: &Tree,
) -> Result<Vec<u8>, Unjudged>
    requires few { length tree.now < 2 ^ 32 }
    ensures says { IfOk result (λ bytes. (lines : List (List ℕ))
        × ReportSaysBy plant.now.measures.now plant.now.site.now (claim_of claim.now) head.now
        tree.now lines
        × (bytes.items ≡ text_of lines)) }
    ensures unjudged { IfErr result (IsUnjudgedIf false plant.now.site.now (claim_of claim.now)) }
{
    let verdict = headed_verdict_of(alloc, plant.site, claim, head, tree)?;
    match headed_text(alloc, plant, claim, verdict) {
        Ok(bytes) => Ok(bytes),
        Err(_) => Err(Unjudged::Memory),
    }
}

/// What the tree, and its head if it has one, prove of the claim. The tables of the network follow
/// if one is claimed, or the bounds that clash if it is proved without a head that no network meets
/// the bounds. `Err` says that the claim fails, or that there is no memory.
pub fn headed_report_text(
    alloc: Global,
    plant: &Plant<'_>,
    claim: &Claim,
    head: &Head,
    tree: &Tree,
) -> Result<Vec<u8>, Unjudged>
    requires few { length tree.now < 2 ^ 32 }
    ensures says { IfOk result (λ bytes. (lines : List (List ℕ))
        × HeadedReportSays plant.now.measures.now plant.now.site.now (claim_of claim.now) head.now
        tree.now lines
        × (bytes.items ≡ text_of lines)) }
    ensures unjudged { IfErr result
        (IsUnjudgedIf (is_plain head.now) plant.now.site.now (claim_of claim.now)) }
{
    if is_plain(head) {
        plain_report(alloc, plant, claim, tree)
    } else {
        report_text_by(alloc, plant, claim, head, tree)
    }
}
