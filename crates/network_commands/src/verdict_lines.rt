//! A line with what a tree proves, and after it the tables of the network of the claim, or the
//! bounds that clash.
ghost use Rattle.std.specs.Prelude.{◌≡◌, ◌<◌, ◌^◌, ◌++◌, ◌∷◌, [], ℕ, List, true, length, IfOk};
ghost use Rattle.std.specs.Prelude.{OnOk, None, string_bytes};
ghost use Rattle.verdicts.specs.tree_rules.Claim as claims;
ghost use Rattle.verdicts.specs.tree_rules.Claim.{ClaimPasses, IsFeasible};
ghost use Rattle.verdicts.specs.branch_tree.View.{claim_of};
ghost use Rattle.verdicts.specs.report_rules.Marginal.{Marginals, AreMarginals, AreClaimMarginals};
ghost use Rattle.verdicts.specs.report_rules.Report.{report_lines};
ghost use Rattle.verdicts.specs.report_rules.Verdict.{IsVerdict};
ghost use Rattle.command_files.specs.studio_rules.Lines.{text_of};
ghost use Rattle.command_files.specs.studio_rules.Report.{proved_line, low_words, gap_behind};
ghost use Rattle.command_files.specs.studio_rules.Report.{none_found_line, unfinished_line};
ghost use Rattle.command_files.specs.studio_rules.Report.{failing_line};
ghost use Rattle.command_files.specs.studio_rules.Report.{first_line};
ghost use Rattle.command_files.specs.studio_rules.Report.{tables_of, VerdictSays};

use command_files::why_word;
use report_tables::{Plant, clashes_of, marginals_of, push_gap, push_low, push_total, report_of};
use std::alloc::{AllocError, Global};
use verdicts::{Claim, LowerBound, Network, Problem, Tree, Verdict, Why};

fn push_least(text: &mut String, problem: &Problem, network: &Network) -> Result<(), AllocError>
    ensures { OnOk result
        (string_bytes text.new ≡ string_bytes text.old
        ++ proved_line problem.now (claims.network network.now)) }
{
    text.push_str("PROVED: this network costs ")?;
    push_total(text, problem, network)?;
    text.push_str(", and no allowed network costs less")?;
    Ok(())
}

/// Appends that the claim is proved.
pub(crate) fn push_proved(
    text: &mut String,
    problem: &Problem,
    claim: &Claim,
) -> Result<(), AllocError>
    ensures { OnOk result
        (string_bytes text.new ≡ string_bytes text.old
        ++ proved_line problem.now (claim_of claim.now)) }
{
    match claim {
        Claim::Network(network) => push_least(text, problem, network),
        Claim::Infeasible | Claim::Unknown => text.push_str("PROVED: no network meets the bounds"),
    }
}

/// Appends the lower bound, if one is known.
pub fn push_low_words(
    text: &mut String,
    problem: &Problem,
    low: Option<LowerBound>,
) -> Result<(), AllocError>
    ensures { OnOk result
        (string_bytes text.new ≡ string_bytes text.old ++ low_words problem.now low) }
{
    let Some(low) = low else {
        return Ok(());
    };
    text.push_str(", no network costs less than ")?;
    push_low(text, problem, &low)?;
    Ok(())
}

/// Appends its gap, if it is known.
pub fn push_gap_behind(
    text: &mut String,
    network: &Network,
    low: Option<LowerBound>,
) -> Result<(), AllocError>
    ensures { OnOk result
        (string_bytes text.new ≡ string_bytes text.old ++ gap_behind network.now low) }
{
    match low {
        None => Ok(()),
        Some(low) => push_gap(text, network, &low),
    }
}

fn push_best(
    text: &mut String,
    problem: &Problem,
    network: &Network,
    low: Option<LowerBound>,
) -> Result<(), AllocError>
    ensures { OnOk result
        (string_bytes text.new ≡ string_bytes text.old
        ++ unfinished_line problem.now (claims.network network.now) low) }
{
    text.push_str("NOT FINISHED: best so far ")?;
    push_total(text, problem, network)?;
    push_low_words(text, problem, low)?;
    push_gap_behind(text, network, low)?;
    Ok(())
}

fn push_none_found(
    text: &mut String,
    problem: &Problem,
    low: Option<LowerBound>,
) -> Result<(), AllocError>
    ensures { OnOk result
        (string_bytes text.new ≡ string_bytes text.old ++ none_found_line problem.now low) }
{
    text.push_str("NOT FINISHED: no network found so far")?;
    push_low_words(text, problem, low)?;
    Ok(())
}

fn push_unfinished(
    text: &mut String,
    problem: &Problem,
    claim: &Claim,
    low: Option<LowerBound>,
) -> Result<(), AllocError>
    ensures { OnOk result
        (string_bytes text.new ≡ string_bytes text.old
        ++ unfinished_line problem.now (claim_of claim.now) low) }
{
    match claim {
        Claim::Network(network) => push_best(text, problem, network, low),
        Claim::Infeasible | Claim::Unknown => push_none_found(text, problem, low),
    }
}

/// Appends which node fails first, and why.
pub(crate) fn push_failing(text: &mut String, node: u32, why: Why) -> Result<(), AllocError>
    ensures { OnOk result (string_bytes text.new ≡ string_bytes text.old ++ failing_line node why) }
{
    text.push_str("NOT PROVED: node ")?;
    write!(text, "{node}")?;
    text.push(' ')?;
    text.push_str(why_word(why))?;
    Ok(())
}

/// Appends what the tree proves.
fn push_first(
    text: &mut String,
    problem: &Problem,
    claim: &Claim,
    verdict: Verdict,
) -> Result<(), AllocError>
    ensures { OnOk result
        (string_bytes text.new ≡ string_bytes text.old
        ++ first_line problem.now (claim_of claim.now) verdict) }
{
    match verdict {
        Verdict::Proved => push_proved(text, problem, claim),
        Verdict::Unfinished { low } => push_unfinished(text, problem, claim, low),
        Verdict::Fails { node, why } => push_failing(text, node, why),
    }
}

/// The first line, with its line feed.
fn first_text(
    alloc: Global,
    problem: &Problem,
    claim: &Claim,
    verdict: Verdict,
) -> Result<Vec<u8>, AllocError>
    ensures { IfOk result
        (λ bytes. bytes.items ≡ first_line problem.now (claim_of claim.now) verdict ++ 10 ∷ []) }
{
    let mut text = String::new(alloc);
    push_first(&mut text, problem, claim, verdict)?;
    text.push('\n')?;
    Ok(text.into_bytes())
}

/// The bounds that clash, if the tree proves that no network meets the bounds.
fn clash_text(
    alloc: Global,
    plant: &Plant<'_>,
    tree: &Tree,
    verdict: Verdict,
) -> Result<Vec<u8>, AllocError>
    requires few { length tree.now < 2 ^ 32 }
    requires verdict { IsVerdict plant.now.site.now claims.infeasible tree.now verdict }
    ensures { IfOk result
        (λ bytes. bytes.items
        ≡ text_of
        (tables_of plant.now.measures.now plant.now.site.now None claims.infeasible tree.now
        verdict)) }
{
    match verdict {
        Verdict::Proved => clashes_of(alloc, plant.site, tree),
        Verdict::Unfinished { .. } | Verdict::Fails { .. } => Ok(Vec::new(alloc)),
    }
}

/// The tables of the network, with its marginals.
pub(crate) fn network_text(
    alloc: Global,
    plant: &Plant<'_>,
    network: &Network,
) -> Result<Vec<u8>, AllocError>
    requires feasible { IsFeasible plant.now.site.now network.now }
    ensures { IfOk result
        (λ bytes. (m : Marginals) × AreMarginals plant.now.site.now network.now.units m
        × (bytes.items
        ≡ text_of (report_lines plant.now.measures.now plant.now.site.now network.now m))) }
{
    let marginals = marginals_of(alloc, plant.site, network)?;
    let bytes = report_of(alloc, plant, network, &marginals)?;
    Ok(bytes)
}

/// The tables of the network, if one is claimed, or the bounds that clash.
fn tables_of(
    alloc: Global,
    plant: &Plant<'_>,
    claim: &Claim,
    tree: &Tree,
    verdict: Verdict,
) -> Result<Vec<u8>, AllocError>
    requires few { length tree.now < 2 ^ 32 }
    requires passes { ClaimPasses true plant.now.site.now (claim_of claim.now) }
    requires verdict { IsVerdict plant.now.site.now (claim_of claim.now) tree.now verdict }
    ensures { IfOk result
        (λ bytes. (m : Marginals) × AreClaimMarginals plant.now.site.now (claim_of claim.now) m
        × (bytes.items
        ≡ text_of
        (tables_of plant.now.measures.now plant.now.site.now m (claim_of claim.now) tree.now
        verdict))) }
{
    match claim {
        Claim::Network(network) => network_text(alloc, plant, network),
        Claim::Infeasible => clash_text(alloc, plant, tree, verdict),
        Claim::Unknown => Ok(Vec::new(alloc)),
    }
}

/// What the tree proves, and after it the tables of the network if one is claimed, or the bounds
/// that clash if it is proved that no network meets the bounds.
pub fn verdict_text(
    alloc: Global,
    plant: &Plant<'_>,
    claim: &Claim,
    tree: &Tree,
    verdict: Verdict,
) -> Result<Vec<u8>, AllocError>
    requires few { length tree.now < 2 ^ 32 }
    requires passes { ClaimPasses true plant.now.site.now (claim_of claim.now) }
    requires verdict { IsVerdict plant.now.site.now (claim_of claim.now) tree.now verdict }
    ensures { IfOk result
        (λ bytes. (lines : List (List ℕ))
        × VerdictSays plant.now.measures.now plant.now.site.now (claim_of claim.now) tree.now
        verdict lines
        × (bytes.items ≡ text_of lines)) }
{
    let mut bytes = first_text(alloc, plant.site.problem(), claim, verdict)?;
    let tables = tables_of(alloc, plant, claim, tree, verdict)?;
    bytes.extend_from_slice(&tables)?;
    Ok(bytes)
}
