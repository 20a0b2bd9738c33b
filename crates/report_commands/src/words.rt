//! The first line of the report of a ranking: what its tree proves.
ghost use Rattle.std.specs.Prelude.{◌≡◌, ◌++◌, OnOk, codes, decimal, length, string_bytes};
ghost use Rattle.rank_text.specs.rank_rules.Text.{ranking_of};
ghost use Rattle.network_commands.specs.studio_rules.Report.{low_words};
ghost use Rattle.network_commands.specs.studio_rules.RankReport.{listed_word, best_words};
ghost use Rattle.network_commands.specs.studio_rules.RankReport.{all_words};
ghost use Rattle.network_commands.specs.studio_rules.RankReport.{contained_words, fewer_words};
ghost use Rattle.network_commands.specs.studio_rules.RankReport.{ranked_words};
ghost use Rattle.network_commands.specs.studio_rules.RankReport.{gap_of_first, unfinished_words};
ghost use Rattle.network_commands.specs.studio_rules.RankReport.{failing_words};
ghost use Rattle.network_commands.specs.studio_rules.RankReport.{rank_first_line};

use json_text::{LowerBound, RankVerdict};
use network_commands::{push_gap_behind, push_low_words, rank_why_word};
use rank_text::{Asked, Network, Problem, RankText, RankWhy};
use std::alloc::AllocError;

fn listed_word(distinct: bool) -> &'static str
    ensures { result.now ≡ listed_word distinct }
{
    if distinct {
        " best alternatives"
    } else {
        " best networks"
    }
}

fn push_best_ones(text: &mut String, distinct: bool, found: u32) -> Result<(), AllocError>
    ensures { OnOk result
        (string_bytes text.new
        ≡ string_bytes text.old
        ++ (codes "PROVED: these are the " ++ (decimal found ++ listed_word distinct))) }
{
    text.push_str("PROVED: these are the ")?;
    write!(text, "{found}")?;
    text.push_str(listed_word(distinct))?;
    Ok(())
}

#[tactic(auto, unfolding(crate::specs::Unfolded::best_words))]
fn push_best(text: &mut String, distinct: bool, found: u32) -> Result<(), AllocError>
    ensures { OnOk result
        (string_bytes text.new ≡ string_bytes text.old ++ best_words distinct found) }
{
    if found == 1 {
        text.push_str("PROVED: this is the best network")
    } else {
        push_best_ones(text, distinct, found)
    }
}

fn push_all_ones(text: &mut String, found: u32) -> Result<(), AllocError>
    ensures { OnOk result
        (string_bytes text.new
        ≡ string_bytes text.old
        ++ (codes "PROVED: there are "
        ++ (decimal found ++ codes " networks with flows, and no other"))) }
{
    text.push_str("PROVED: there are ")?;
    write!(text, "{found}")?;
    text.push_str(" networks with flows, and no other")?;
    Ok(())
}

#[tactic(auto, unfolding(crate::specs::Unfolded::all_words))]
fn push_all(text: &mut String, found: u32) -> Result<(), AllocError>
    ensures { OnOk result (string_bytes text.new ≡ string_bytes text.old ++ all_words found) }
{
    if found == 1 {
        text.push_str("PROVED: there is 1 network with flows, and no other")
    } else {
        push_all_ones(text, found)
    }
}

fn push_contained_ones(text: &mut String, found: u32) -> Result<(), AllocError>
    ensures { OnOk result
        (string_bytes text.new
        ≡ string_bytes text.old
        ++ (codes "PROVED: each network with flows contains one of these "
        ++ (decimal found ++ codes ", and costs no less"))) }
{
    text.push_str("PROVED: each network with flows contains one of these ")?;
    write!(text, "{found}")?;
    text.push_str(", and costs no less")?;
    Ok(())
}

#[tactic(auto, unfolding(crate::specs::Unfolded::contained_words))]
fn push_contained(text: &mut String, found: u32) -> Result<(), AllocError>
    ensures { OnOk result
        (string_bytes text.new ≡ string_bytes text.old ++ contained_words found) }
{
    if found == 1 {
        text.push_str("PROVED: each network with flows contains this one, and costs no less")
    } else {
        push_contained_ones(text, found)
    }
}

fn push_fewer(text: &mut String, distinct: bool, found: u32) -> Result<(), AllocError>
    ensures { OnOk result
        (string_bytes text.new ≡ string_bytes text.old ++ fewer_words distinct found) }
{
    if distinct {
        push_contained(text, found)
    } else {
        push_all(text, found)
    }
}

#[tactic(auto, unfolding(crate::specs::Unfolded::ranked_words))]
fn push_ranked(text: &mut String, asked: Asked, found: u32) -> Result<(), AllocError>
    ensures { OnOk result
        (string_bytes text.new
        ≡ string_bytes text.old ++ ranked_words asked.distinct asked.count found) }
{
    if found == asked.count {
        push_best(text, asked.distinct, found)
    } else if found == 0 {
        text.push_str("PROVED: no network meets the bounds")
    } else {
        push_fewer(text, asked.distinct, found)
    }
}

/// Appends how far the first network is above the lower bound.
fn push_gap_of_first(
    text: &mut String,
    networks: &[Network],
    low: Option<LowerBound>,
) -> Result<(), AllocError>
    ensures { OnOk result
        (string_bytes text.new ≡ string_bytes text.old ++ gap_of_first networks.now low) }
{
    match networks.split_first() {
        Some((first, _)) => push_gap_behind(text, first, low),
        None => Ok(()),
    }
}

/// Appends the lower bound and the gap, if they are known.
fn push_known(
    text: &mut String,
    problem: &Problem,
    networks: &[Network],
    low: Option<LowerBound>,
) -> Result<(), AllocError>
    ensures { OnOk result
        (string_bytes text.new ≡ string_bytes text.old
        ++ (low_words problem.now low ++ gap_of_first networks.now low)) }
{
    push_low_words(text, problem, low)?;
    push_gap_of_first(text, networks, low)?;
    Ok(())
}

fn push_unfinished(
    text: &mut String,
    problem: &Problem,
    networks: &[Network],
    node: u32,
    low: Option<LowerBound>,
) -> Result<(), AllocError>
    ensures { OnOk result
        (string_bytes text.new ≡ string_bytes text.old
        ++ unfinished_words problem.now networks.now node low) }
{
    let found = networks.len();
    text.push_str("NOT FINISHED: node ")?;
    write!(text, "{node}")?;
    text.push_str(" is open; networks so far: ")?;
    write!(text, "{found}")?;
    push_known(text, problem, networks, low)?;
    Ok(())
}

fn push_failing(text: &mut String, node: u32, why: RankWhy) -> Result<(), AllocError>
    ensures { OnOk result
        (string_bytes text.new ≡ string_bytes text.old ++ failing_words node why) }
{
    text.push_str("NOT PROVED: node ")?;
    write!(text, "{node}")?;
    text.push(' ')?;
    text.push_str(rank_why_word(why))?;
    Ok(())
}

/// How many networks there are.
fn found_in(text: &RankText) -> u32
    ensures { result ≡ length text.now.networks }
{
    text.is_counted();
    text.networks().len() as u32
}

/// What was asked for.
fn asked_of(text: &RankText) -> Asked
    ensures count { result.count ≡ text.now.count }
    ensures distinct { result.distinct ≡ text.now.distinct }
{
    Asked {
        count: text.count(),
        distinct: text.is_distinct(),
    }
}

/// Appends what the tree proves of the networks.
pub(crate) fn push_first_line(
    text: &mut String,
    problem: &Problem,
    ranking: &RankText,
    verdict: RankVerdict,
) -> Result<(), AllocError>
    ensures { OnOk result
        (string_bytes text.new
        ≡ string_bytes text.old ++ rank_first_line problem.now (ranking_of ranking.now) verdict) }
{
    match verdict {
        RankVerdict::Proved => push_ranked(text, asked_of(ranking), found_in(ranking)),
        RankVerdict::Unfinished { node, low } => {
            push_unfinished(text, problem, ranking.networks(), node, low)
        }
        RankVerdict::Fails { node, why } => push_failing(text, node, why),
    }
}
