//! The report of a ranking.
ghost use Rattle.std.specs.Prelude.{◌≡◌, ◌++◌, ◌∷◌, [], ℕ, List, IfOk};
ghost use Rattle.rank_text.specs.rank_rules.Networks.{ArePassing};
ghost use Rattle.rank_text.specs.rank_rules.Text.{ranking_of};
ghost use Rattle.network_commands.specs.studio_rules.Lines.{text_of};
ghost use Rattle.network_commands.specs.studio_rules.RankReport.{rank_first_line, RankVerdictSays};

use crate::first::first_marginals;
use crate::words::push_first_line;
use json_text::{Plant, RankVerdict, ranking_of};
use rank_text::{Problem, RankText};
use std::alloc::{AllocError, Global};

/// The first line, with its line feed.
fn first_text(
    alloc: Global,
    problem: &Problem,
    ranking: &RankText,
    verdict: RankVerdict,
) -> Result<Vec<u8>, AllocError>
    ensures { IfOk result
        (λ bytes. bytes.items
        ≡ rank_first_line problem.now (ranking_of ranking.now) verdict ++ 10 ∷ []) }
{
    let mut text = String::new(alloc);
    push_first_line(&mut text, problem, ranking, verdict)?;
    text.push('\n')?;
    Ok(text.into_bytes())
}

/// What the tree proves, and after it the table of the networks and the report of the first.
pub(crate) fn rank_report(
    alloc: Global,
    plant: &Plant<'_>,
    ranking: &RankText,
    verdict: RankVerdict,
) -> Result<Vec<u8>, AllocError>
    requires listed { ArePassing ranking.now.distinct plant.now.site.now []
        ranking.now.networks }
    ensures { IfOk result
        (λ bytes. (lines : List (List ℕ))
        × RankVerdictSays plant.now.measures.now plant.now.site.now (ranking_of ranking.now)
        verdict lines
        × (bytes.items ≡ text_of lines)) }
{
    ranking.is_counted();
    let mut bytes = first_text(alloc, plant.site.problem(), ranking, verdict)?;
    let networks = ranking.networks();
    let marginals = first_marginals(alloc, plant.site, networks)?;
    let tables = ranking_of(alloc, plant, networks, &marginals)?;
    bytes.extend_from_slice(&tables)?;
    Ok(bytes)
}
