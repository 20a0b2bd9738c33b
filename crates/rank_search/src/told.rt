//! The answer of a search that has ended, as a text.
ghost use Rattle.std.specs.Prelude.{◌≡◌, false, IfOk, map};
ghost use Rattle.rank_check.specs.branch_tree.View.{tail_of};
ghost use Rattle.rank_check.specs.View.{mark_of};
ghost use Rattle.rank_check.specs.rank_rules.Text.{IsCounted};
ghost use Rattle.rank_search.specs.Ranked.{IsRankedBy};
ghost use Rattle.rank_search.specs.Turns.{IsRankEnd};

use crate::found::FoundNetworks;
use crate::outcome::Ranked;
use crate::telling::{Told, tell_stopped, tell_whole};
use abb_search::{Ending, Evaluator, Growing};
use rank_check::{Asked, RankText, Site, Tail};
use std::alloc::{AllocError, Global};

/// The answer, with the place at which the search stopped.
pub fn text_of(asked: Asked, told: Told, tail: Tail) -> RankText
    requires { IsCounted asked.count asked.distinct told.networks.items told.tree
        (map mark_of told.marks.items) }
    ensures { result ≡ record {
      count = asked.count;
      distinct = asked.distinct;
      networks = told.networks.items;
      tree =
          told.tree;
      marks = map mark_of told.marks.items;
      tail = tail_of tail;
    } }
{
    RankText::of(asked, told.networks, told.tree, told.marks, tail)
}

/// What is found if the search ends in this way.
pub(crate) fn ranked_by<E: Evaluator>(
    alloc: Global,
    site: &Site<'_>,
    growing: &Growing,
    found: FoundNetworks,
    ending: Ending,
) -> Result<Ranked, AllocError>
    requires { IsRankEnd E.past site.now growing.now.budget growing.now found ending }
    ensures { IfOk result (IsRankedBy E.past site.now found.count growing.now.budget) }
{
    let asked = Asked {
        count: found.count(),
        distinct: false,
    };
    match ending {
        Ending::Whole(proofs) => {
            let told = tell_whole(alloc, site, growing, found, &proofs)?;
            Ok(Ranked::Whole(text_of(asked, told, Tail::Whole)))
        }
        Ending::Spent {
            leaf,
            options,
            ends,
        } => {
            let told = tell_stopped(alloc, site, growing, found, &ends, leaf)?;
            let next = told.place;
            Ok(Ranked::Spent(text_of(asked, told, Tail::Spent { next, options })))
        }
        Ending::Past(stopped) => {
            let told = tell_stopped(alloc, site, growing, found, &[], stopped.leaf)?;
            let node = told.place;
            let tail = Tail::Past {
                node,
                nonbasic: stopped.stop.nonbasic,
                place: stopped.stop.place,
            };
            Ok(Ranked::Past(text_of(asked, told, tail)))
        }
    }
}
