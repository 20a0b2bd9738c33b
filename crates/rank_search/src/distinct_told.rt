//! The answer of a search that has ended, as a text.
ghost use Rattle.std.specs.Prelude.{IfOk};
ghost use Rattle.rank_search.specs.DistinctListed.{IsListedBy};
ghost use Rattle.rank_search.specs.DistinctTurns.{IsListEnd};

use crate::distinct_telling::{tell_stopped, tell_whole};
use crate::listing::Listing;
use crate::{Ranked, text_of};
use abb_search::{Ending, Evaluator, Growing};
use rank_check::{Asked, Site, Tail};
use std::alloc::{AllocError, Global};

/// What is found if the search ends in this way.
pub(crate) fn listed_by<E: Evaluator>(
    alloc: Global,
    site: &Site<'_>,
    growing: &Growing,
    listing: Listing,
    ending: Ending,
) -> Result<Ranked, AllocError>
    requires { IsListEnd E.past site.now growing.now.budget growing.now listing ending }
    ensures { IfOk result (IsListedBy E.past site.now listing.count growing.now.budget) }
{
    let asked = Asked {
        count: listing.count,
        distinct: true,
    };
    match ending {
        Ending::Whole(proofs) => {
            let told = tell_whole(alloc, site, growing, listing, &proofs)?;
            Ok(Ranked::Whole(text_of(asked, told, Tail::Whole)))
        }
        Ending::Spent {
            leaf,
            options,
            ends,
        } => {
            let told = tell_stopped(alloc, site, growing, listing, &ends, leaf)?;
            let next = told.place;
            Ok(Ranked::Spent(text_of(asked, told, Tail::Spent { next, options })))
        }
        Ending::Past(stopped) => {
            let told = tell_stopped(alloc, site, growing, listing, &[], stopped.leaf)?;
            let node = told.place;
            let tail = Tail::Past {
                node,
                nonbasic: stopped.stop.nonbasic,
                place: stopped.stop.place,
            };
            Ok(Ranked::Past(text_of(asked, told, tail)))
        }
    }
}
