//! The best networks, or the best plants that really differ, with a tree that proves it.
//!
//! [`rank_with`] searches for as many networks as are asked for, and [`alternatives_with`] for
//! plants of which none is another one with something idle. Both take any evaluator of nodes, with
//! a workspace, the site of the problem, the count and the effort, and give a [`Ranked`].
//! `IsRankedBy` of `specs/Ranked` and `IsListedBy` of `specs/DistinctListed` say what the answer
//! is.
//!
//! The search of `rank_with` is that of `abb_search`, for networks that undercut the last one of a
//! list. The list has the best networks so far, best first, each with the leaf at which it was
//! found. `abb_search` says which open leaf comes next; what is added here is the network of each
//! child. In the search's tree a leaf at which one of the networks was found is bounded by
//! multipliers. In the answer it is an open leaf whose mark has the network's number and the
//! multipliers. Each other open leaf is shut or is marked as open (`specs/Told`, `specs/Naming`).
//!
//! In the search of `alternatives_with` no cost has to be undercut while its tree grows. With the
//! tree it keeps all plants that it found of which none contains another that costs no more
//! (`plants`). A leaf at which one is found is bounded by its multipliers, and so is one of least
//! value whose structures all contain a plant that costs no more (`closing`). If as many plants are
//! found as are asked for, and the last of these costs no more than any open leaf, it shuts these,
//! and the search is at its end. In the answer a bounded leaf names the first listed plant that all
//! its structures contain and that its multipliers reach, if there is one (`names`).
//!
//! Modules of `rank_with`: `found` the list; `naming` and `telling` leaves that name networks, and
//! the tree with them; `outcome` and `told` the answer; `turns` the turns and their loop; `whole`
//! the whole search. Modules of `alternatives_with`: `plants`, `closing` and `names`; `listing`
//! what is kept with the tree; `distinct_turns` the turns and their loop; `distinct_telling` and
//! `distinct_told` the answer; `distinct_whole` the whole search.
#![tactic(auto)]

mod closing;
mod distinct_telling;
mod distinct_told;
mod distinct_turns;
mod distinct_whole;
mod found;
mod listing;
mod names;
mod naming;
mod outcome;
mod plants;
mod telling;
mod told;
mod turns;
mod whole;

pub use abb_search::{
    Effort, Found, NoWatch, Outputs, SearchWith, Shelf, Sink, Turn, Watch, look_at_root, run,
    search_with,
};
pub use distinct_whole::alternatives_with;
pub use found::{FoundAt, place_for};
pub use naming::{NamedTree, named_tree};
pub use outcome::Ranked;
pub use telling::{Told, into_networks};
pub use told::text_of;
pub use whole::rank_with;
