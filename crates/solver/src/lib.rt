//! All searches over the simplex method.
//!
//! `abb_search` and `rank_search` take any evaluator of nodes. Here that is `flow_evaluator`.
//!
//! [`search`] runs to the end, [`search_against`] looks for a network cheaper than a given one,
//! [`search_watched`] reports how far it is, and a [`Search`] is taken turn by turn. A search that
//! runs to the end proposes charges only if it has not ended without them after a few hundred
//! nodes. Then it starts anew, with the best network so far or a cheaper one that is guessed. What
//! is found is in the words of `abb_search` (`Found`).
//!
//! [`rank`] and [`rank_watched`] search for as many best networks as are asked for,
//! [`alternatives_watched`] for the best plants that really differ. Their answers are those of
//! `rank_search` (`Ranked`).
//!
//! Modules: `workspace` what the searches work with; `anew` the start with charges; `whole` the
//! search for one network; `turns` the same turn by turn; `rankings` those for more than one.
#![tactic(auto)]

mod anew;
mod rankings;
mod turns;
mod whole;
mod workspace;

pub use anew::search_flows;
pub use flow_evaluator::{
    Bound, ChargeGuess, Claim, Columns, CostOver, Graph, Kind, Network, Node, PastSum, Problem,
    Proposal, Range, Ready, Site, Tree, UnitSet, Use, User, accepted_has_flows,
    accepted_is_optimal, amount_text, checked_difference, checked_product, checked_sum, cost_of,
    lowest_terms,
};
pub use rank_search::{Effort, Found, Outputs, Ranked, Shelf, Sink, Watch};
pub use rankings::{alternatives_watched, rank, rank_watched};
pub use turns::Search;
pub use whole::{search, search_against, search_watched};
pub use workspace::{FlowWorkspace, workspace_of};
