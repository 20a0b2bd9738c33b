//! The largest range of a price or cost in which a network is optimal.
//!
//! [`range`] gives the largest interval of allowed values round the present one, all else kept, in
//! which a network with its flows is optimal among the clash-free ones. Beyond an end that is not
//! the limit of the values, a cheaper network is given. If there is no answer, the cause is given.
//!
//! Each value that it looks at costs one search against the network, in one copy of the problem. No
//! search is needed between two values at which the network is optimal, since the difference of two
//! costs is a straight line. None is needed on a side on which the network's cost rises as little
//! as any structure's can. `Range` of `report_rules` and `specs/Refusal` have what is promised.
//!
//! Modules: `setting` the problem with another value in the spot; `case` a network and a spot;
//! `desk` the problem with one value after the other; `costs` what flows cost; `probe` a search at
//! one value; `meeting` the value at which two networks cost the same, as a guess; `rise` whether a
//! cost rises as little as any can; `side` one end of the range; `outcome` and `answer` the call.
#![tactic(auto)]

mod answer;
mod case;
mod costs;
mod desk;
mod meeting;
mod outcome;
mod probe;
mod rise;
mod setting;
mod side;

pub use answer::range;
pub use outcome::{Range, RangeFault};
pub use setting::{value_at, valued};
pub use solver::{
    Claim, Effort, Found, Graph, Network, Outputs, Problem, Shelf, Sink, Site, Tree, Watch,
    accepted_is_optimal, amount_text,
};
pub use stability_laws::{Side, Sort, Spot, SpotKind, structures_stay, valued_is_valid};
