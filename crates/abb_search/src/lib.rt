//! A search that always ends: at each turn a tree proves its best network, but for open leaves.
//!
//! It is accelerated branch and bound over the structures of a node's family, with any evaluator of
//! nodes. [`search_with`] runs to the end, and a [`SearchWith`] is taken turn by turn. Each turn
//! branches an open leaf of least value, or says how the search ends ([`Found`]). If memory is
//! refused, all is as before the turn. With a network given, it looks for a cheaper one.
//!
//! A new leaf has a value at first that no relaxed flows undercut, from a quick look. Its worth is
//! settled only when it is to be branched: then its value rises, or it is refuted. A leaf whose
//! least cost overflows keeps a lower bound as its value.
//!
//! After a leaf was branched, the leaf of least value is shut if a charge of it is found that is no
//! less than the best network's cost, and then the next one.
//!
//! Modules: `growing` the tree and how a leaf is branched; `charging` leaves that a charge shuts;
//! `settling` the worth of leaves; `closing` what shuts leaves at the end; `hand` what is stored
//! for them; `root` the root; `outcome` answers; `found` the tree of an answer; `rounds` which leaf
//! is next; `step` a turn; `turns` the object; `runs` the loop; `watching` progress.
#![tactic(auto)]

mod charging;
mod closing;
mod found;
mod growing;
mod hand;
mod outcome;
mod root;
mod rounds;
mod runs;
mod settling;
mod step;
mod turns;
mod watching;

pub use closing::{Closing, Shutting, close_all, shut_at};
pub use growing::{
    Growing, StoppedLeaf, branch_leaf, choice_at, node_at, reaches, shut_leaf, take_stop,
};
pub use node_evaluation::{
    Cell, Evaluator, Pool, Shut, Workspace, copy_of_network, costs_no_more, nodes_in_preorder,
    preorder_is_tree,
};
pub use outcome::{Found, Turn};
pub use pns_io::{Effort, NoWatch, Outputs, Shelf, Sink, Watch};
pub use root::look_at_root;
pub use rounds::{Ending, Goal, Next, next_leaf};
pub use runs::{run, search_with};
pub use turns::SearchWith;
pub use watching::report_progress;
