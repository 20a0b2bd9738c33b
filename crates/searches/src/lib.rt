//! Searches of a whole plant, and the commands `solve`, `trial`, `periods` and `expand`.
//!
//! [`search_all`] searches all structures of a problem. [`search_best`] begins so too. If a few
//! hundred nodes do not end the search, it looks for a head and a tree that prove a network of
//! least cost; if there is none, it searches as [`search_all`] does. [`say_found`] prints a claim,
//! the tree that proves it, and at which node the search stopped if it did. [`stopped_notes`] are
//! the second lines of a search that stopped. Other commands that search use them too.
//!
//! [`solve::solve`] prints a claim, the tree that proves it and its head if it has one, and at
//! which node the search stopped if it did. For a problem out of numbers, [`trial::trial`] prints a
//! summary instead of a proved network.
//!
//! For the problem of a file and its plan, [`planned::periods`] prints a design of least cost over
//! several periods. It searches the expanded problem, without a head. If the search stops before it
//! is finished, it prints the tree of the expanded problem found so far. [`expansion::expand`]
//! prints the expanded problem.
//!
//! In `studio_rules`, `Solve`, `Summary`, `Trial`, `Periods` and `Expand` say which lines are
//! printed with which status, and `DesignText` has those of a design.
//!
//! Modules: `search` and `solves_search`, the searches; `certificate`, the text of a claim, a tree
//! and a tail; `headed`, that of a network with a head and a tree; `stopped`, second lines;
//! `solve`; `summary` and `trial`; `least`, the search of all designs; `design_text`, the text of
//! one; `planned` and `expansion`, the commands on several periods.
#![tactic(auto)]

mod certificate;
mod design_text;
pub mod expansion;
mod headed;
mod least;
pub mod planned;
mod search;
pub mod solve;
mod solves_search;
mod stopped;
mod summary;
pub mod trial;

pub use certificate::{Certificate, certificate_of, say_found, status_of, tail_is_counted};
pub use command_files::{
    Format, Source, Status, bytes_of, network_line, problem_of, rank_why_word, say, say_tree_fault,
};
pub use headed_search::{
    Found, Headed, Ranked, alternatives_watched, rank_watched, search_watched,
};
pub use least::say_least;
pub use search::search_all;
pub use solves_search::{Solution, search_best};
pub use stopped::{claimed, stopped_notes};
pub use summary::say_summed;
