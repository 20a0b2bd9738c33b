//! The commands `show`, `report`, `json` and `graph`, of a search, of a tree or of a ranking.
//!
//! [`show::show`] searches the problem of a file as `solve` does. It prints what `report` prints of
//! the tree, and of its head if it has one, with the status of `solve`. `Show` of `studio_rules`
//! has the lines.
//!
//! Each of the others reads a problem and then a tree or a ranking; the first line of the text says
//! which it is. `report` also takes the units of measure from the bytes of the problem's file.
//! `graph` without such a text is in `network_commands`.
//!
//! Of a tree `report` and `graph` print what `network_commands` prints. `json` prints what the tree
//! proves of its claim, with the verdict of `report`, and the facts of the network of the claim, as
//! one JSON object in which each number is exact. `Json` of `studio_rules` has its lines: the head,
//! and then those of the crate `json_text`.
//!
//! Of a ranking `report` and `json` print what its tree proves, a table of its networks, and the
//! facts of the first; `graph` prints the graph with the first in it, or of the first alone, and
//! the table. In `studio_rules`, `TextFile` has what is a ranking, and `RankReport`, `RankJson` and
//! `RankGraph` have the lines of one. `json` also prints a table of ranges, of which nothing is
//! judged (`RangesJson`).
//!
//! Modules: `show`, and `stopped`, its text of a search that is not finished; `form`, which of the
//! others is printed; `call`, the commands; `text`, `ranking` and `table`, the way from the bytes
//! of a file to the text. Modules of a ranking: `words`, the first line; `first`, the marginals of
//! its first network; `report` and `object`, two texts; `drawing`, its graph. Modules of the JSON
//! of a tree: `head`, the verdict and the claim; `json_lines`, the whole; `headed`, that of a tree
//! that may have a head; `json_call`, from the tree to the text.
#![tactic(auto)]

pub mod call;
mod drawing;
mod first;
mod form;
mod head;
mod headed;
mod json_call;
mod json_lines;
mod object;
mod ranking;
mod report;
pub mod show;
mod stopped;
mod table;
mod text;
mod words;

pub use form::{Form, Reader};
pub use json_call::say_stated;
