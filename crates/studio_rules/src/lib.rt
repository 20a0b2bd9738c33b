//! What the program says: all that a reader must believe of a command and of its end.
//!
//! The definitions are in `specs/`. `Command` says which words are which command, over `Numeral`.
//! `Answers` says what each command answers, and `Causes` when a call ends with which status. The
//! other files define:
//!
//! - the end of a call: `Ending`, `Lines`, `Printed`, `Seconds`, `Code` (the numbers of the
//!   statuses) and `Keeps` (what a call leaves of a shelf);
//! - files: `Reading` (the problem file), `Script`, `Plan`, `TreeFile` and `PartFile`;
//! - commands, mostly a file each; `Best` says what acceptance means, `Start` at which node a part
//!   begins;
//! - the words of causes: `RefusalWords` and `RankWords`;
//! - help: `Overview` and `Pages`, which page is on which topic. The texts are constants: the pages
//!   on commands are [`COMMAND_PAGES`], the others [`TOPIC_PAGES`], which `TopicPages` has;
//!   `PageLines` says what a text of whole lines is.
#![tactic(auto)]

mod command_pages;
mod scene;
mod status;
mod topic_pages;

pub use command_pages::{COMMAND_PAGES, OVERVIEW, STATUS_PAGE, VERSION};
pub use report_rules::{Item, RankWhy, SpotKind, Warning, Why};
pub use scene::Scene;
pub use status::Status;
pub use topic_pages::TOPIC_PAGES;
