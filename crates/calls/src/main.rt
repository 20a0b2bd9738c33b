//! The program `calls`: what neither a contract nor a command of `pns` shows.
//!
//! That is what files of the system give and the standard output takes, when there is a sum of
//! mixed numbers, how many second lines there are at most, and one run of `read_head` and of
//! `extend`. No command makes these two calls, and their contracts would allow that they always
//! answer that there is no memory. The file `stdout` next to `src` has the lines that are wanted,
//! worked out by hand.
//!
//! Modules: `files` (files and output), `numbers` (sums of mixed numbers), `notes` (second lines),
//! `plants` (the plant of the others), `texts` (the head of a node), `structures` (the steps at a
//! node).
#![tactic(auto)]

mod files;
mod notes;
mod numbers;
mod plants;
mod structures;
mod texts;

use neutral_extension::{Graph, Node, UnitSet};
use plants::plant;
use std::io;

fn main(rt: HostRuntime) -> io::Result<()> {
    files::wholes(&rt)?;
    files::pieces(&rt)?;
    numbers::sums(&rt)?;
    notes::long_lines(&rt)?;
    let problem = plant(rt.alloc())?;
    texts::head(&rt, &problem)?;
    let graph = Graph::of(rt.alloc(), &problem)?;
    let start = Node {
        inside: UnitSet::empty(),
        outside: UnitSet::empty(),
    };
    structures::extension(&rt, &graph, &start)
}
