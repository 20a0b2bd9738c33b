//! A read gives the file, a counted fault or too long; a sink takes all or a front.
//!
//! Shelves hold files by name, and sinks take bytes: they are what the program uses of the world
//! outside it. A [`Shelf`] is read piece by piece, and a [`Sink`] takes one piece after another.
//! What a contract knows of one is its `state`: what it says, and its count of faults. A read or a
//! put fails only if the count rose, so a caller that meets a fault can say whose it was.
//! [`read_all`] gives the whole of a file that is within a limit.
//!
//! `MemShelf` and `MemSink` are exact, and fail at the calls that are given to them. `PlainShelf`
//! and `PlainSink` never fail. `FileShelf` has the files of the system and the standard input, and
//! `OutSink` is the standard output or the standard error; their states say nothing but their
//! counts. [`Outputs`] has the two sinks of a call. Only [`read_all`] and a new `MemSink` take
//! memory.
//!
//! Those who wait for a search see how far it is. The search asks its [`Watch`] once a turn whether
//! it is to report that, as a [`Progress`]. Nothing that is found depends on the answer, and no
//! contract speaks of it. [`Effort`] is how many nodes a search may take, and who watches it;
//! [`NoWatch`] is nobody.
//!
//! Modules: `shelf` and `sink`; `whole_file`, with `read_all`; `named_file`, files in memory by
//! name; `mem_shelf`, `mem_sink`, `plain_shelf`, `plain_sink`, `file_shelf` and `out_sink`, the
//! shelves and sinks; `outputs`. `Watch` and what goes with it are below.
#![tactic(auto)]

mod file_shelf;
mod mem_shelf;
mod mem_sink;
mod named_file;
mod out_sink;
mod outputs;
mod plain_shelf;
mod plain_sink;
mod shelf;
mod sink;
mod whole_file;

pub use file_shelf::FileShelf;
pub use mem_shelf::MemShelf;
pub use mem_sink::MemSink;
pub use out_sink::OutSink;
pub use outputs::Outputs;
pub use plain_shelf::PlainShelf;
pub use plain_sink::PlainSink;
pub use shelf::Shelf;
pub use sink::Sink;
pub use whole_file::{ReadAllFault, read_all};

/// A read of a shelf or a put into a sink that failed.
#[derive(Clone, Copy, Debug, PartialEq, Eq)]
pub struct Failed;

/// How far a search is. Costs are rounded down, in the unit in which networks keep theirs: 10^-18
/// of the plant's money, over the whole payout period.
#[derive(Clone, Copy)]
pub struct Progress {
    pub nodes: u32,
    /// How many leaves are open.
    pub open: u32,
    /// What the cheapest network that was found costs.
    pub best: Option<i128>,
    /// What a network costs at least that is not found yet.
    pub bound: Option<i128>,
    /// The payout period in years, from 1 on.
    pub years: u8,
}

/// Who watches a search.
pub trait Watch: Drop {
    /// Whether a report is due. It is asked once a turn, so the answer has to be cheap.
    fn is_due(&mut self) -> bool;

    /// Takes a report of how far the search is.
    fn report(&mut self, progress: &Progress);
}

impl<W: Watch> Watch for &mut W {
    fn is_due(&mut self) -> bool {
        (**self).is_due()
    }

    fn report(&mut self, progress: &Progress) {
        (**self).report(progress)
    }
}

/// Nobody watches.
#[derive(Clone, Copy)]
pub struct NoWatch;

impl Watch for NoWatch {
    fn is_due(&mut self) -> bool {
        false
    }

    fn report(&mut self, _progress: &Progress) {}
}

/// How many nodes a search may take, and who watches it.
#[derive(Drop)]
pub struct Effort<W: Watch> {
    pub budget: u32,
    pub watch: W,
}
