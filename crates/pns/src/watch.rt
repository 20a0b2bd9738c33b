//! Who watches a search: those who read the standard error.

use crate::line::line_of;
use std::alloc::Global;
use std::env;
use std::env::VarError;
use std::rt::{Clock, Env};
use std::time::Instant;
use studio::{Progress, Watch};

/// The clock is asked once in so many turns of a search.
const TURNS: u32 = 64;

/// The second of the first line.
const FIRST: u64 = 2;

/// So many seconds later comes the next one.
const APART: u64 = 5;

/// Prints a line on an output about every five seconds, or nothing at all.
#[derive(Drop)]
pub(crate) struct LineWatch<'a, R, P> {
    rt: &'a R,
    output: &'a P,
    /// When the watch began; none if it prints nothing.
    start: Option<Instant>,
    /// So many turns later the clock is asked again.
    turns: u32,
    /// The second of the next line.
    next: u64,
}

/// Whether the environment has the name `PNS_QUIET`, whatever its value is.
fn is_quiet<R: Env + Alloc<A = Global>>(rt: &R) -> bool {
    !matches!(env::var(rt, "PNS_QUIET"), Err(VarError::NotPresent))
}

impl<'a, R: Clock + Env + Alloc<A = Global>, P: Print> LineWatch<'a, R, P> {
    /// A watch that begins now. It prints nothing if the environment has `PNS_QUIET`, or if the
    /// clock cannot be read.
    pub(crate) fn new(rt: &'a R, output: &'a P) -> LineWatch<'a, R, P> {
        let start = if is_quiet(rt) {
            None
        } else {
            Instant::now(rt).ok()
        };
        LineWatch {
            rt,
            output,
            start,
            turns: 0,
            next: FIRST,
        }
    }

    /// How many seconds it is since the start.
    fn seconds(&self) -> Option<u64> {
        let elapsed = self.start?.elapsed(self.rt).ok()?;
        Some(elapsed.as_secs())
    }
}

impl<'a, R: Clock + Env + Alloc<A = Global>, P: Print> Watch for LineWatch<'a, R, P> {
    fn is_due(&mut self) -> bool {
        if self.turns > 0 {
            self.turns -= 1;
            return false;
        }
        self.turns = TURNS - 1;
        match self.seconds() {
            None => false,
            Some(seconds) => self.next <= seconds,
        }
    }

    // What cannot be printed is left out: no search ends for it.
    fn report(&mut self, progress: &Progress) {
        let Some(seconds) = self.seconds() else {
            return;
        };
        self.next = seconds.saturating_add(APART);
        if let Ok(line) = line_of(self.rt.alloc(), progress, seconds) {
            let _printed = self.output.write_all(line.as_bytes());
        }
    }
}
