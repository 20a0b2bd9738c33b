//! A sink that keeps nothing.
ghost use Rattle.std.specs.Prelude.{None, IsOk};

use crate::{Failed, Sink};

/// Takes every piece and keeps no bytes. No put fails, and the state does not say what was written.
#[derive(Clone, Copy, Debug)]
pub struct PlainSink;

impl PlainSink {
    /// A sink that keeps nothing.
    pub fn new() -> PlainSink {
        PlainSink
    }
}

impl Sink for PlainSink {
    ghost state = { λ _. record { written = None; faults = 0 } };

    fn put(&mut self, _: &[u8]) -> Result<(), Failed>
        ensures never_fails { IsOk result }
    {
        Ok(())
    }
}
