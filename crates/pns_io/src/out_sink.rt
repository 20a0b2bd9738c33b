//! An output of the system.
ghost use Rattle.std.specs.Prelude.{◌≡◌, ◌≤◌, OnOk, OnErr, None};
ghost use Rattle.std.specs.Io.KnownBytes.{Appends};
ghost use Rattle.text_rules.specs.Outside.{HasRisen, AppendsFront, counted, last_count};

use crate::{Failed, Sink};
use std::marker::Model;

/// An output of the system: the standard output, or the standard error. The state does not say what
/// was written. Contracts see the number of puts that failed, which stays at 2^64 - 1.
#[derive(Drop)]
pub struct OutSink<'a, R> {
    rt: &'a R,
    failed: u64,
}

impl<'a, R> Model for OutSink<'a, R> {
    ghost use Rattle.std.specs.Prelude.{◌≤◌, ℕ};
    ghost use Rattle.text_rules.specs.Outside.{last_count};

    ghost Value = { ℕ };

    ghost view = { λ s. s.failed };

    ghost invariant = { λ s. s.failed ≤ last_count };
}

impl<'a, R: Print> OutSink<'a, R> {
    /// A sink of which no put has failed.
    pub fn new(rt: &'a R) -> OutSink<'a, R>
        ensures { result ≡ 0 }
    {
        OutSink { rt, failed: 0 }
    }
}

impl<'a, R: Print> Sink for OutSink<'a, R> {
    ghost state = { λ failed. record { written = None; faults = failed } };

    fn put(&mut self, bytes: &[u8]) -> Result<(), Failed>
        ensures ok { OnOk result (Appends None None bytes.now) }
        ensures err { OnErr result (AppendsFront None None bytes.now) }
        ensures good { OnOk result (self.new ≡ self.old) }
        ensures bad { OnErr result (self.new ≡ counted self.old) }
        ensures cause { OnErr result (HasRisen self.old self.new) }
        ensures later { self.old ≤ self.new }
        ensures few { self.new ≤ last_count }
    {
        match self.rt.write_all(bytes) {
            Ok(()) => Ok(()),
            Err(_) => {
                self.failed = self.failed.saturating_add(1);
                Err(Failed)
            }
        }
    }
}
