//! A sink in memory, with a room and a put that fails.
ghost use Rattle.std.specs.Prelude.{◌≡◌, ◌≤◌, ◌↔◌, ◌++◌, [], Some, length, take, IsErr, OnOk};
ghost use Rattle.std.specs.Prelude.{OnErr, IfOk};
ghost use Rattle.std.specs.Io.KnownBytes.{Appends};
ghost use Rattle.text_rules.specs.Outside.{HasRisen, AppendsFront, counted, last_count};
ghost use Rattle.pns_io.specs.MemorySink.{taken, Fails};

use crate::{Failed, Sink};
use std::alloc::{AllocError, Global};
use std::marker::Model;

/// A sink with room for so many bytes, which it takes when it is made. Puts are counted from 0.
#[derive(Drop)]
pub struct MemSink {
    bytes: Vec<u8>,
    room: u64,
    fail: Option<(u64, u64)>,
    puts: u64,
    failed: u64,
}

impl Model for MemSink {
    ghost use Rattle.std.specs.Prelude.{◌≤◌, vec_len, vec_capacity};
    ghost use Rattle.pns_io.specs.MemorySink.{Sunk};

    ghost Value = { Sunk };

    ghost view = { λ s. record {
      bytes = s.bytes.items;
      room = s.room;
      failing = s.fail;
      puts =
          s.puts;
      failed = s.failed;
    } };

    ghost invariant = { λ s. (vec_len s.bytes ≤ s.room) × (s.room ≤ vec_capacity s.bytes) };
}

impl MemSink {
    /// A sink with room for so many bytes. If `fail` is `Some((k, b))`, put number `k` fails after
    /// `b` bytes of its piece, or after fewer if the piece has fewer or fewer fit. A put of more
    /// bytes than fit fails after those that fit.
    pub fn new(alloc: Global, room: u64, fail: Option<(u64, u64)>) -> Result<MemSink, AllocError>
        ensures { IfOk result
            (λ sink. sink
            ≡ record { bytes = []; room = room; failing = fail; puts = 0; failed = 0 }) }
    {
        Ok(MemSink {
            bytes: Vec::with_capacity(alloc, room as usize)?,
            room,
            fail,
            puts: 0,
            failed: 0,
        })
    }

    /// What was written.
    pub fn bytes(&self) -> &[u8]
        ensures { result.now ≡ self.now.bytes }
    {
        &self.bytes
    }
}

impl Sink for MemSink {
    ghost state = { λ sink. record { written = Some sink.bytes; faults = sink.failed } };

    fn put(&mut self, bytes: &[u8]) -> Result<(), Failed>
        ensures ok { OnOk result (Appends (Some self.old.bytes) (Some self.new.bytes) bytes.now) }
        ensures err { OnErr result
            (AppendsFront (Some self.old.bytes) (Some self.new.bytes) bytes.now) }
        ensures cause { OnErr result (HasRisen self.old.failed self.new.failed) }
        ensures later { self.old.failed ≤ self.new.failed }
        ensures few { self.new.failed ≤ last_count }
        ensures takes { self.new.bytes ≡ self.old.bytes
            ++ take (taken self.old (length bytes.now)) bytes.now }
        ensures fails { IsErr result ↔ Fails self.old (length bytes.now) }
        ensures good { OnOk result
            (self.new ≡ record self.old { bytes = self.new.bytes; puts = counted self.old.puts }) }
        ensures bad { OnErr result
            (self.new ≡ record self.old {
              bytes = self.new.bytes;
              puts = counted self.old.puts;
              failed =
                  counted self.old.failed;
            }) }
    {
        let number = self.puts;
        self.puts = number.saturating_add(1);
        let free = self.room as usize - self.bytes.len();
        let (must_fail, allowed) = match self.fail {
            Some((at, count)) if at == number => (true, bytes.len().min(count as usize)),
            _ => (false, bytes.len()),
        };
        let count = allowed.min(free);
        // The room was taken when the sink was made.
        let _ = self.bytes.extend_from_slice(&bytes[..count]);
        if must_fail || free < bytes.len() {
            self.failed = self.failed.saturating_add(1);
            return Err(Failed);
        }
        Ok(())
    }
}
