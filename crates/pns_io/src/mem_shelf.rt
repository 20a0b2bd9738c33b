//! A shelf in memory, with reads that fail.
ghost use Rattle.std.specs.Prelude.{◌≡◌, ◌≤◌, ◌-◌, ◌⊎◌, ◌↔◌, List, ℕ, length, min, Some};
ghost use Rattle.std.specs.Prelude.{IsSomeAnd};
ghost use Rattle.std.specs.Prelude.{IfOk, OnOk, IsErr, IsNone, OnErr, Contains};
ghost use Rattle.text_rules.specs.Outside.{HasRisen, ReadsAt, counted};
ghost use Rattle.pns_io.specs.NamedFiles.{file_of, file_views};

use crate::named_file::{copy_from, file_named};
use crate::{Failed, Shelf};
use std::marker::Model;

/// Files in memory, and the numbers of the reads that fail. Reads are counted from 0 over the
/// shelf's life.
#[derive(Drop)]
pub struct MemShelf {
    files: Vec<(String, Vec<u8>)>,
    fail: Vec<u64>,
    calls: u64,
    failed: u64,
}

impl Model for MemShelf {
    ghost use Rattle.pns_io.specs.MemoryShelf.{Shelved};
    ghost use Rattle.pns_io.specs.NamedFiles.{file_views};

    ghost Value = { Shelved };

    ghost view = { λ s. record {
      files = file_views s.files.items;
      failing = s.fail.items;
      calls =
          s.calls;
      failed = s.failed;
    } };
}

impl MemShelf {
    /// A shelf of these files, of which the first of a name counts. Read number `k` fails if `k` is
    /// in `fail`.
    pub fn new(files: Vec<(String, Vec<u8>)>, fail: Vec<u64>) -> MemShelf
        ensures { result
            ≡ record {
              files = file_views files.items;
              failing = fail.items;
              calls = 0;
              failed =
                  0;
            } }
    {
        MemShelf {
            files,
            fail,
            calls: 0,
            failed: 0,
        }
    }

    /// How many reads there were. It stays at 2^64 - 1.
    pub fn calls(&self) -> u64
        ensures { result ≡ self.now.calls }
    {
        self.calls
    }
}

impl Shelf for MemShelf {
    ghost state = { λ shelf. record {
      held = λ name. Some (file_of shelf.files name);
      faults =
          λ _. shelf.failed;
    } };

    fn read(&mut self, name: &str, at: u64, into: &mut [u8]) -> Result<usize, Failed>
        ensures count { IfOk result (λ k. k ≤ length into.new) }
        ensures told { IfOk result
            (λ k. IsSomeAnd (file_of self.old.files name.now)
            (λ file. ReadsAt file at into.new k)) }
        ensures whole { IfOk result
            (λ k. IsSomeAnd (file_of self.old.files name.now)
            (λ file. k ≡ min (length into.new) (length file - at))) }
        ensures cause { OnErr result (HasRisen self.old.failed self.new.failed) }
        ensures later { (other : List ℕ) → self.old.failed ≤ self.new.failed }
        ensures keeps { (other : List ℕ)
            → file_of self.new.files other ≡ file_of self.old.files other }
        ensures fails { IsErr result
            ↔ (Contains self.old.failing self.old.calls
            ⊎ IsNone (file_of self.old.files name.now)) }
        ensures ok { OnOk result (self.new ≡ record self.old { calls = counted self.old.calls }) }
        ensures err { OnErr result
            (self.new ≡ record self.old
            { calls = counted self.old.calls; failed = counted self.old.failed }) }
    {
        let number = self.calls;
        self.calls = number.saturating_add(1);
        if self.fail.contains(&number) {
            self.failed = self.failed.saturating_add(1);
            return Err(Failed);
        }
        match file_named(&self.files, name) {
            Some(file) => Ok(copy_from(file, at, into)),
            None => {
                self.failed = self.failed.saturating_add(1);
                Err(Failed)
            }
        }
    }
}
