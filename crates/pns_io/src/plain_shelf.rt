//! A shelf in memory that never fails.
ghost use Rattle.std.specs.Prelude.{◌≡◌, ◌≤◌, ◌-◌, List, ℕ, Some, length, min, IfOk, IsOk};
ghost use Rattle.text_rules.specs.Outside.{ReadsAt};
ghost use Rattle.pns_io.specs.NamedFiles.{file_or_empty, file_views};

use crate::named_file::{copy_from, file_named};
use crate::{Failed, Shelf};
use std::marker::Model;

/// Files in memory. No read fails, and a name that the shelf was not given is that of an empty
/// file.
#[derive(Drop)]
pub struct PlainShelf {
    files: Vec<(String, Vec<u8>)>,
}

impl Model for PlainShelf {
    ghost use Rattle.std.specs.Prelude.{List, ℕ};
    ghost use Rattle.pns_io.specs.NamedFiles.{file_views};

    ghost Value = { List (List ℕ × List ℕ) };

    ghost view = { λ s. file_views s.files.items };
}

impl PlainShelf {
    /// A shelf of these files, of which the first of a name counts.
    pub fn new(files: Vec<(String, Vec<u8>)>) -> PlainShelf
        ensures { result ≡ file_views files.items }
    {
        PlainShelf { files }
    }
}

impl Shelf for PlainShelf {
    ghost state = { λ shelf. record {
      held =
          λ name. Some (Some (file_or_empty shelf name));
      faults = λ _. 0;
    } };

    fn read(&mut self, name: &str, at: u64, into: &mut [u8]) -> Result<usize, Failed>
        ensures never_fails { IsOk result }
        ensures count { IfOk result (λ k. k ≤ length into.new) }
        ensures told { IfOk result (λ k. ReadsAt (file_or_empty self.old name.now) at into.new k) }
        ensures whole { IfOk result
            (λ k. k ≡ min (length into.new) (length (file_or_empty self.old name.now) - at)) }
        ensures keeps { self.new ≡ self.old }
    {
        match file_named(&self.files, name) {
            Some(file) => Ok(copy_from(file, at, into)),
            None => Ok(0),
        }
    }
}
