//! Names in order, each found by its number in one look-up.
ghost use Rattle.std.specs.Prelude.{◌≡◌, ◌≤◌, ◌++◌, false, OnOk, [], ◌∷◌, length};
ghost use Rattle.std.specs.List.{position};
ghost use Rattle.std.specs.Str.{bytes_eq};
ghost use Rattle.text_rules.specs.problem_rules.Names.{is_among};

use indexmap::IndexSet;
use std::alloc::{AllocError, Global};
use std::marker::Model;

/// Names, each once. Contracts see the list of their bytes.
#[derive(Drop)]
pub struct NameTable {
    names: IndexSet<String>,
}

impl Model for NameTable {
    ghost use Rattle.std.specs.Prelude.{ℕ, List, map, string_bytes};

    ghost Value = { List (List ℕ) };

    ghost view = { λ table. map string_bytes table.names.keys };
}

impl NameTable {
    pub(crate) fn new(alloc: Global) -> NameTable
        ensures { result ≡ [] }
    {
        NameTable {
            names: IndexSet::new(alloc),
        }
    }

    pub(crate) fn has(&self, name: &str) -> bool
        ensures { result ≡ is_among self.now name.now }
    {
        self.names.contains(name)
    }

    pub(crate) fn add(&mut self, name: &str) -> Result<(), AllocError>
        requires { is_among self.old name.now ≡ false }
        ensures added { OnOk result (self.new ≡ self.old ++ name.now ∷ []) }
    {
        let name = name.to_string(*self.names.allocator())?;
        self.names.insert(name)?;
        Ok(())
    }

    pub(crate) fn number_of(&self, name: &str) -> Option<u32>
        requires { length self.now ≤ 256 }
        ensures { result ≡ position (λ word. bytes_eq word name.now) self.now }
    {
        match self.names.get_index_of(name) {
            Some(number) => Some(number as u32),
            None => None,
        }
    }
}
