//! Names, each once, found by a look-up.
ghost use Rattle.std.specs.Prelude.{◌≡◌, ◌++◌, ◌∷◌, IfOk, not, OnOk, OnErr, [], Option, false};
ghost use Rattle.std.specs.Prelude.{length};
ghost use Rattle.std.specs.List.{position};
ghost use Rattle.std.specs.Str.{bytes_eq};
ghost use Rattle.edit_rules.specs.problem_rules.Names.{is_among};
ghost use Rattle.text_lines.specs.View.{texts};
ghost use Rattle.edit_rules.specs.text_rules.Fault.{with_name};
ghost use Rattle.text_lines.specs.Once.{once};

use indexmap::IndexSet;
use std::alloc::{AllocError, Global};
use std::marker::Model;

/// Names that are borrowed from a text, each once, in the order in which they were added. Contracts
/// see the list of them.
#[derive(Drop)]
pub struct NameSet<'a> {
    names: IndexSet<&'a [u8]>,
}

impl<'a> Model for NameSet<'a> {
    ghost use Rattle.std.specs.Prelude.{ℕ, List};
    ghost use Rattle.text_lines.specs.View.{texts};

    ghost Value = { List (List ℕ) };

    ghost view = { λ set. texts set.names.keys };
}

impl<'a> NameSet<'a> {
    pub fn new(alloc: Global) -> NameSet<'a>
        ensures { result ≡ [] }
    {
        NameSet {
            names: IndexSet::new(alloc),
        }
    }

    pub fn len(&self) -> usize
        ensures { result ≡ length self.now }
    {
        self.names.len()
    }

    pub fn has(&self, name: &[u8]) -> bool
        ensures { result ≡ is_among self.now name.now }
    {
        self.names.contains(&name)
    }

    /// Adds a name that may be new, and says whether it is. `Err` means out of memory; then the
    /// names are as before.
    pub fn add(&mut self, name: &'a [u8]) -> Result<bool, AllocError>
        ensures new { IfOk result (λ is_new. is_new ≡ not (is_among self.old name.now)) }
        ensures added { OnOk result (self.new ≡ with_name self.old name.now) }
        ensures same { OnErr result (self.new ≡ self.old) }
    {
        let (_, is_new) = self.names.insert_full(name)?;
        Ok(is_new)
    }

    /// Adds a name that is new. `Err` means out of memory; then the names are as before.
    #[tactic(auto, using(crate::proofs::Naming::with_new))]
    pub fn push(&mut self, name: &'a [u8]) -> Result<(), AllocError>
        requires { is_among self.old name.now ≡ false }
        ensures added { OnOk result (self.new ≡ self.old ++ name.now ∷ []) }
        ensures same { OnErr result (self.new ≡ self.old) }
    {
        self.add(name)?;
        Ok(())
    }

    pub fn number_of(&self, name: &[u8]) -> Option<usize>
        ensures { result ≡ position (λ word. bytes_eq word name.now) self.now }
    {
        self.names.get_index_of(&name)
    }
}

/// The names as a set, or `None` if a name is there twice.
pub fn once<'a>(alloc: Global, names: &[&'a [u8]]) -> Result<Option<NameSet<'a>>, AllocError>
    ensures { IfOk result (λ found. found ≡ once (texts names.now)) }
{
    let mut set = NameSet::new(alloc);
    for name in names {
        if !set.add(*name)? {
            return Ok(None);
        }
    }
    Ok(Some(set))
}
