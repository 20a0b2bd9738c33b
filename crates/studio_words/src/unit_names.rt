//! The word UNITS.
ghost use Rattle.std.specs.Prelude.{◌≡◌, ◌==◌, ◌<◌, ◌++◌, ◌&&◌, ◌∷◌, [], true, false, length, IfOk};
ghost use Rattle.std.specs.Prelude.{IfSome, IfNone, OnOk, not, slice_index_or};
ghost use Rattle.std.specs.List.{slice_split};
ghost use Rattle.std.specs.Str.{byte};
ghost use Rattle.studio_rules.specs.problem_rules.Names.{is_name, is_among};
ghost use Rattle.studio_rules.specs.Command.{unit_names_of};
ghost use Rattle.studio_words.specs.Gathering.{gathered};

use indexmap::IndexSet;
use pns_problem::is_name;
use std::alloc::{AllocError, Global};
use std::marker::Model;

/// Distinct names of units, in the order of the word that gives them. Contracts see the list of
/// their bytes.
#[derive(Drop)]
pub struct UnitNames {
    names: IndexSet<String>,
}

impl Model for UnitNames {
    ghost use Rattle.std.specs.Prelude.{ℕ, List, map, string_bytes};

    ghost Value = { List (List ℕ) };

    ghost view = { λ units. map string_bytes units.names.keys };
}

impl UnitNames {
    fn none(alloc: Global) -> UnitNames
        ensures { result ≡ [] }
    {
        UnitNames {
            names: IndexSet::new(alloc),
        }
    }

    fn has(&self, name: &str) -> bool
        ensures { result ≡ is_among self.now name.now }
    {
        self.names.contains(name)
    }

    fn push(&mut self, name: &str) -> Result<(), AllocError>
        requires { is_among self.old name.now ≡ false }
        ensures { OnOk result (self.new ≡ self.old ++ name.now ∷ []) }
    {
        let name = name.to_string(*self.names.allocator())?;
        self.names.insert(name)?;
        Ok(())
    }

    // Adds a text that is a name and is not there yet, and gives whether it is so.
    fn add(&mut self, text: &str) -> Result<bool, AllocError>
        ensures new { IfOk result
            (λ added. added ≡ (is_name text.now && not (is_among self.old text.now))) }
        ensures added { IfOk result (λ added. added ≡ true → self.new ≡ self.old ++ text.now ∷ []) }
    {
        if !is_name(text) {
            return Ok(false);
        }
        if self.has(text) {
            return Ok(false);
        }
        self.push(text)?;
        Ok(true)
    }

    /// How many names there are.
    pub fn len(&self) -> usize
        ensures { result ≡ length self.now }
    {
        self.names.len()
    }

    /// The name at place `k`; empty if there are not so many.
    pub fn name(&self, k: usize) -> &str
        ensures { result.now ≡ slice_index_or self.now k [] }
    {
        match self.names.get_index(k) {
            Some(name) => name.as_str(),
            None => "",
        }
    }

    /// The names of the word UNITS: none for `-`, else those between its commas. There is no answer
    /// if one is no name or comes twice.
    pub fn read(alloc: Global, word: &str) -> Result<Option<UnitNames>, AllocError>
        ensures { IfOk result (λ found. found ≡ unit_names_of word.now) }
    {
        if word == "-" {
            return Ok(Some(UnitNames::none(alloc)));
        }
        UnitNames::gather(alloc, word)
    }

    fn gather(alloc: Global, word: &str) -> Result<Option<UnitNames>, AllocError>
        ensures { IfOk result
            (λ found. found ≡ gathered [] (slice_split (λ c. c == byte ",") word.now)) }
    {
        let mut names = UnitNames::none(alloc);
        let mut rest = word;
        'gathering: while let Some((name, more)) = first_part(rest) {
            if !names.add(name)? {
                return Ok(None);
            }
            rest = more;
        }
        if names.add(rest)? {
            Ok(Some(names))
        } else {
            Ok(None)
        }
    }
}

// What is before the first comma and after it, if there is one.
fn first_part(text: &str) -> Option<(&str, &str)>
    ensures none { IfNone result (slice_split (λ c. c == byte ",") text.now ≡ text.now ∷ []) }
    ensures part { IfSome result
        (λ parts. slice_split (λ c. c == byte ",") text.now ≡ parts.0.now
        ∷ slice_split (λ c. c == byte ",") parts.1.now) }
    ensures shorter { IfSome result (λ parts. length parts.1.now < length text.now) }
{
    text.split_once(',')
}
