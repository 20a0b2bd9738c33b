//! Mutual exclusions, and the test by which they are judged.
ghost use Rattle.std.specs.Prelude.{◌≡◌, IfOk};
ghost use Rattle.text_rules.specs.problem_rules.Validity.{breaks_rise, bad_members};

use std::alloc::{AllocError, Global};
use std::marker::Model;

/// Units, by number in rising order, of which a network has at most one.
#[derive(Drop)]
pub struct Exclusion {
    pub name: String,
    pub units: Vec<u32>,
}

impl Model for Exclusion {
    ghost use Rattle.std.specs.Prelude.{string_bytes};
    ghost use Rattle.text_rules.specs.problem_rules.Problem as rules;

    ghost Value = { rules.Exclusion };

    ghost view = { λ e. record { name = string_bytes e.name; units = e.units.items } };
}

fn breaks_rise(count: u32, units: &[u32]) -> bool
    ensures { result ≡ breaks_rise count 0 units.now }
{
    let mut least: u64 = 0;
    'looking: for unit in units {
        let number = *unit as u64;
        if number < least || count as u64 <= number {
            return true;
        }
        least = number + 1;
    }
    false
}

impl Exclusion {
    pub(crate) fn has_bad_members(&self, units: u32) -> bool
        ensures { result ≡ bad_members units self.now }
    {
        self.units.len() < 2 || breaks_rise(units, &self.units)
    }

    pub(crate) fn copy(&self) -> Result<Exclusion, AllocError>
        ensures { IfOk result (λ e. e ≡ self.now) }
    {
        let name = self.name.clone()?;
        let units = self.units.clone()?;
        Ok(Exclusion { name, units })
    }
}

pub(crate) fn copy_exclusions(
    alloc: Global,
    exclusions: &[Exclusion],
) -> Result<Vec<Exclusion>, AllocError>
    ensures { IfOk result (λ v. v.items ≡ exclusions.now) }
{
    let mut copies = Vec::new(alloc);
    'copying: for exclusion in exclusions {
        let copy = exclusion.copy()?;
        copies.push(copy)?;
    }
    Ok(copies)
}
