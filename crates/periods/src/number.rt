//! Names by numbers, and terms.
ghost use Rattle.std.specs.Prelude.{◌≡◌, ◌<◌, IfOk, string_bytes};
ghost use Rattle.plan_laws.specs.plan_rules.Expanded.{numbered, numbered_in, at_rate_one};

use edit_scripts::Term;
use std::alloc::{AllocError, Global};

/// 1 in millionths.
const ONE: i64 = 1_000_000;

/// 10^9 in millionths, the upper bound of a material that is not limited.
pub(crate) const UNLIMITED: i64 = 1_000_000_000_000_000;

/// A letter and a number.
pub(crate) fn numbered(alloc: Global, letter: &str, number: u32) -> Result<String, AllocError>
    ensures { IfOk result (λ name. string_bytes name ≡ numbered letter.now number) }
{
    format!(in alloc; "{letter}{number}")
}

/// A letter, a number, and a period, which counts from 0 here and from 1 in the name.
pub(crate) fn numbered_in(
    alloc: Global,
    letter: &str,
    number: u32,
    period: u32,
) -> Result<String, AllocError>
    requires { period < 1000 }
    ensures { IfOk result (λ name. string_bytes name ≡ numbered_in letter.now number period) }
{
    let shown = period + 1;
    let mut name = numbered(alloc, letter, number)?;
    name.push('.')?;
    write!(name, "{shown}")?;
    Ok(name)
}

/// A term of rate 1.
pub(crate) fn at_rate_one(material: u32) -> Term
    ensures { result ≡ at_rate_one material }
{
    Term {
        material,
        rate: ONE,
    }
}
