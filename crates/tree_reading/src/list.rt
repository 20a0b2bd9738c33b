//! Lists of numbers.
ghost use Rattle.std.specs.Prelude.{◌≡◌, Ok, IfOk, IfErr};
ghost use Rattle.tree_text_rules.specs.integer_laws.Range.{AllInRange};
ghost use Rattle.tree_text_rules.specs.Token as rules;
ghost use Rattle.text_lines.specs.Tells.{TellsLine};
ghost use Rattle.tree_reading.specs.View.{tokens_in};

use crate::line::{first_token, token_count};
use crate::line_fault::LineFault;
use crate::number::number_of;
use std::alloc::Global;

/// The numbers of what is left of a line, in a list with room for exactly this many.
pub fn numbers_of(alloc: Global, fields: Option<&[u8]>) -> Result<Vec<i128>, LineFault>
    ensures ok { IfOk result
        (λ v. rules.each rules.number_of (tokens_in fields.entry) ≡ Ok v.items) }
    ensures range { IfOk result (λ v. AllInRange v.items) }
    ensures fault { IfErr result (TellsLine (rules.each rules.number_of (tokens_in fields.entry))) }
{
    let mut numbers = Vec::with_capacity(alloc, token_count(fields))?;
    let mut rest = fields;
    'reading: while let Some(left) = rest {
        let (token, behind) = first_token(left);
        numbers.push(number_of(token).map_err(LineFault::Kind)?)?;
        rest = behind;
    }
    Ok(numbers)
}
