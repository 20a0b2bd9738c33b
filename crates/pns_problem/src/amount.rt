//! Amounts in millionths: their range, and how they are printed.
ghost use Rattle.std.specs.Prelude.{◌≡◌, ◌++◌, IfOk, OnOk, string_bytes};
ghost use Rattle.text_rules.specs.problem_rules.Validity.{is_out_of_range};
ghost use Rattle.text_rules.specs.Printed.{digits, places, amount_bytes};

use std::alloc::{AllocError, Global};

/// Whether the absolute value of the amount is above 10^9.
pub(crate) fn is_out_of_range(value: i64) -> bool
    ensures { result ≡ is_out_of_range value }
{
    value.unsigned_abs() > 1_000_000_000_000_000
}

fn push_digits(text: &mut String, count: u32, number: u64) -> Result<(), AllocError>
    ensures { OnOk result (string_bytes text.new ≡ string_bytes text.old ++ digits count number) }
{
    if count == 0 {
        return Ok(());
    }
    push_digits(text, count - 1, number / 10)?;
    let digit = (number % 10) as u8;
    text.push((b'0' + digit) as char)?;
    Ok(())
}

fn push_places(text: &mut String, count: u32, number: u64) -> Result<(), AllocError>
    ensures { OnOk result (string_bytes text.new ≡ string_bytes text.old ++ places count number) }
{
    if count == 0 {
        return Ok(());
    }
    if number % 10 == 0 {
        push_places(text, count - 1, number / 10)
    } else {
        push_digits(text, count, number)
    }
}

/// Appends an amount: a `-` if it is negative, the whole part, and the places up to the last that
/// is not 0.
pub(crate) fn push_amount(text: &mut String, value: i64) -> Result<(), AllocError>
    ensures { OnOk result (string_bytes text.new ≡ string_bytes text.old ++ amount_bytes value) }
{
    let size = value.unsigned_abs();
    let whole = size / 1_000_000;
    let rest = size % 1_000_000;
    if value < 0 {
        text.push('-')?;
    }
    write!(text, "{whole}")?;
    if rest != 0 {
        text.push('.')?;
        push_places(text, 6, rest)?;
    }
    Ok(())
}

/// An amount in millionths as text, in the file's unit: 2500000 is `2.5`, and -1 is `-0.000001`.
pub fn amount_text(alloc: Global, value: i64) -> Result<String, AllocError>
    ensures { IfOk result (λ text. string_bytes text ≡ amount_bytes value) }
{
    let mut text = String::new(alloc);
    push_amount(&mut text, value)?;
    Ok(text)
}
