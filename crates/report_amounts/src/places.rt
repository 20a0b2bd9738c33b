//! Digits after the point.
ghost use Rattle.std.specs.Prelude.{◌≡◌, ◌++◌, ◌^◌, OnOk, string_bytes};
ghost use Rattle.report_rules.specs.text_rules.Printed.{digits, places};
ghost use Rattle.report_rules.specs.Decimal.{scaled_text};

use std::alloc::AllocError;

fn push_digits(text: &mut String, count: u32, number: u128) -> Result<(), AllocError>
    ensures { OnOk result (string_bytes text.new ≡ string_bytes text.old ++ digits count number) }
{
    if count == 0 {
        return Ok(());
    }
    push_digits(text, count - 1, number / 10)?;
    let digit = (number % 10) as u8;
    text.push((b'0' + digit) as char)?;
    Ok(())
}

/// Appends the last `count` digits of the number, without zeros at their end.
pub fn push_places(text: &mut String, count: u32, number: u128) -> Result<(), AllocError>
    ensures { OnOk result (string_bytes text.new ≡ string_bytes text.old ++ places count number) }
{
    if count == 0 {
        return Ok(());
    }
    if number % 10 == 0 {
        push_places(text, count - 1, number / 10)
    } else {
        push_digits(text, count, number)
    }
}

/// Appends the number over the scale, which is 10^places.
pub(crate) fn push_scaled(
    text: &mut String,
    places: u32,
    scale: u64,
    number: u128,
) -> Result<(), AllocError>
    requires { scale ≡ 10 ^ places }
    ensures { OnOk result
        (string_bytes text.new ≡ string_bytes text.old ++ scaled_text places number) }
{
    let scale = u128::from(scale);
    let whole = number / scale;
    let rest = number % scale;
    write!(text, "{whole}")?;
    if rest != 0 {
        text.push('.')?;
        push_places(text, places, rest)?;
    }
    Ok(())
}
