//! A rounded number with its sign, with its mark or without.
ghost use Rattle.std.specs.Prelude.{◌≡◌, ◌++◌, ◌^◌, OnOk, string_bytes};
ghost use Rattle.report_rules.specs.Decimal.{signed_text, rounded_text};

use crate::places::push_scaled;
use std::alloc::AllocError;

/// Appends the number over the scale, which is 10^places. A `-` comes first if the number is
/// negative and not 0.
pub fn push_signed(
    text: &mut String,
    places: u32,
    scale: u64,
    negative: bool,
    number: u128,
) -> Result<(), AllocError>
    requires { scale ≡ 10 ^ places }
    ensures { OnOk result
        (string_bytes text.new ≡ string_bytes text.old ++ signed_text places negative number) }
{
    if negative && number != 0 {
        text.push('-')?;
    }
    push_scaled(text, places, scale, number)
}

/// The same, with a `~` before it if it is not exact.
pub(crate) fn push_rounded(
    text: &mut String,
    places: u32,
    scale: u64,
    exact: bool,
    negative: bool,
    number: u128,
) -> Result<(), AllocError>
    requires { scale ≡ 10 ^ places }
    ensures { OnOk result
        (string_bytes text.new ≡ string_bytes text.old
        ++ rounded_text places exact negative number) }
{
    if !exact {
        text.push('~')?;
    }
    push_signed(text, places, scale, negative, number)
}
