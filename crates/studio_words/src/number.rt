//! Numbers in words.
ghost use Rattle.std.specs.Prelude.{◌≡◌, ◌==◌, ◌&&◌, ℕ, Option, Some, None, nat_le, if◌then◌else◌};
ghost use Rattle.std.specs.List.{list_all};
ghost use Rattle.std.specs.Char.{is_ascii_digit};
ghost use Rattle.studio_rules.specs.text_rules.Amount.{number_of};
ghost use Rattle.studio_rules.specs.Numeral.{has_leading_zero, number_within};

/// The number that the bytes of a word spell, if it is from `least` to `most`.
pub(crate) fn number_within(bytes: &[u8], least: u64, most: u64) -> Option<u64>
    ensures { result ≡ number_within least most bytes.now }
{
    if bytes.is_empty() || has_leading_zero(bytes) {
        return None;
    }
    let number = digits_within(bytes, most)?;
    if number < least { None } else { Some(number) }
}

fn has_leading_zero(bytes: &[u8]) -> bool
    ensures { result ≡ has_leading_zero bytes.now }
{
    match bytes {
        [first, rest @ ..] => *first == b'0' && !rest.is_empty(),
        [] => false,
    }
}

// The number that digits spell, if it is at most `most`. The bytes after the first number above
// that are not read.
fn digits_within(bytes: &[u8], most: u64) -> Option<u64>
    ensures { result ≡ if list_all is_ascii_digit bytes.now && nat_le (number_of bytes.now) most
        then Some (number_of bytes.now) else None }
{
    let mut number: u128 = 0;
    'reading: for c in bytes {
        if !c.is_ascii_digit() {
            return None;
        }
        number = 10 * number + (*c - b'0') as u128;
        if number > most as u128 {
            return None;
        }
    }
    Some(number as u64)
}
