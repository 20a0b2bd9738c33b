//! Numbers, in millionths.
ghost use Rattle.std.specs.Prelude.{◌≡◌, ◌≤◌, ◌<◌, ◌+◌, ◌*◌, ◌^◌, ◌-◌, ◌++◌, ◌∷◌, true};
ghost use Rattle.std.specs.Prelude.{false};
ghost use Rattle.std.specs.Prelude.{length, Ok, Err, Some, None, IfOk, IfSome, IsNone};
ghost use Rattle.std.specs.Prelude.{nat_lt};
ghost use Rattle.std.specs.Prelude.{if◌then◌else◌};
ghost use Rattle.std.specs.List.{list_all};
ghost use Rattle.std.specs.Char.{is_ascii_digit};
ghost use Rattle.edit_rules.specs.text_rules.Amount.{is_point, is_exponent_mark, has_minus};
ghost use Rattle.edit_rules.specs.text_rules.Amount.{without_sign};
ghost use Rattle.edit_rules.specs.text_rules.Amount.{number_from, number_of, is_exponent};
ghost use Rattle.edit_rules.specs.text_rules.Amount.{amount_limit};
ghost use Rattle.edit_rules.specs.text_rules.Amount.{scaled, scaled_by, with_sign, amount_of};
ghost use Rattle.edit_rules.specs.text_rules.Fault.{millionths};
ghost use Rattle.text_lines.specs.Numbers.{begins, tens_read, IsFront};

use edit_rules::TextKind;

const LIMIT: u128 = 1_000_000_000_000_000;

// One digit more than a number may have: at most so many are read.
const MOST: usize = 31;

// All digits but so many fit 64 bits.
const LONG: usize = 13;

const TENS: [u64; 16] = [
    1,
    10,
    100,
    1_000,
    10_000,
    100_000,
    1_000_000,
    10_000_000,
    100_000_000,
    1_000_000_000,
    10_000_000_000,
    100_000_000_000,
    1_000_000_000_000,
    10_000_000_000_000,
    100_000_000_000_000,
    1_000_000_000_000_000,
];

// The front of a text: digits with at most one point among them.
#[derive(Drop)]
struct Front<'a> {
    number: u128,
    digits: usize,
    // how many of them are after the point
    places: usize,
    rest: &'a [u8],
}

fn is_exponent_mark(c: u8) -> bool
    ensures { result ≡ is_exponent_mark c }
{
    c == b'e' || c == b'E'
}

fn has_minus(text: &[u8]) -> bool
    ensures { result ≡ has_minus text.now }
{
    match text {
        [first, ..] => *first == b'-',
        [] => false,
    }
}

fn without_sign(text: &[u8]) -> &[u8]
    ensures { result.now ≡ without_sign text.now }
{
    match text {
        [b'+' | b'-', rest @ ..] => rest,
        _ => text,
    }
}

fn behind_point(text: &[u8]) -> Option<&[u8]>
    ensures some { IfSome result (λ rest. text.now ≡ 46 ∷ rest.now) }
    ensures none { IsNone result → begins is_point text.now ≡ false }
{
    match text {
        [b'.', rest @ ..] => Some(rest),
        _ => None,
    }
}

// The digits at the front, at most so many, with the number that they spell after that of the
// start, and the rest of the text.
pub(crate) fn short_digits(start: u64, most: usize, text: &[u8]) -> (u64, &[u8], &[u8])
    requires { (start + 1) * 10 ^ most ≤ 10 ^ 18 }
    ensures cut { text.now ≡ result.1.now ++ result.2.now }
    ensures digits { list_all is_ascii_digit result.1.now ≡ true }
    ensures value { result.0 ≡ number_from start result.1.now }
    ensures few { length result.1.now ≤ most }
    ensures room { (result.0 + 1) * 10 ^ (most - length result.1.now) ≤ (start + 1)
        * 10 ^ most }
    ensures end { length result.1.now < most
        → begins is_ascii_digit result.2.now ≡ false }
{
    let mut number = start;
    for (i, c) in text.iter().enumerate() {
        if !c.is_ascii_digit() || i == most {
            let (digits, rest) = text.split_at(i);
            return (number, digits, rest);
        }
        number = 10 * number + (*c - b'0') as u64;
    }
    (number, text, &[])
}

// The same in 128 bits.
fn long_digits(start: u128, most: usize, text: &[u8]) -> (u128, &[u8], &[u8])
    requires { (start + 1) * 10 ^ most ≤ 10 ^ 31 }
    ensures cut { text.now ≡ result.1.now ++ result.2.now }
    ensures digits { list_all is_ascii_digit result.1.now ≡ true }
    ensures value { result.0 ≡ number_from start result.1.now }
    ensures few { length result.1.now ≤ most }
    ensures room { (result.0 + 1) * 10 ^ (most - length result.1.now) ≤ (start + 1)
        * 10 ^ most }
    ensures end { length result.1.now < most
        → begins is_ascii_digit result.2.now ≡ false }
{
    let mut number = start;
    for (i, c) in text.iter().enumerate() {
        if !c.is_ascii_digit() || i == most {
            let (digits, rest) = text.split_at(i);
            return (number, digits, rest);
        }
        number = 10 * number + (*c - b'0') as u128;
    }
    (number, text, &[])
}

// The same, in 64 bits if the digits fit.
#[tactic(auto, using(crate::proofs::Tens::short_room, crate::proofs::Tens::long_room))]
fn digits_in_front(start: u128, most: usize, text: &[u8]) -> (u128, &[u8], &[u8])
    requires { (start + 1) * 10 ^ most ≤ 10 ^ 31 }
    ensures cut { text.now ≡ result.1.now ++ result.2.now }
    ensures digits { list_all is_ascii_digit result.1.now ≡ true }
    ensures value { result.0 ≡ number_from start result.1.now }
    ensures few { length result.1.now ≤ most }
    ensures room { (result.0 + 1) * 10 ^ (most - length result.1.now) ≤ (start + 1)
        * 10 ^ most }
    ensures end { length result.1.now < most
        → begins is_ascii_digit result.2.now ≡ false }
{
    if most > LONG {
        let (number, digits, rest) = short_digits(start as u64, most - LONG, text);
        if digits.len() < most - LONG {
            return (number as u128, digits, rest);
        }
    }
    long_digits(start, most, text)
}

fn front_of(text: &[u8]) -> Front<'_>
    ensures { IsFront text.now result }
{
    let (front, digits, rest) = digits_in_front(0, MOST, text);
    match behind_point(rest) {
        Some(behind) => {
            let (number, places, rest) = digits_in_front(front, MOST - digits.len(), behind);
            Front {
                number,
                digits: digits.len() + places.len(),
                places: places.len(),
                rest,
            }
        }
        None => Front {
            number: front,
            digits: digits.len(),
            places: 0,
            rest,
        },
    }
}

// The power of ten of an exponent, if it has its form.
fn power(exponent: &[u8]) -> Option<usize>
    ensures value { result
        ≡ (if is_exponent exponent.now then Some (number_of exponent.now) else None) }
    ensures bound { IfSome result (λ n. n < 10 ^ 4) }
{
    let (power, digits, rest) = digits_in_front(0, 4, without_sign(exponent));
    if rest.is_empty() && 1 <= digits.len() && digits.len() <= 3 {
        Some(power as usize)
    } else {
        None
    }
}

// The tens for a number with so many places and those against it, if after its digits there is
// nothing or an exponent.
fn tens(places: usize, rest: &[u8]) -> Option<(usize, usize)>
    requires { places ≤ 31 }
    ensures { result ≡ tens_read places rest.now }
{
    match rest {
        [] => Some((6, places)),
        [mark, exponent @ ..] if is_exponent_mark(*mark) => {
            let power = power(exponent)?;
            Some(if has_minus(exponent) {
                (6, places + power)
            } else {
                (6 + power, places)
            })
        }
        _ => None,
    }
}

fn within_limit(size: u128) -> Result<u64, TextKind>
    ensures { result
        ≡ (if nat_lt amount_limit size then Err TextKind.TooLarge else Ok size) }
{
    if size > LIMIT {
        Err(TextKind::TooLarge)
    } else {
        Ok(size as u64)
    }
}

#[tactic(auto, using(crate::proofs::Tens::ten_at))]
fn power_of_ten(tens: usize) -> u64
    requires { tens ≤ 15 }
    ensures { result ≡ 10 ^ tens }
{
    TENS[tens]
}

// The number times so many tens.
#[tactic(auto, using(crate::proofs::Tens::grown_large))]
fn grown(number: u128, tens: usize) -> Result<u64, TextKind>
    requires { 0 < number }
    ensures { result ≡ scaled_by number tens 0 }
{
    if number > LIMIT || tens > 15 {
        return Err(TextKind::TooLarge);
    }
    within_limit(number * power_of_ten(tens) as u128)
}

#[tactic(auto, using(crate::proofs::Tens::shrunk_far, crate::proofs::Tens::power_fits, crate::proofs::Tens::power_some))]
fn shrunk(number: u128, tens: usize) -> Result<u64, TextKind>
    requires { 0 < number }
    ensures { result ≡ scaled_by number 0 tens }
{
    if tens > 38 {
        return Err(TextKind::TooFine);
    }
    let power = 10u128.pow(tens as u32);
    if number % power != 0 {
        return Err(TextKind::TooFine);
    }
    within_limit(number / power)
}

fn scaled(number: u128, up: usize, down: usize) -> Result<u64, TextKind>
    ensures { result ≡ scaled number up down }
{
    if number == 0 {
        Ok(0)
    } else if down <= up {
        grown(number, up - down)
    } else {
        shrunk(number, down - up)
    }
}

// The number in millionths, without its sign.
fn size_of(text: &[u8]) -> Result<u64, TextKind>
    ensures value { amount_of text.now ≡ with_sign (has_minus text.now) result }
    ensures small { IfOk result (λ size. size ≤ 10 ^ 15) }
{
    let front = front_of(without_sign(text));
    if front.digits < 1 || front.digits > 30 {
        return Err(TextKind::BadNumber);
    }
    match tens(front.places, front.rest) {
        Some((up, down)) => scaled(front.number, up, down),
        None => Err(TextKind::BadNumber),
    }
}

/// One number in millionths. `BadNumber` if the text is not a number, `TooFine` if it is not a
/// whole number of millionths, and `TooLarge` if that is above 10^15 without its sign. It takes no
/// memory.
pub fn read_amount(text: &[u8]) -> Result<i64, TextKind>
    ensures { result ≡ amount_of text.now }
{
    let size = size_of(text)? as i64;
    Ok(if has_minus(text) { -size } else { size })
}

/// The amount in millionths, which is 0 if the text is not one.
pub fn millionths(text: &[u8]) -> i64
    ensures { result ≡ millionths text.now }
{
    read_amount(text).unwrap_or(0)
}
