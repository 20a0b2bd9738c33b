//! Whole numbers.
ghost use Rattle.std.specs.Prelude.{◌≡◌, ◌≤◌, ◌≤ℤ◌, pos, IfOk, IfSome};
ghost use Rattle.tree_text_rules.specs.integer_laws.Range.{InRange};
ghost use Rattle.tree_text_rules.specs.LineRead.{one};
ghost use Rattle.tree_text_rules.specs.Token as rules;
ghost use Rattle.tree_reading.specs.View.{tokens_in};

use crate::apart::only;
use text_lines::whole_number::whole_within;
use tree_text_rules::TreeKind;

const GREATEST: u128 = 170_141_183_460_469_231_731_687_303_715_884_105_727;

fn whole_number(token: &[u8]) -> Option<i128>
    ensures value { result ≡ rules.whole_number token.now }
    ensures range { IfSome result InRange }
{
    match token {
        [] => None,
        [b'-', digits @ ..] => match whole_within(GREATEST, digits)? {
            0 => None,
            number => Some(-(number as i128)),
        },
        _ => Some(whole_within(GREATEST, token)? as i128),
    }
}

/// A whole number in range.
pub fn number_of(token: &[u8]) -> Result<i128, TreeKind>
    ensures value { result ≡ rules.number_of token.now }
    ensures range { IfOk result InRange }
{
    whole_number(token).ok_or(TreeKind::BadNumber)
}

/// The weight of a set, at least 0.
pub fn weight_of(token: &[u8]) -> Result<i128, TreeKind>
    ensures value { result ≡ rules.weight_of token.now }
    ensures range { IfOk result InRange }
    ensures not_negative { IfOk result (λ weight. pos 0 ≤ℤ weight) }
{
    match number_of(token)? {
        number if 0 <= number => Ok(number),
        _ => Err(TreeKind::BadNumber),
    }
}

/// The divisor of sizes and cost, at least 1.
pub fn denominator_of(token: &[u8]) -> Result<i128, TreeKind>
    ensures value { result ≡ rules.denominator_of token.now }
    ensures range { IfOk result InRange }
    ensures positive { IfOk result (λ d. pos 1 ≤ℤ d) }
{
    match number_of(token)? {
        number if 1 <= number => Ok(number),
        _ => Err(TreeKind::BadNumber),
    }
}

/// The number of a node or of a step.
pub fn count_of(token: &[u8]) -> Result<u32, TreeKind>
    ensures { result ≡ rules.count_of token.now }
{
    let number = whole_within(4_294_967_295, token).ok_or(TreeKind::BadNumber)?;
    Ok(number as u32)
}

/// The number of a node or of a step, which is the one token that is left.
#[tactic(auto, using(crate::proofs::Counted::not_one))]
pub fn one_count(fields: Option<&[u8]>) -> Result<u32, TreeKind>
    ensures { result ≡ one rules.count_of (tokens_in fields.entry) }
{
    count_of(only(fields)?)
}

/// How many children a branch has, at least 1.
pub fn children_of(token: &[u8]) -> Result<u32, TreeKind>
    ensures value { result ≡ rules.children_of token.now }
    ensures some { IfOk result (λ count. 1 ≤ count) }
{
    match count_of(token)? {
        0 => Err(TreeKind::BadNumber),
        count => Ok(count),
    }
}

/// How many options there are.
pub fn options_of(token: &[u8]) -> Result<u128, TreeKind>
    ensures { result ≡ rules.options_of token.now }
{
    whole_within(u128::MAX, token).ok_or(TreeKind::BadNumber)
}
