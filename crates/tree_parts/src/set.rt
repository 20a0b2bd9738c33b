//! Sets of units by their tokens, and the lines of a part's text that have one.
ghost use Rattle.std.specs.Prelude.{◌≡◌, ◌<◌, ◌∷◌, [], ℕ, List, Ok, Err, IfOk, IfErr, IfSome};
ghost use Rattle.std.specs.Prelude.{IfNone};
ghost use Rattle.tree_text_laws.specs.tree_rules.Known.{AreUnits};
ghost use Rattle.tree_text_laws.specs.pns_rules.Tokens.{token_of};
ghost use Rattle.tree_text_laws.specs.tree_text_rules.Line.{Token};
ghost use Rattle.tree_reading.specs.View.{line_of};
ghost use Rattle.tree_text_laws.specs.tree_text_rules.PartRead.{IsFormedAs, SetLine};

use cert_check::read_token;
use std::str;
use tree_reading::{Line, first_token, next_token, parts_of};
use tree_text_laws::{Problem, TreeKind, UnitSet};

/// The units of the problem whose token the word is. It is `None` if and only if the word is the
/// token of no set of them.
pub fn units_named(problem: &Problem, word: &str) -> Option<UnitSet>
    ensures some { IfSome result
        (λ units. AreUnits problem.now units × (word.now ≡ token_of units)) }
    ensures none { IfNone result
        ((units : List ℕ) → AreUnits problem.now units → word.now ≡ token_of units → ⊥) }
{
    problem.is_valid();
    let Ok(units) = read_token(word) else {
        return None;
    };
    units.rises();
    if units.within(UnitSet::below(problem.units().len() as u32)) {
        Some(units)
    } else {
        None
    }
}

// The same of bytes.
fn units_of(problem: &Problem, token: &[u8]) -> Option<UnitSet>
    ensures some { IfSome result
        (λ units. AreUnits problem.now units × (token.now ≡ token_of units)) }
    ensures none { IfNone result
        ((units : List ℕ) → AreUnits problem.now units → token.now ≡ token_of units → ⊥) }
{
    match str::from_utf8(token) {
        Ok(word) => units_named(problem, word),
        Err(_) => None,
    }
}

// The one token after the word, with which the line begins. It is `None` if and only if the line
// has another form.
fn token_behind<'a>(word: &[u8], line: &Line<'a>) -> Option<&'a [u8]>
    ensures some { IfSome result
        (λ token. IsFormedAs (line_of line.now) (word.now ∷ token.now ∷ [])) }
    ensures none { IfNone result
        ((token : Token) → IsFormedAs (line_of line.now) (word.now ∷ token ∷ []) → ⊥) }
{
    let (first, fields) = first_token(line.text);
    if first != word {
        return None;
    }
    let (token, behind) = next_token(fields)?;
    if next_token(behind).is_some() {
        return None;
    }
    parts_of(line).formed.then_some(token)
}

/// The set of units that a line of this word stands for, which has none of those before.
pub fn set_line(
    problem: &Problem,
    before: UnitSet,
    word: &[u8],
    line: &Line,
) -> Result<UnitSet, TreeKind>
    ensures ok { IfOk result
        (λ units. SetLine problem.now before word.now (line_of line.now) (Ok units)) }
    ensures fault { IfErr result
        (λ kind. SetLine problem.now before word.now (line_of line.now) (Err kind)) }
{
    problem.is_valid();
    let Some(token) = token_behind(word, line) else {
        return Err(TreeKind::BadLine);
    };
    let Some(units) = units_of(problem, token) else {
        return Err(TreeKind::BadNumber);
    };
    if before.meet(units).is_empty() {
        Ok(units)
    } else {
        Err(TreeKind::BadNumber)
    }
}
