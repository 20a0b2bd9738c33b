//! The units of a network against those of the first of a ranking.
ghost use Rattle.std.specs.Prelude.{◌≡◌, ◌++◌, IfOk, OnOk, string_bytes};
ghost use Rattle.report_rules.specs.Ranked.{with_word, signed_names, change_cell};

use flow_evaluator::{Network, Problem, UnitSet};
use std::alloc::{AllocError, Global};

/// Appends a sign and a word, and before them a space if the text is not empty.
pub fn push_word(text: &mut String, sign: &str, word: &str) -> Result<(), AllocError>
    ensures { OnOk result
        (string_bytes text.new ≡ with_word (string_bytes text.old) (sign.now ++ word.now)) }
{
    if !text.is_empty() {
        text.push(' ')?;
    }
    text.push_str(sign)?;
    text.push_str(word)
}

/// Appends the names of the units, each with the sign before it.
fn push_signed(
    text: &mut String,
    sign: &str,
    problem: &Problem,
    units: UnitSet,
) -> Result<(), AllocError>
    ensures { OnOk result
        (string_bytes text.new ≡ signed_names problem.now sign.now (string_bytes text.old) units) }
{
    for u in units {
        push_word(text, sign, problem.unit_name(u))?;
    }
    Ok(())
}

/// The units that the network takes in and leaves out against the first.
pub fn change_of(
    alloc: Global,
    problem: &Problem,
    first: &Network,
    network: &Network,
) -> Result<String, AllocError>
    ensures { IfOk result
        (λ text. string_bytes text ≡ change_cell problem.now first.now network.now) }
{
    let mut text = String::new(alloc);
    push_signed(
        &mut text,
        "+",
        problem,
        network.units().minus(first.units()),
    )?;
    push_signed(
        &mut text,
        "-",
        problem,
        first.units().minus(network.units()),
    )?;
    Ok(text)
}
