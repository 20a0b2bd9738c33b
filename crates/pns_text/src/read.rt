//! The reader of a whole text.
ghost use Rattle.std.specs.Prelude.{◌≡◌, true, ◌<◌, ◌-◌, ◌^◌, Ok, IfOk, IfErr, length};
ghost use Rattle.text_lines.specs.problem_rules.Problem as rules;
ghost use Rattle.text_lines.specs.problem_rules.Validity.{IsValid};
ghost use Rattle.text_lines.specs.text_rules.Value.{has_product, with_product, names_all};
ghost use Rattle.text_lines.specs.text_rules.Value.{meaning_at};
ghost use Rattle.text_lines.specs.text_rules.Value.{read_text};
ghost use Rattle.text_lines.specs.Tells.{Tells};

use crate::cut::Kept;
use crate::fault::TextFault;
use crate::meaning::{Names, first_meaning};
use crate::settings::settings_of;
use crate::value::parts_of;
use crate::walk::walk_text;
use pns_problem::{Kind, Material, Parts, Problem};
use std::alloc::Global;
use text_lines::{TextKind, read_is_valid};

fn has_product(materials: &[Material]) -> bool
    ensures { result ≡ has_product materials.now }
{
    materials
        .iter()
        .any(|material| material.kind == Kind::Product)
}

// The problem of these parts, if they have a product. With one they are valid, so the only other
// refusal is out of memory.
fn with_product(alloc: Global, number: u32, parts: Parts) -> Result<Problem, TextFault>
    requires { has_product parts.materials ≡ true → IsValid parts }
    ensures ok { IfOk result (λ p. with_product number parts ≡ Ok p) }
    ensures fault { IfErr result (Tells (with_product number parts)) }
{
    if !has_product(&parts.materials) {
        return Err(TextFault::At {
            line: number,
            kind: TextKind::NoProduct,
        });
    }
    match Problem::build(alloc, parts) {
        Ok(problem) => Ok(problem),
        Err(fault) => {
            if !fault.is_memory() {
                unreachable!()
            }
            Err(TextFault::Memory)
        }
    }
}

// The problem of these lines of these names, or their first fault of meaning; the line after the
// last has the number.
fn read_meaning(
    alloc: Global,
    names: &Names<'_>,
    lines: &[Kept<'_>],
    number: u32,
) -> Result<Problem, TextFault>
    requires names { names.now ≡ names_all lines.now }
    requires few { length lines.now < 2 ^ 32 }
    requires valid { (p : rules.Problem) → meaning_at lines.now number ≡ Ok p → IsValid p }
    ensures ok { IfOk result (λ p. meaning_at lines.now number ≡ Ok p) }
    ensures fault { IfErr result (Tells (meaning_at lines.now number)) }
{
    let settings = settings_of(lines);
    match first_meaning(&settings, names, lines) {
        Some((line, kind)) => Err(TextFault::At { line, kind }),
        None => {
            let parts = parts_of(alloc, &settings, names, lines)?;
            with_product(alloc, number, parts)
        }
    }
}

/// The problem that the text stands for. The answer is `At` exactly if the text has a fault, with
/// the line of its first fault, counted from 1, and the kind. Faults of form in the whole text come
/// before faults of meaning; of each group the first line is reported, and on one line the first
/// kind. The answer `Memory` means out of memory, at any moment. The time is linear in the text.
pub fn read_problem(alloc: Global, bytes: &[u8]) -> Result<Problem, TextFault>
    requires { length bytes.now < 2 ^ 32 - 1 }
    ensures read { IfOk result (λ p. read_text bytes.now ≡ Ok p) }
    ensures fault { IfErr result (Tells (read_text bytes.now)) }
{
    read_is_valid();
    match walk_text(alloc, bytes) {
        Ok((walk, number)) => read_meaning(alloc, &walk.seen.names, &walk.kept, number),
        Err(fault) => Err(fault),
    }
}
