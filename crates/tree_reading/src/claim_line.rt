//! The lines of claims.
ghost use Rattle.std.specs.Prelude.{◌≡◌, ◌≤ℤ◌, ℤ, List, Ok, Err, IfOk, IfErr, length, pos};
ghost use Rattle.tree_text_rules.specs.integer_laws.Range.{InRange, AllInRange};
ghost use Rattle.tree_text_rules.specs.tree_rules.Known.{AreUnits};
ghost use Rattle.tree_text_rules.specs.LineRead as reads;
ghost use Rattle.tree_reading.specs.Apart.{formed_by, opening_of, KnowsOpening};
ghost use Rattle.text_lines.specs.Tells.{TellsLine};
ghost use Rattle.tree_reading.specs.View.{line_of, tokens_in};

use crate::apart::{LineParts, alone, only};
use crate::fault_order::lesser;
use crate::line::{Line, next_token};
use crate::line_fault::LineFault;
use crate::list::numbers_of;
use crate::number::{denominator_of, number_of};
use crate::opening::Opening;
use crate::unit_list::units_of;
use branch_tree::{Problem, UnitSet};
use std::alloc::Global;
use tree_text_rules::{TreeKind, Word};

/// The first line of a text.
pub fn file_type_line(line: &Line) -> Result<(), TreeKind>
    ensures { result ≡ reads.file_type_read (line_of line.now) }
{
    if line.ended && line.text == b"file_type=PNS_tree_v1".as_slice() {
        Ok(())
    } else {
        Err(TreeKind::FileType)
    }
}

/// What the first line of a claim says.
#[tactic(auto, using(crate::proofs::Counted::not_alone))]
pub fn opening_line(problem: &Problem, line: &LineParts) -> Result<Opening, TreeKind>
    ensures ok { IfOk result
        (λ opening. formed_by line.now.formed
        (reads.opening_by problem.now line.now.word (tokens_in line.now.fields))
        ≡ Ok (opening_of opening)) }
    ensures known { IfOk result (KnowsOpening problem.now) }
    ensures fault { IfErr result
        (λ kind. formed_by line.now.formed
        (reads.opening_by problem.now line.now.word (tokens_in line.now.fields)) ≡ Err kind) }
{
    if !line.formed {
        return Err(TreeKind::BadLine);
    }
    match line.word {
        Some(Word::Network) => Ok(Opening::Network(units_of(problem, line.fields)?)),
        Some(Word::Infeasible) => alone(Opening::Infeasible, line.fields),
        Some(Word::Unknown) => alone(Opening::Unknown, line.fields),
        _ => Err(TreeKind::BadLine),
    }
}

/// The units of a network.
pub fn network_line(problem: &Problem, line: &LineParts) -> Result<UnitSet, TreeKind>
    ensures ok { IfOk result
        (λ us. formed_by line.now.formed
        (reads.network_by problem.now line.now.word (tokens_in line.now.fields)) ≡ Ok us) }
    ensures known { IfOk result (AreUnits problem.now) }
    ensures fault { IfErr result
        (λ kind. formed_by line.now.formed
        (reads.network_by problem.now line.now.word (tokens_in line.now.fields)) ≡ Err kind) }
{
    match line.word {
        Some(Word::Network) if line.formed => units_of(problem, line.fields),
        _ => Err(TreeKind::BadLine),
    }
}

/// The divisor of sizes and cost, and as many sizes as units.
pub fn sizes_line(
    alloc: Global,
    count: u32,
    line: &LineParts,
) -> Result<(i128, Vec<i128>), LineFault>
    ensures ok { IfOk result
        (λ found. formed_by {A = ℤ × List ℤ} line.now.formed
        (reads.sizes_by count line.now.word (tokens_in line.now.fields))
        ≡ Ok (found.0, found.1.items)) }
    ensures sized { IfOk result (λ found. (length found.1.items ≡ count) × (pos 1 ≤ℤ found.0)) }
    ensures range { IfOk result (λ found. InRange found.0 × AllInRange found.1.items) }
    ensures fault { IfErr result
        (TellsLine
        (formed_by {A = ℤ × List ℤ} line.now.formed
        (reads.sizes_by count line.now.word (tokens_in line.now.fields)))) }
{
    let (Some(Word::Sizes), true, Some((first, behind))) = (
        line.word,
        line.formed,
        next_token(line.fields),
    ) else {
        return Err(LineFault::Kind(TreeKind::BadLine));
    };
    match (numbers_of(alloc, behind), denominator_of(first)) {
        (Ok(sizes), Ok(d)) => {
            if sizes.len() == count as usize {
                Ok((d, sizes))
            } else {
                Err(LineFault::Kind(TreeKind::WrongCount))
            }
        }
        (Ok(_), Err(kind)) => Err(LineFault::Kind(kind)),
        (Err(LineFault::Kind(other)), Err(kind)) => Err(LineFault::Kind(lesser(kind, other))),
        (Err(fault), _) => Err(fault),
    }
}

/// The cost.
#[tactic(auto, using(crate::proofs::Counted::not_one))]
pub fn cost_line(line: &LineParts) -> Result<i128, TreeKind>
    ensures value { result ≡ formed_by line.now.formed
        (reads.cost_by line.now.word (tokens_in line.now.fields)) }
    ensures range { IfOk result InRange }
{
    match line.word {
        Some(Word::Cost) if line.formed => number_of(only(line.fields)?),
        _ => Err(TreeKind::BadLine),
    }
}
