//! The lines of the head of a tree, without the sets that may follow one.
ghost use Rattle.std.specs.Prelude.{◌≡◌, [], Ok, IfOk, IfErr, IfSome};
ghost use Rattle.tree_text_rules.specs.tree_rules.Head as heads;
ghost use Rattle.tree_text_rules.specs.tree_rules.HeadKnown.{KnowsLine};
ghost use Rattle.branch_tree.specs.HeadView as views;
ghost use Rattle.tree_text_rules.specs.LineRead as reads;
ghost use Rattle.tree_text_rules.specs.Token as rules;
ghost use Rattle.tree_reading.specs.Apart.{formed_by, formed_if_read};
ghost use Rattle.tree_reading.specs.Front.{fact_by, BearsNone, ReadsLine, ReadsBegun};
ghost use Rattle.text_lines.specs.Tells.{TellsLine};
ghost use Rattle.tree_reading.specs.View.{tokens_in};

use crate::apart::LineParts;
use crate::ends::scaled_in;
use crate::fault_order::{both, lesser};
use crate::line::next_token;
use crate::line_fault::LineFault;
use crate::name::{material_of, one_unit, unit_of};
use crate::number::weight_of;
use crate::steps::step_line;
use branch_tree::{Covers, HeadLine, Problem, Scaled};
use std::alloc::Global;
use tree_text_rules::{TreeKind, Word};

// A value, and the scale and the multipliers that follow it.
fn with_scaled<A: Copy>(
    alloc: Global,
    first: Result<A, TreeKind>,
    fields: Option<&[u8]>,
) -> Result<(A, Scaled), LineFault>
    ensures ok { IfOk result
        (λ found. rules.both first
        (reads.one_and_more rules.number_of rules.number_of (tokens_in fields.entry))
        ≡ Ok (found.0, (found.1.d, found.1.ys))) }
    ensures first { IfOk result (λ found. first ≡ Ok found.0) }
    ensures fault { IfErr result
        (TellsLine
        (rules.both first
        (reads.one_and_more rules.number_of rules.number_of (tokens_in fields.entry)))) }
{
    match (first, scaled_in(alloc, fields)) {
        (Ok(value), Ok(scaled)) => Ok((value, scaled)),
        (Ok(_), Err(fault)) => Err(fault),
        (Err(kind), Ok(_)) => Err(LineFault::Kind(kind)),
        (Err(kind), Err(LineFault::Kind(other))) => Err(LineFault::Kind(lesser(kind, other))),
        (Err(_), Err(fault)) => Err(fault),
    }
}

// A unit, the size that it may have at most, and a charge.
fn cap_of(alloc: Global, problem: &Problem, fields: Option<&[u8]>) -> Result<HeadLine, LineFault>
    ensures ok { IfOk result
        (λ l. reads.cap_of problem.now (tokens_in fields.entry) ≡ Ok (views.line_of l)) }
    ensures known { IfOk result (λ l. KnowsLine problem.now (views.line_of l)) }
    ensures bare { IfOk result (λ l. BearsNone (views.line_of l)) }
    ensures fault { IfErr result
        (TellsLine (reads.cap_of problem.now (tokens_in fields.entry))) }
{
    let Some((unit, behind)) = next_token(fields) else {
        return Err(LineFault::Kind(TreeKind::BadLine));
    };
    let Some((size, behind)) = next_token(behind) else {
        return Err(LineFault::Kind(TreeKind::BadLine));
    };
    let sized = both(unit_of(problem, unit), weight_of(size));
    let ((unit, size), scaled) = with_scaled(alloc, sized, behind)?;
    scaled.are_in_range();
    let covers = Covers::from_vec(Vec::new(alloc));
    covers.are_kept();
    Ok(HeadLine::Cap {
        unit,
        size,
        scaled,
        covers,
    })
}

// A unit that is left out, and a charge.
fn out_of(alloc: Global, problem: &Problem, fields: Option<&[u8]>) -> Result<HeadLine, LineFault>
    ensures ok { IfOk result
        (λ l. reads.out_of problem.now (tokens_in fields.entry) ≡ Ok (views.line_of l)) }
    ensures known { IfOk result (λ l. KnowsLine problem.now (views.line_of l)) }
    ensures bare { IfOk result (λ l. BearsNone (views.line_of l)) }
    ensures fault { IfErr result
        (TellsLine (reads.out_of problem.now (tokens_in fields.entry))) }
{
    let Some((unit, behind)) = next_token(fields) else {
        return Err(LineFault::Kind(TreeKind::BadLine));
    };
    let (unit, scaled) = with_scaled(alloc, unit_of(problem, unit), behind)?;
    scaled.are_in_range();
    let covers = Covers::from_vec(Vec::new(alloc));
    covers.are_kept();
    Ok(HeadLine::Out {
        unit,
        scaled,
        covers,
    })
}

// A unit of which no more is of use.
fn trim_of(problem: &Problem, fields: Option<&[u8]>) -> Result<HeadLine, LineFault>
    ensures ok { IfOk result
        (λ l. rules.mapped heads.trim
        (reads.one (rules.unit_of problem.now) (tokens_in fields.entry))
        ≡ Ok (views.line_of l)) }
    ensures known { IfOk result (λ l. KnowsLine problem.now (views.line_of l)) }
    ensures bare { IfOk result (λ l. BearsNone (views.line_of l)) }
    ensures fault { IfErr result
        (TellsLine
        (rules.mapped heads.trim
        (reads.one (rules.unit_of problem.now) (tokens_in fields.entry)))) }
{
    match one_unit(problem, fields) {
        Ok(unit) => Ok(HeadLine::Trim(unit)),
        Err(kind) => Err(LineFault::Kind(kind)),
    }
}

// A material, the amount of which no more is used, what its use is worth, and a charge.
fn use_of(alloc: Global, problem: &Problem, fields: Option<&[u8]>) -> Result<HeadLine, LineFault>
    ensures ok { IfOk result
        (λ l. reads.use_of problem.now (tokens_in fields.entry) ≡ Ok (views.line_of l)) }
    ensures known { IfOk result (λ l. KnowsLine problem.now (views.line_of l)) }
    ensures bare { IfOk result (λ l. BearsNone (views.line_of l)) }
    ensures fault { IfErr result
        (TellsLine (reads.use_of problem.now (tokens_in fields.entry))) }
{
    let Some((material, behind)) = next_token(fields) else {
        return Err(LineFault::Kind(TreeKind::BadLine));
    };
    let Some((amount, behind)) = next_token(behind) else {
        return Err(LineFault::Kind(TreeKind::BadLine));
    };
    let Some((worth, behind)) = next_token(behind) else {
        return Err(LineFault::Kind(TreeKind::BadLine));
    };
    let used = both(material_of(problem, material), weight_of(amount));
    let valued = both(used, weight_of(worth));
    let (((material, amount), worth), scaled) = with_scaled(alloc, valued, behind)?;
    scaled.are_in_range();
    let covers = Covers::from_vec(Vec::new(alloc));
    covers.are_kept();
    Ok(HeadLine::Use {
        material,
        amount,
        worth,
        scaled,
        covers,
    })
}

// The line of a head that begins as one with facts.
fn fact_in(alloc: Global, problem: &Problem, line: &LineParts) -> Result<HeadLine, LineFault>
    ensures { IfSome (fact_by problem.now line.now.word (tokens_in line.now.fields))
        (λ read. ReadsBegun problem.now (formed_by line.now.formed read) result) }
{
    if !line.formed {
        return Err(LineFault::Kind(TreeKind::BadLine));
    }
    match line.word {
        Some(Word::Cap) => cap_of(alloc, problem, line.fields),
        Some(Word::Out) => out_of(alloc, problem, line.fields),
        Some(Word::Trim) => trim_of(problem, line.fields),
        Some(Word::Use) => use_of(alloc, problem, line.fields),
        _ => Err(LineFault::Kind(TreeKind::BadLine)),
    }
}

/// The line of a head that a line says, without the sets that may follow it, or none if its first
/// word is another.
pub fn front_line(
    alloc: Global,
    problem: &Problem,
    line: &LineParts,
) -> Option<Result<HeadLine, LineFault>>
    ensures { ReadsLine problem.now
        (formed_if_read line.now.formed
        (reads.head_by problem.now line.now.word (tokens_in line.now.fields))) result }
{
    match line.word {
        Some(Word::Cap | Word::Out | Word::Trim | Word::Use) => {
            Some(fact_in(alloc, problem, line))
        }
        _ => match step_line(problem, line) {
            None => None,
            Some(Ok(step)) => Some(Ok(HeadLine::Step(step))),
            Some(Err(kind)) => Some(Err(LineFault::Kind(kind))),
        },
    }
}
