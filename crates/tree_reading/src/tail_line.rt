//! The lines of tails.
ghost use Rattle.std.specs.Prelude.{◌≡◌, Some, Ok, Err, IfOk, IfErr};
ghost use Rattle.tree_text_rules.specs.problem_rules.Each.{Each};
ghost use Rattle.tree_text_rules.specs.tree_rules.Known.{KnowsColumn, KnowsPlace};
ghost use Rattle.tree_text_rules.specs.LineRead as reads;
ghost use Rattle.tree_reading.specs.Apart.{formed_by, tail_opening_of};
ghost use Rattle.text_lines.specs.Tells.{TellsLine};
ghost use Rattle.tree_reading.specs.View.{tokens_in};

use crate::apart::{LineParts, alone, pair};
use crate::column_list::columns_of;
use crate::fault_order::both;
use crate::line_fault::LineFault;
use crate::number::{count_of, one_count, options_of};
use crate::opening::TailOpening;
use crate::place::place_of;
use branch_tree::Problem;
use std::alloc::Global;
use tree_text_rules::{Column, Place, TreeKind, Word};

/// What the first line of a tail says.
#[tactic(auto, using(crate::proofs::Counted::not_alone, crate::proofs::Counted::not_two))]
pub fn tail_opening_line(line: &LineParts) -> Result<TailOpening, TreeKind>
    ensures ok { IfOk result
        (λ opening. reads.behind_nodes line.now.word
        (formed_by line.now.formed
        (reads.tail_opening_by line.now.word (tokens_in line.now.fields)))
        ≡ Ok (tail_opening_of opening)) }
    ensures fault { IfErr result
        (λ kind. reads.behind_nodes line.now.word
        (formed_by line.now.formed
        (reads.tail_opening_by line.now.word (tokens_in line.now.fields))) ≡ Err kind) }
{
    match line.word {
        Some(Word::Node) => Err(TreeKind::MoreNodes),
        _ if !line.formed => Err(TreeKind::BadLine),
        Some(Word::End) => alone(TailOpening::Whole, line.fields),
        Some(Word::Spent) => {
            let (next, options) = pair(line.fields)?;
            let (next, options) = both(count_of(next), options_of(options))?;
            Ok(TailOpening::Spent { next, options })
        }
        Some(Word::Past) => one_count(line.fields).map(|node| TailOpening::Past { node }),
        _ => Err(TreeKind::BadLine),
    }
}

/// The columns that are not in a basis.
pub fn nonbasic_line(
    alloc: Global,
    problem: &Problem,
    line: &LineParts,
) -> Result<Vec<Column>, LineFault>
    ensures ok { IfOk result
        (λ v. reads.behind_nodes line.now.word
        (formed_by line.now.formed
        (reads.nonbasic_by problem.now line.now.word (tokens_in line.now.fields))) ≡ Ok v.items) }
    ensures known { IfOk result (λ v. Each (KnowsColumn problem.now) v.items) }
    ensures fault { IfErr result
        (TellsLine
        (reads.behind_nodes line.now.word
        (formed_by line.now.formed
        (reads.nonbasic_by problem.now line.now.word (tokens_in line.now.fields))))) }
{
    match line.word {
        Some(Word::Node) => Err(LineFault::Kind(TreeKind::MoreNodes)),
        Some(Word::Nonbasic) if line.formed => columns_of(alloc, problem, line.fields),
        _ => Err(LineFault::Kind(TreeKind::BadLine)),
    }
}

/// The place at which a number is out of range.
pub fn place_line(problem: &Problem, line: &LineParts) -> Result<Place, TreeKind>
    ensures value { result ≡ reads.behind_nodes line.now.word
        (formed_by line.now.formed
        (reads.place_by problem.now line.now.word (tokens_in line.now.fields))) }
    ensures known { IfOk result (KnowsPlace problem.now) }
{
    match line.word {
        Some(Word::Node) => Err(TreeKind::MoreNodes),
        Some(Word::Place) if line.formed => place_of(problem, line.fields),
        _ => Err(TreeKind::BadLine),
    }
}

/// The last line.
#[tactic(auto, using(crate::proofs::Counted::not_alone))]
pub fn close_line(line: &LineParts) -> Result<(), TreeKind>
    ensures { result ≡ reads.behind_nodes line.now.word
        (formed_by line.now.formed (reads.close_by line.now.word (tokens_in line.now.fields))) }
{
    match line.word {
        Some(Word::Node) => Err(TreeKind::MoreNodes),
        Some(Word::End) if line.formed => alone((), line.fields),
        _ => Err(TreeKind::BadLine),
    }
}
