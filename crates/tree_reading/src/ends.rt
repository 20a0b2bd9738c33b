//! The lines of ends.
ghost use Rattle.std.specs.Prelude.{◌≡◌, [], Some, Ok, IfOk, IfErr, IfSome};
ghost use Rattle.tree_text_rules.specs.Read.{charge_of};
ghost use Rattle.branch_tree.specs.View.{end_of};
ghost use Rattle.tree_text_rules.specs.tree_rules.Known.{KnowsEnd};
ghost use Rattle.tree_text_rules.specs.problem_rules.Problem.{Problem};
ghost use Rattle.tree_text_rules.specs.tree_rules.Tree as trees;
ghost use Rattle.tree_text_rules.specs.tree_rules.Tree.{HasChildren};
ghost use Rattle.tree_text_rules.specs.LineRead as reads;
ghost use Rattle.tree_text_rules.specs.Token as rules;
ghost use Rattle.tree_reading.specs.Apart.{formed_by};
ghost use Rattle.text_lines.specs.Tells.{TellsLine};
ghost use Rattle.tree_reading.specs.View.{tokens_in};

use crate::apart::{LineParts, only, pair};
use crate::fault_order::both;
use crate::line_fault::LineFault;
use crate::list::numbers_of;
use crate::name::{exclusion_of, material_of, one_material, one_unit};
use crate::number::children_of;
use branch_tree::{Covers, End, Multipliers, Problem, Scaled};
use std::alloc::Global;
use tree_text_rules::{TreeKind, Word};

// The end of a line that has no list of numbers.
#[tactic(auto, using(crate::proofs::Counted::not_alone, crate::proofs::Counted::not_one, crate::proofs::Counted::not_two))]
fn short_end(problem: &Problem, word: Option<Word>, fields: Option<&[u8]>) -> Result<End, TreeKind>
    requires refuted { word ≡ Some Word.Refuted → ⊥ }
    requires bound { word ≡ Some Word.Bound → ⊥ }
    requires charge { word ≡ Some Word.Charge → ⊥ }
    requires open { word ≡ Some Word.Open → ⊥ }
    ensures ok { IfOk result
        (λ end. reads.end_by problem.now word (tokens_in fields.entry) ≡ Ok (end_of end)) }
    ensures known { IfOk result (λ end. KnowsEnd problem.now (end_of end)) }
    ensures whole { IfOk result (λ end. HasChildren (end_of end)) }
    ensures bare { IfOk result
        (λ end. IfSome (charge_of (end_of end)) (λ h. h.covers ≡ [])) }
    ensures fault { IfErr result
        (λ kind. reads.end_by problem.now word (tokens_in fields.entry) ≡ Err kind) }
{
    match word {
        Some(Word::Dead) => Ok(End::Dead(one_material(problem, fields)?)),
        Some(Word::Clash) => Ok(End::Clash(exclusion_of(problem, only(fields)?)?)),
        Some(Word::Branch) => {
            let (material, children) = pair(fields)?;
            let (material, children) = both(material_of(problem, material), children_of(children))?;
            Ok(End::Branch { material, children })
        }
        Some(Word::Either) => Ok(End::Either(one_unit(problem, fields)?)),
        _ => Err(TreeKind::BadLine),
    }
}

/// A scale and multipliers.
pub(crate) fn scaled_in(alloc: Global, fields: Option<&[u8]>) -> Result<Scaled, LineFault>
    ensures ok { IfOk result
        (λ s. reads.one_and_more rules.number_of rules.number_of (tokens_in fields.entry)
        ≡ Ok (s.d, s.ys)) }
    ensures fault { IfErr result
        (TellsLine
        (reads.one_and_more rules.number_of rules.number_of (tokens_in fields.entry))) }
{
    if fields.is_none() {
        return Err(LineFault::Kind(TreeKind::BadLine));
    }
    Ok(Scaled::from_vec(numbers_of(alloc, fields)?))
}

// An open leaf, with a bound if one follows the word.
fn open_end(alloc: Global, fields: Option<&[u8]>) -> Result<End, LineFault>
    ensures ok { IfOk result
        (λ end. rules.mapped (λ l. trees.leaf l) (reads.open_of (tokens_in fields.entry))
        ≡ Ok (end_of end)) }
    ensures known { IfOk result (λ end. (p : Problem) → KnowsEnd p (end_of end)) }
    ensures whole { IfOk result (λ end. HasChildren (end_of end)) }
    ensures bare { IfOk result
        (λ end. IfSome (charge_of (end_of end)) (λ h. h.covers ≡ [])) }
    ensures fault { IfErr result
        (TellsLine
        (rules.mapped (λ l. trees.leaf l) (reads.open_of (tokens_in fields.entry)))) }
{
    if fields.is_none() {
        return Ok(End::Open(None));
    }
    let scaled = scaled_in(alloc, fields)?;
    scaled.are_in_range();
    Ok(End::Open(Some(scaled)))
}

/// The end that a line says. A charge has no set in it yet.
pub fn end_line(alloc: Global, problem: &Problem, line: &LineParts) -> Result<End, LineFault>
    ensures ok { IfOk result
        (λ end. formed_by line.now.formed
        (reads.end_by problem.now line.now.word (tokens_in line.now.fields))
        ≡ Ok (end_of end)) }
    ensures known { IfOk result (λ end. KnowsEnd problem.now (end_of end)) }
    ensures whole { IfOk result (λ end. HasChildren (end_of end)) }
    ensures bare { IfOk result
        (λ end. IfSome (charge_of (end_of end)) (λ h. h.covers ≡ [])) }
    ensures fault { IfErr result
        (TellsLine
        (formed_by line.now.formed
        (reads.end_by problem.now line.now.word (tokens_in line.now.fields)))) }
{
    if !line.formed {
        return Err(LineFault::Kind(TreeKind::BadLine));
    }
    match line.word {
        Some(Word::Refuted) => {
            let numbers = numbers_of(alloc, line.fields)?;
            Ok(End::Refuted(Multipliers::from_vec(numbers)))
        }
        Some(Word::Bound) => {
            let scaled = scaled_in(alloc, line.fields)?;
            scaled.are_in_range();
            Ok(End::Bound(scaled))
        }
        Some(Word::Charge) => {
            let scaled = scaled_in(alloc, line.fields)?;
            scaled.are_in_range();
            let covers = Covers::from_vec(Vec::new(alloc));
            covers.are_kept();
            Ok(End::Charge { scaled, covers })
        }
        Some(Word::Open) => open_end(alloc, line.fields),
        word => short_end(problem, word, line.fields).map_err(LineFault::Kind),
    }
}
