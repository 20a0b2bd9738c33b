//! The lines that begin nodes.
ghost use Rattle.std.specs.Prelude.{◌≡◌, [], Ok, Err, IfOk, IfErr};
ghost use Rattle.tree_text_rules.specs.tree_rules.Known.{AreUnits};
ghost use Rattle.tree_text_rules.specs.LineRead as reads;
ghost use Rattle.tree_reading.specs.View.{tokens_in};

use crate::apart::{LineParts, alone};
use crate::unit_list::units_of;
use branch_tree::{Problem, UnitSet};
use tree_text_rules::{TreeKind, Word};

/// The option of the node that a line begins.
pub fn option_line(problem: &Problem, line: &LineParts) -> Result<UnitSet, TreeKind>
    ensures ok { IfOk result
        (λ us. reads.option_by problem.now line.now.word (tokens_in line.now.fields)
        line.now.formed
        ≡ Ok us) }
    ensures known { IfOk result (AreUnits problem.now) }
    ensures fault { IfErr result
        (λ kind. reads.option_by problem.now line.now.word (tokens_in line.now.fields)
        line.now.formed ≡ Err kind) }
{
    match line.word {
        Some(Word::Node) if line.formed => units_of(problem, line.fields),
        Some(Word::Spent | Word::Past | Word::End) => Err(TreeKind::FewerNodes),
        _ => Err(TreeKind::BadLine),
    }
}

/// The root's line, which has no names.
#[tactic(auto, using(crate::proofs::Counted::not_alone))]
pub fn root_line(line: &LineParts) -> Result<UnitSet, TreeKind>
    ensures ok { IfOk result
        (λ us. reads.root_by line.now.word (tokens_in line.now.fields) line.now.formed ≡ Ok us) }
    ensures none { IfOk result (λ us. us ≡ []) }
    ensures fault { IfErr result
        (λ kind. reads.root_by line.now.word (tokens_in line.now.fields) line.now.formed
        ≡ Err kind) }
{
    match line.word {
        Some(Word::Node) if line.formed => alone(UnitSet::empty(), line.fields),
        Some(Word::Spent | Word::Past | Word::End) => Err(TreeKind::FewerNodes),
        _ => Err(TreeKind::BadLine),
    }
}
