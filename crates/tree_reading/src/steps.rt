//! The lines of steps.
ghost use Rattle.std.specs.Prelude.{◌≡◌, Some, IfOk, IfSome, option_map};
ghost use Rattle.branch_tree.specs.pgraph.View.{step_of};
ghost use Rattle.tree_text_rules.specs.tree_rules.Known.{KnowsStep};
ghost use Rattle.tree_text_rules.specs.LineRead as reads;
ghost use Rattle.tree_text_rules.specs.Token as rules;
ghost use Rattle.tree_reading.specs.Apart.{formed_by, formed_if_read};
ghost use Rattle.tree_reading.specs.View.{tokens_in};

use crate::apart::{LineParts, pair};
use crate::fault_order::both;
use crate::name::{material_of, one_material, one_unit, unit_of};
use crate::unit_list::units_of;
use branch_tree::{Problem, Step};
use tree_text_rules::{TreeKind, Word};

// The step of a line that begins as one.
#[tactic(auto, using(crate::proofs::Counted::not_two))]
fn step_of(problem: &Problem, line: &LineParts) -> Result<Step, TreeKind>
    ensures value { IfSome (reads.step_by problem.now line.now.word (tokens_in line.now.fields))
        (λ read. formed_by line.now.formed read ≡ rules.mapped step_of result) }
    ensures known { IfOk result (λ step. KnowsStep problem.now (step_of step)) }
{
    if !line.formed {
        return Err(TreeKind::BadLine);
    }
    match line.word {
        Some(Word::Raw) => Ok(Step::Raw(one_unit(problem, line.fields)?)),
        Some(Word::Rival) => Ok(Step::Rival(one_unit(problem, line.fields)?)),
        Some(Word::Starve) => Ok(Step::Starve(one_material(problem, line.fields)?)),
        Some(Word::Loose) => Ok(Step::Loose(units_of(problem, line.fields)?)),
        Some(Word::Sole) => {
            let (material, unit) = pair(line.fields)?;
            let (material, unit) = both(material_of(problem, material), unit_of(problem, unit))?;
            Ok(Step::Sole { material, unit })
        }
        _ => Err(TreeKind::BadLine),
    }
}

/// The step that a line says, or none if its first word is another.
pub fn step_line(problem: &Problem, line: &LineParts) -> Option<Result<Step, TreeKind>>
    ensures value { formed_if_read line.now.formed
        (reads.step_by problem.now line.now.word (tokens_in line.now.fields))
        ≡ option_map (rules.mapped step_of) result }
    ensures known { IfSome result
        (λ read. IfOk read (λ step. KnowsStep problem.now (step_of step))) }
{
    match line.word {
        Some(Word::Raw | Word::Rival | Word::Starve | Word::Loose | Word::Sole) => {
            Some(step_of(problem, line))
        }
        _ => None,
    }
}
