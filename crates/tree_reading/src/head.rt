//! The head of a node: the line that begins it, and its steps.
ghost use Rattle.std.specs.Prelude.{◌≡◌, ◌<◌, ◌-◌, ◌^◌, [], Ok, IfOk, IfErr, length, map};
ghost use Rattle.tree_text_rules.specs.problem_rules.Each.{Each};
ghost use Rattle.branch_tree.specs.pgraph.View.{step_of};
ghost use Rattle.tree_text_rules.specs.tree_rules.Known.{AreUnits, KnowsStep};
ghost use Rattle.tree_text_rules.specs.LineRead.{option_read};
ghost use Rattle.tree_text_rules.specs.Read.{head_taken, steps_taken};
ghost use Rattle.tree_reading.specs.Gives.{GivesAt};
ghost use Rattle.tree_reading.specs.Place.{IsCut, IsReached, IsBehind, lines_at};
ghost use Rattle.tree_reading.specs.Taken.{line_taken, taken};
ghost use Rattle.text_lines.specs.Tells.{Tells};

use crate::apart::parts_of;
use crate::cut::{Cut, line_at, next_line};
use crate::fault::{TreeFault, at_line};
use crate::node_line::option_line;
use crate::steps::step_line;
use branch_tree::{Problem, Step, UnitSet};
use std::alloc::Global;

/// The steps from this place on, and the place before the first line that is no step.
pub fn read_steps(
    alloc: Global,
    problem: &Problem,
    option: UnitSet,
    bytes: &[u8],
    cut: Cut,
) -> Result<(Vec<Step>, Cut), TreeFault>
    requires cut { IsCut bytes.now cut }
    requires few { length bytes.now < 2 ^ 32 - 1 }
    ensures ok { IfOk result
        (λ found. steps_taken problem.now (record { option = option; steps = [] }) cut.line
        (lines_at bytes.now cut)
        ≡ Ok
        (taken (record { option = option; steps = map step_of found.0.items }) bytes.now found.1)) }
    ensures reached { IfOk result (λ found. IsReached bytes.now cut found.1) }
    ensures known { IfOk result
        (λ found. Each (KnowsStep problem.now) (map step_of found.0.items)) }
    ensures fault { IfErr result
        (Tells
        (steps_taken problem.now (record { option = option; steps = [] }) cut.line
        (lines_at bytes.now cut))) }
{
    let mut steps = Vec::new(alloc);
    let mut at = cut;
    'steps: while let Some((line, behind)) = line_at(bytes, at) {
        let Some(read) = step_line(problem, &parts_of(&line)) else {
            return Ok((steps, at));
        };
        steps.push(at_line(at, read)?)?;
        at = behind;
    }
    Ok((steps, at))
}

/// The option of the node whose line is at this place, and the place after it.
pub fn read_option(problem: &Problem, bytes: &[u8], cut: Cut) -> Result<(UnitSet, Cut), TreeFault>
    requires cut { IsCut bytes.now cut }
    requires few { length bytes.now < 2 ^ 32 - 1 }
    ensures { GivesAt (λ us. us) (AreUnits problem.now) (line_taken (option_read problem.now))
        bytes.now cut result }
{
    let (line, behind) = next_line(bytes, cut)?;
    let option = at_line(cut, option_line(problem, &parts_of(&line)))?;
    Ok((option, behind))
}

/// The option and the steps of the node whose line is at this place, and the place after them. The
/// steps end before the first line whose first word is none of `raw`, `rival`, `starve`, `loose`
/// and `sole`. Any option is taken. `At` comes with the first fault of these lines, and only then;
/// `Memory` says that there was no memory.
pub fn read_head(
    alloc: Global,
    problem: &Problem,
    bytes: &[u8],
    cut: Cut,
) -> Result<(UnitSet, Vec<Step>, Cut), TreeFault>
    requires cut { IsCut bytes.now cut }
    requires few { length bytes.now < 2 ^ 32 - 1 }
    ensures read { IfOk result
        (λ found. head_taken problem.now cut.line (lines_at bytes.now cut)
        ≡ Ok
        (taken (record { option = found.0; steps = map step_of found.1.items }) bytes.now
        found.2)) }
    ensures behind { IfOk result (λ found. IsBehind bytes.now cut found.2) }
    ensures known { IfOk result
        (λ found. AreUnits problem.now found.0
        × Each (KnowsStep problem.now) (map step_of found.1.items)) }
    ensures fault { IfErr result
        (Tells (head_taken problem.now cut.line (lines_at bytes.now cut))) }
{
    let (option, first) = read_option(problem, bytes, cut)?;
    let (steps, behind) = read_steps(alloc, problem, option, bytes, first)?;
    Ok((option, steps, behind))
}
