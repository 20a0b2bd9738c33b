//! One node with its end.
ghost use Rattle.std.specs.Prelude.{◌≡◌, ◌<◌, ◌≤◌, ◌-◌, ◌^◌, [], Ok, IfOk, IfErr, IfSome, length};
ghost use Rattle.tree_text_rules.specs.problem_rules.Each.{Each};
ghost use Rattle.branch_tree.specs.pgraph.CoversView.{covers_of};
ghost use Rattle.branch_tree.specs.View.{end_of};
ghost use Rattle.tree_text_rules.specs.tree_rules.Known.{AreUnits, KnowsCover, KnowsEnd};
ghost use Rattle.tree_text_rules.specs.tree_rules.Tree.{HasChildren};
ghost use Rattle.tree_text_rules.specs.Read.{charge_of, covers_taken, end_behind, end_taken};
ghost use Rattle.tree_reading.specs.Gives.{GivesNode};
ghost use Rattle.tree_reading.specs.Place.{IsCut, IsReached, IsBehind, lines_at};
ghost use Rattle.tree_reading.specs.Taken.{taken};
ghost use Rattle.text_lines.specs.Tells.{Tells};

use crate::apart::parts_of;
use crate::cut::{Cut, line_at, next_line};
use crate::ends::end_line;
use crate::fault::{TreeFault, at_line};
use crate::head::read_steps;
use crate::sets::set_line;
use branch_tree::{Cover, Covers, End, Problem, Steps, TreeNode, UnitSet};
use std::alloc::Global;

// How many sets may follow one charge.
const MOST_SETS: usize = 1_000_000;

/// The sets from this place on, and the place before the first line that is no set. At most a
/// million are taken.
pub(crate) fn read_sets(
    alloc: Global,
    problem: &Problem,
    bytes: &[u8],
    cut: Cut,
) -> Result<(Vec<Cover>, Cut), TreeFault>
    requires cut { IsCut bytes.now cut }
    requires few { length bytes.now < 2 ^ 32 - 1 }
    ensures ok { IfOk result
        (λ found. covers_taken problem.now [] cut.line (lines_at bytes.now cut)
        ≡ Ok (taken (covers_of found.0.items) bytes.now found.1)) }
    ensures reached { IfOk result (λ found. IsReached bytes.now cut found.1) }
    ensures known { IfOk result (λ found. Each (KnowsCover problem.now) (covers_of found.0.items)) }
    ensures few { IfOk result (λ found. length found.0.items ≤ 1000000) }
    ensures fault { IfErr result
        (Tells (covers_taken problem.now [] cut.line (lines_at bytes.now cut))) }
{
    let mut covers = Vec::new(alloc);
    let mut at = cut;
    'sets: while let Some((line, behind)) = line_at(bytes, at) {
        if covers.len() == MOST_SETS {
            return Ok((covers, at));
        }
        let Some(read) = set_line(problem, &parts_of(&line)) else {
            return Ok((covers, at));
        };
        covers.push(at_line(at, read)?)?;
        at = behind;
    }
    Ok((covers, at))
}

/// The end whose line was read, with the sets that follow if it is a charge, and the place after
/// them.
fn with_sets(
    alloc: Global,
    problem: &Problem,
    end: End,
    bytes: &[u8],
    cut: Cut,
) -> Result<(End, Cut), TreeFault>
    requires cut { IsCut bytes.now cut }
    requires few { length bytes.now < 2 ^ 32 - 1 }
    requires known { KnowsEnd problem.now (end_of end) }
    requires whole { HasChildren (end_of end) }
    requires bare { IfSome (charge_of (end_of end)) (λ h. h.covers ≡ []) }
    ensures read { IfOk result
        (λ found. end_behind problem.now (end_of end) (charge_of (end_of end)) cut.line
        (lines_at bytes.now cut) ≡ Ok (taken (end_of found.0) bytes.now found.1)) }
    ensures reached { IfOk result (λ found. IsReached bytes.now cut found.1) }
    ensures known { IfOk result (λ found. KnowsEnd problem.now (end_of found.0)) }
    ensures whole { IfOk result (λ found. HasChildren (end_of found.0)) }
    ensures fault { IfErr result
        (Tells
        (end_behind problem.now (end_of end) (charge_of (end_of end)) cut.line
        (lines_at bytes.now cut))) }
{
    problem.is_valid();
    match end {
        End::Charge { scaled, .. } => {
            let (covers, behind) = read_sets(alloc, problem, bytes, cut)?;
            let covers = Covers::from_vec(covers);
            Ok((End::Charge { scaled, covers }, behind))
        }
        end => Ok((end, cut)),
    }
}

/// The end whose line is at this place, with the sets that follow if it is a charge, and the place
/// after them. `At` comes with the first fault of these lines, and only then; `Memory` says that
/// there was no memory.
pub fn read_end(
    alloc: Global,
    problem: &Problem,
    bytes: &[u8],
    cut: Cut,
) -> Result<(End, Cut), TreeFault>
    requires cut { IsCut bytes.now cut }
    requires few { length bytes.now < 2 ^ 32 - 1 }
    ensures read { IfOk result
        (λ found. end_taken problem.now cut.line (lines_at bytes.now cut)
        ≡ Ok (taken (end_of found.0) bytes.now found.1)) }
    ensures behind { IfOk result (λ found. IsBehind bytes.now cut found.1) }
    ensures known { IfOk result (λ found. KnowsEnd problem.now (end_of found.0)) }
    ensures whole { IfOk result (λ found. HasChildren (end_of found.0)) }
    ensures fault { IfErr result (Tells (end_taken problem.now cut.line (lines_at bytes.now cut))) }
{
    let (line, behind) = next_line(bytes, cut)?;
    let end = end_line(alloc, problem, &parts_of(&line)).map_err(|fault| fault.at(cut.line))?;
    with_sets(alloc, problem, end, bytes, behind)
}

/// The steps and the end of a node with this option, from the line after its own on.
pub fn read_node(
    alloc: Global,
    problem: &Problem,
    option: UnitSet,
    bytes: &[u8],
    cut: Cut,
) -> Result<(TreeNode, Cut), TreeFault>
    requires cut { IsCut bytes.now cut }
    requires few { length bytes.now < 2 ^ 32 - 1 }
    requires option_known { AreUnits problem.now option }
    ensures { GivesNode problem.now option bytes.now cut result }
{
    let (steps, first) = read_steps(alloc, problem, option, bytes, cut)?;
    let (end, behind) = read_end(alloc, problem, bytes, first)?;
    let node = TreeNode {
        option,
        steps: Steps::from_vec(steps),
        end,
    };
    Ok((node, behind))
}
