//! Whole texts.
ghost use Rattle.std.specs.Prelude.{◌≡◌, ◌<◌, ◌≤◌, ◌-◌, ◌^◌, Ok, IfOk, IfErr, length};
ghost use Rattle.branch_tree.specs.View.{claim_of, tail_of};
ghost use Rattle.tree_text_rules.specs.tree_rules.Known.{KnowsClaim, KnowsTree, KnowsTail};
ghost use Rattle.tree_text_rules.specs.Read.{rest_taken, read_text};
ghost use Rattle.tree_text_rules.specs.Read.{headed_rest_taken, read_headed_text};
ghost use Rattle.tree_reading.specs.Place.{IsCut, lines_at};
ghost use Rattle.tree_reading.specs.Tells.{TellsFault};
ghost use Rattle.tree_reading.specs.Said.{said_by, KnowsSaid};
ghost use Rattle.text_lines.specs.Tells.{Tells};

use crate::claim::read_claim;
use crate::claim_line::file_type_line;
use crate::cut::{Cut, line_at};
use crate::fault::{TreeFault, at_line, kind_at};
use crate::front::read_front;
use crate::nodes::read_whole;
use crate::tail::read_tail;
use branch_tree::{Claim, Head, Problem, Tail, Tree};
use std::alloc::Global;
use tree_text_rules::TreeKind;

/// The claim, the tree and the tail from this place on, to the end of the bytes: a whole text but
/// for its first line. `At` comes with the first fault of what is left, and only then; `Memory`
/// says that there was no memory. The time is linear in the bytes.
pub fn read_rest(
    alloc: Global,
    problem: &Problem,
    bytes: &[u8],
    cut: Cut,
) -> Result<(Claim, Tree, Tail), TreeFault>
    requires cut { IsCut bytes.now cut }
    requires few { length bytes.now < 2 ^ 32 - 1 }
    ensures read { IfOk result
        (λ c. rest_taken problem.now cut.line (lines_at bytes.now cut)
        ≡ Ok (record { claim = claim_of c.0; tree = c.1; tail = tail_of c.2 })) }
    ensures few { IfOk result (λ c. length c.1 ≤ length bytes.now) }
    ensures known { IfOk result
        (λ c. KnowsClaim problem.now (claim_of c.0) × KnowsTree problem.now c.1
        × KnowsTail problem.now (tail_of c.2)) }
    ensures fault { IfErr result
        (Tells (rest_taken problem.now cut.line (lines_at bytes.now cut))) }
{
    let (claim, first) = read_claim(alloc, problem, bytes, cut)?;
    let (tree, second) = read_whole(alloc, problem, bytes, first)?;
    let tail = read_tail(alloc, problem, bytes, second)?;
    Ok((claim, tree, tail))
}

/// The claim, the tree and the tail that a text stands for. Unless there is no memory (`Memory`),
/// `At` comes if and only if the text is not in the grammar. It has the least line that has a
/// fault, counted from 1, and its kind. The time is linear in the bytes.
pub fn read_tree(
    alloc: Global,
    problem: &Problem,
    bytes: &[u8],
) -> Result<(Claim, Tree, Tail), TreeFault>
    requires { length bytes.now < 2 ^ 32 - 1 }
    ensures read { IfOk result
        (λ c. read_text problem.now bytes.now
        ≡ Ok (record { claim = claim_of c.0; tree = c.1; tail = tail_of c.2 })) }
    ensures few { IfOk result (λ c. length c.1 ≤ length bytes.now) }
    ensures known { IfOk result
        (λ c. KnowsClaim problem.now (claim_of c.0) × KnowsTree problem.now c.1
        × KnowsTail problem.now (tail_of c.2)) }
    ensures fault { IfErr result (TellsFault problem.now bytes.now) }
{
    let front = Cut { at: 0, line: 1 };
    let Some((line, behind)) = line_at(bytes, front) else {
        return Err(kind_at(front, TreeKind::FileType));
    };
    at_line(front, file_type_line(&line))?;
    read_rest(alloc, problem, bytes, behind)
}

/// What a text says whose tree may have a head.
#[derive(Drop)]
pub struct Headed {
    pub claim: Claim,
    pub head: Head,
    pub tree: Tree,
    pub tail: Tail,
}

// The claim, the head, the tree and the tail from this place on, to the end of the bytes.
fn read_headed_rest(
    alloc: Global,
    problem: &Problem,
    bytes: &[u8],
    cut: Cut,
) -> Result<Headed, TreeFault>
    requires cut { IsCut bytes.now cut }
    requires few { length bytes.now < 2 ^ 32 - 1 }
    ensures read { IfOk result
        (λ c. headed_rest_taken problem.now cut.line (lines_at bytes.now cut) ≡ Ok (said_by c)) }
    ensures few { IfOk result (λ c. length c.tree ≤ length bytes.now) }
    ensures known { IfOk result (KnowsSaid problem.now) }
    ensures fault { IfErr result
        (Tells (headed_rest_taken problem.now cut.line (lines_at bytes.now cut))) }
{
    let (claim, first) = read_claim(alloc, problem, bytes, cut)?;
    let (lines, second) = read_front(alloc, problem, bytes, first)?;
    let (tree, third) = read_whole(alloc, problem, bytes, second)?;
    let tail = read_tail(alloc, problem, bytes, third)?;
    let head = Head::from_vec(lines);
    Ok(Headed {
        claim,
        head,
        tree,
        tail,
    })
}

/// What a text says whose tree may have a head; a text without one has a head without lines. Unless
/// there is no memory (`Memory`), `At` comes if and only if the text is not in the grammar. It has
/// the least line that has a fault, counted from 1, and its kind. The time is linear in the bytes.
pub fn read_headed(alloc: Global, problem: &Problem, bytes: &[u8]) -> Result<Headed, TreeFault>
    requires { length bytes.now < 2 ^ 32 - 1 }
    ensures read { IfOk result (λ c. read_headed_text problem.now bytes.now ≡ Ok (said_by c)) }
    ensures few { IfOk result (λ c. length c.tree ≤ length bytes.now) }
    ensures known { IfOk result (KnowsSaid problem.now) }
    ensures fault { IfErr result (Tells (read_headed_text problem.now bytes.now)) }
{
    let front = Cut { at: 0, line: 1 };
    let Some((line, behind)) = line_at(bytes, front) else {
        return Err(kind_at(front, TreeKind::FileType));
    };
    at_line(front, file_type_line(&line))?;
    read_headed_rest(alloc, problem, bytes, behind)
}
