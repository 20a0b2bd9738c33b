//! Whole texts.
ghost use Rattle.std.specs.Prelude.{◌≡◌, ◌≤◌, ◌<◌, ◌-◌, ◌^◌, Ok, IfOk, IfErr, IfSome, IfNone};
ghost use Rattle.std.specs.Prelude.{length};
ghost use Rattle.tree_text_laws.specs.problem_rules.Each.{Each};
ghost use Rattle.tree_reading.specs.Place.{IsCut, lines_at};
ghost use Rattle.tree_reading.specs.text_lines.Tells.{Tells};
ghost use Rattle.rank_check.specs.Known.{KnowsNetwork};
ghost use Rattle.rank_text.specs.Known.{KnowsText};
ghost use Rattle.rank_check.specs.rank_rules.Read.{behind_networks, listed_taken, asked_taken};
ghost use Rattle.rank_check.specs.rank_rules.Read.{rest_taken};
ghost use Rattle.rank_check.specs.rank_rules.Read.{read_text, earlier};
ghost use Rattle.rank_check.specs.rank_rules.Headed.{is_ranking};

use crate::front::{count_line, file_type_line, is_distinct, is_first_of_ranking, networks_line};
use crate::networks::read_networks;
use crate::opening::{OpenText, open_lines};
use rank_check::{Asked, RankText};
use std::alloc::Global;
use tree_reading::{Cut, TreeFault, kind_at, line_at, read_rest};
use tree_text_laws::{Network, Problem, TreeKind, tails_are_read, trees_are_taken};

// The fault of a line that names a network if its line comes before the other, else the other
// fault.
fn earlier(named: Option<(u32, TreeKind)>, line: u32, kind: TreeKind) -> (u32, TreeKind)
    ensures some { IfSome named (λ fault. result ≡ earlier fault (line, kind)) }
    ensures none { IfNone named (result ≡ (line, kind)) }
{
    match named {
        Some(fault) => { if fault.0 < line { fault } else { (line, kind) } }
        None => (line, kind),
    }
}

// All that follows the networks.
fn read_behind(
    alloc: Global,
    problem: &Problem,
    asked: Asked,
    networks: Vec<Network>,
    bytes: &[u8],
    cut: Cut,
) -> Result<RankText, TreeFault>
    requires cut { IsCut bytes.now cut }
    requires few { length bytes.now < 2 ^ 32 - 1 }
    requires numbered { 1 ≤ cut.line }
    requires asked { 1 ≤ asked.count }
    requires within { length networks.items ≤ asked.count }
    requires known { Each (KnowsNetwork problem.now) networks.items }
    ensures read { IfOk result
        (λ t. behind_networks problem.now asked.count asked.distinct networks.items cut.line
        (lines_at bytes.now cut) ≡ Ok t) }
    ensures few { IfOk result (λ t. length t.tree < 2 ^ 32) }
    ensures known { IfOk result (KnowsText problem.now) }
    ensures fault { IfErr result
        (Tells
        (behind_networks problem.now asked.count asked.distinct networks.items cut.line
        (lines_at bytes.now cut))) }
{
    problem.is_valid();
    trees_are_taken();
    tails_are_read();
    let OpenText {
        bytes: opened,
        marks,
        fault,
    } = open_lines(alloc, problem, asked.distinct, bytes, cut)?;
    let front = Cut {
        at: cut.at,
        line: cut.line - 1,
    };
    match read_rest(alloc, problem, &opened, front) {
        Err(TreeFault::Memory) => Err(TreeFault::Memory),
        Err(TreeFault::At { line, kind }) => {
            let (line, kind) = earlier(fault, line, kind);
            Err(TreeFault::At { line, kind })
        }
        Ok((_, tree, tail)) => match fault {
            Some((line, kind)) => Err(TreeFault::At { line, kind }),
            None => Ok(RankText::of(asked, networks, tree, marks, tail)),
        },
    }
}

// All from the line with the number of networks on.
fn read_listed(
    alloc: Global,
    problem: &Problem,
    asked: Asked,
    bytes: &[u8],
    cut: Cut,
) -> Result<RankText, TreeFault>
    requires cut { IsCut bytes.now cut }
    requires few { length bytes.now < 2 ^ 32 - 1 }
    requires numbered { 1 ≤ cut.line }
    requires asked { 1 ≤ asked.count }
    ensures read { IfOk result
        (λ t. listed_taken problem.now asked.count asked.distinct cut.line (lines_at bytes.now cut)
        ≡ Ok t) }
    ensures few { IfOk result (λ t. length t.tree < 2 ^ 32) }
    ensures known { IfOk result (KnowsText problem.now) }
    ensures fault { IfErr result
        (Tells
        (listed_taken problem.now asked.count asked.distinct cut.line (lines_at bytes.now cut))) }
{
    let Some((line, first)) = line_at(bytes, cut) else {
        return Err(kind_at(cut, TreeKind::BadLine));
    };
    match networks_line(asked.count, &line) {
        Ok(number) => {
            let (networks, behind) = read_networks(alloc, problem, number, bytes, first)?;
            read_behind(alloc, problem, asked, networks, bytes, behind)
        }
        Err(kind) => Err(kind_at(cut, kind)),
    }
}

// All that follows the line with the number of networks that were asked for.
fn read_asked(
    alloc: Global,
    problem: &Problem,
    count: u32,
    bytes: &[u8],
    cut: Cut,
) -> Result<RankText, TreeFault>
    requires cut { IsCut bytes.now cut }
    requires few { length bytes.now < 2 ^ 32 - 1 }
    requires numbered { 1 ≤ cut.line }
    requires asked { 1 ≤ count }
    ensures read { IfOk result
        (λ t. asked_taken problem.now count cut.line (lines_at bytes.now cut) ≡ Ok t) }
    ensures few { IfOk result (λ t. length t.tree < 2 ^ 32) }
    ensures known { IfOk result (KnowsText problem.now) }
    ensures fault { IfErr result
        (Tells (asked_taken problem.now count cut.line (lines_at bytes.now cut))) }
{
    let Some((line, behind)) = line_at(bytes, cut) else {
        return Err(kind_at(cut, TreeKind::BadLine));
    };
    if is_distinct(&line) {
        let asked = Asked {
            count,
            distinct: true,
        };
        read_listed(alloc, problem, asked, bytes, behind)
    } else {
        let asked = Asked {
            count,
            distinct: false,
        };
        read_listed(alloc, problem, asked, bytes, cut)
    }
}

// All lines but the first.
fn read_counted(
    alloc: Global,
    problem: &Problem,
    bytes: &[u8],
    cut: Cut,
) -> Result<RankText, TreeFault>
    requires cut { IsCut bytes.now cut }
    requires few { length bytes.now < 2 ^ 32 - 1 }
    ensures read { IfOk result
        (λ t. rest_taken problem.now cut.line (lines_at bytes.now cut) ≡ Ok t) }
    ensures few { IfOk result (λ t. length t.tree < 2 ^ 32) }
    ensures known { IfOk result (KnowsText problem.now) }
    ensures fault { IfErr result
        (Tells (rest_taken problem.now cut.line (lines_at bytes.now cut))) }
{
    let Some((line, behind)) = line_at(bytes, cut) else {
        return Err(kind_at(cut, TreeKind::BadLine));
    };
    match count_line(&line) {
        Ok(count) => read_asked(alloc, problem, count, bytes, behind),
        Err(kind) => Err(kind_at(cut, kind)),
    }
}

/// The ranked tree that a text stands for. Unless there is no memory (`Memory`), `At` comes if and
/// only if the text is not in the grammar. It has the least line that has a fault, counted from 1,
/// and its kind. The time is linear in the bytes. The lines of tree and tail are copied once.
pub fn read_rank(alloc: Global, problem: &Problem, bytes: &[u8]) -> Result<RankText, TreeFault>
    requires { length bytes.now < 2 ^ 32 - 1 }
    ensures read { IfOk result (λ t. read_text problem.now bytes.now ≡ Ok t) }
    ensures few { IfOk result (λ t. length t.tree < 2 ^ 32) }
    ensures known { IfOk result (KnowsText problem.now) }
    ensures fault { IfErr result (Tells (read_text problem.now bytes.now)) }
{
    let front = Cut { at: 0, line: 1 };
    let Some((line, behind)) = line_at(bytes, front) else {
        return Err(kind_at(front, TreeKind::FileType));
    };
    match file_type_line(&line) {
        Err(kind) => Err(kind_at(front, kind)),
        Ok(()) => read_counted(alloc, problem, bytes, behind),
    }
}

/// Whether the text is that of a ranking, by its first line.
pub fn is_ranking(bytes: &[u8]) -> bool
    requires { length bytes.now < 2 ^ 32 - 1 }
    ensures { result ≡ is_ranking bytes.now }
{
    let front = Cut { at: 0, line: 1 };
    match line_at(bytes, front) {
        Some((line, _)) => is_first_of_ranking(&line),
        None => false,
    }
}
