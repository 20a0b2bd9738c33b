//! The line of an open leaf.
ghost use Rattle.std.specs.Prelude.{◌≡◌, Ok, IfOk, IfErr};
ghost use Rattle.tree_text_laws.specs.tree_text_rules.LineRead.{one_and_more};
ghost use Rattle.tree_text_laws.specs.tree_text_rules.Token as rules;
ghost use Rattle.tree_reading.specs.text_lines.Tells.{TellsLine};
ghost use Rattle.tree_reading.specs.View.{line_of, tokens_in};
ghost use Rattle.rank_check.specs.View.{mark_of};
ghost use Rattle.rank_check.specs.rank_rules.Opened.{mark_with, named_read};

use rank_check::{Mark, Name, Naming};
use std::alloc::Global;
use tree_reading::{
    Line, LineFault, LineParts, children_of, end_line, lesser, next_token, parts_of,
};
use tree_text_laws::{End, Problem, Scaled, TreeKind, Word};

// A scale and multipliers, which are read as those of a line `bound`.
fn scaled_fields(
    alloc: Global,
    problem: &Problem,
    fields: Option<&[u8]>,
) -> Result<Scaled, LineFault>
    ensures ok { IfOk result
        (λ s. one_and_more rules.number_of rules.number_of (tokens_in fields.entry)
        ≡ Ok (s.d, s.ys)) }
    ensures fault { IfErr result
        (TellsLine (one_and_more rules.number_of rules.number_of (tokens_in fields.entry))) }
{
    let parts = LineParts {
        formed: true,
        word: Some(Word::Bound),
        fields,
    };
    match end_line(alloc, problem, &parts) {
        Ok(End::Bound(scaled)) => Ok(scaled),
        // No other end comes of such a line.
        Ok(_) => Err(LineFault::Memory),
        Err(fault) => Err(fault),
    }
}

// A network's number that was read, and after it a scale and multipliers.
fn named_fields(
    alloc: Global,
    problem: &Problem,
    way: Naming,
    network: Result<u32, TreeKind>,
    behind: Option<&[u8]>,
) -> Result<Mark, LineFault>
    ensures ok { IfOk result
        (λ m. mark_with way network
        (one_and_more rules.number_of rules.number_of (tokens_in behind.entry)) ≡ Ok (mark_of m)) }
    ensures fault { IfErr result
        (TellsLine
        (mark_with way network
        (one_and_more rules.number_of rules.number_of (tokens_in behind.entry)))) }
{
    match (network, scaled_fields(alloc, problem, behind)) {
        (_, Err(LineFault::Memory)) => Err(LineFault::Memory),
        (Ok(network), Ok(scaled)) => Ok(Mark::Named(Name {
            way,
            network,
            scaled,
        })),
        (Ok(_), Err(LineFault::Kind(kind))) => Err(LineFault::Kind(kind)),
        (Err(kind), Ok(_)) => Err(LineFault::Kind(kind)),
        (Err(kind), Err(LineFault::Kind(other))) => Err(LineFault::Kind(lesser(kind, other))),
    }
}

/// What a line that names a network this way says of its leaf.
pub fn named_line(
    alloc: Global,
    problem: &Problem,
    way: Naming,
    line: &Line,
) -> Result<Mark, LineFault>
    ensures ok { IfOk result (λ m. named_read way (line_of line.now) ≡ Ok (mark_of m)) }
    ensures fault { IfErr result (TellsLine (named_read way (line_of line.now))) }
{
    let parts = parts_of(line);
    if !parts.formed {
        return Err(LineFault::Kind(TreeKind::BadLine));
    }
    let Some((token, behind)) = next_token(parts.fields) else {
        return Err(LineFault::Kind(TreeKind::BadLine));
    };
    named_fields(alloc, problem, way, children_of(token), behind)
}
