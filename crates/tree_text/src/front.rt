//! The lines of the head of a tree.
ghost use Rattle.std.specs.Prelude.{◌≡◌};
ghost use Rattle.tree_text_rules.specs.tree_rules.Known.{KnowsTree, KnowsClaim, KnowsTail};
ghost use Rattle.tree_text_rules.specs.tree_rules.HeadKnown.{KnowsLine, KnowsHead};
ghost use Rattle.branch_tree.specs.View.{claim_of, tail_of};
ghost use Rattle.branch_tree.specs.HeadView.{line_of, lines_of};
ghost use Rattle.tree_text_rules.specs.Spelling.{front_with_sets, front_lines};
ghost use Rattle.tree_text_rules.specs.Spelling.{headed_rest_lines};
ghost use Rattle.tree_text.specs.Prints.{Puts};

use crate::fault::PrintFault;
use crate::line::{Field, put};
use crate::part::{put_claim, put_covers, put_nodes, put_step, put_tail};
use branch_tree::{Claim, Head, HeadLine, Tail, Tree};
use flow_program::Problem;
use pns_io::Sink;

/// What a text with a head says: the claim, the head, the tree and the tail.
#[derive(Clone, Copy)]
pub struct Headed<'a> {
    pub claim: &'a Claim,
    pub head: &'a Head,
    pub tree: &'a Tree,
    pub tail: &'a Tail,
}

// A line of a head, and those of its sets.
fn put_front_line<K: Sink>(
    line: &mut String,
    problem: &Problem,
    front: &HeadLine,
    out: &mut K,
) -> Result<(), PrintFault>
    requires { KnowsLine problem.now (line_of front.now) }
    ensures { Puts (front_with_sets problem.now (line_of front.now)) (K.state out.old)
        (K.state out.new) result }
{
    match front {
        HeadLine::Step(step) => put_step(line, problem, *step, out),
        HeadLine::Cap {
            unit,
            size,
            scaled,
            covers,
        } => {
            let fields = [
                Field::Unit(*unit),
                Field::Number(*size),
                Field::Number(scaled.d()),
                Field::Numbers(scaled.ys()),
            ];
            put(line, problem, "cap", &fields, out)?;
            put_covers(line, problem, covers.covers(), out)
        }
        HeadLine::Out {
            unit,
            scaled,
            covers,
        } => {
            let fields = [
                Field::Unit(*unit),
                Field::Number(scaled.d()),
                Field::Numbers(scaled.ys()),
            ];
            put(line, problem, "out", &fields, out)?;
            put_covers(line, problem, covers.covers(), out)
        }
        HeadLine::Trim(unit) => put(line, problem, "trim", &[Field::Unit(*unit)], out),
        HeadLine::Use {
            material,
            amount,
            worth,
            scaled,
            covers,
        } => {
            let fields = [
                Field::Material(*material),
                Field::Number(*amount),
                Field::Number(*worth),
                Field::Number(scaled.d()),
                Field::Numbers(scaled.ys()),
            ];
            put(line, problem, "use", &fields, out)?;
            put_covers(line, problem, covers.covers(), out)
        }
    }
}

pub(crate) fn put_front<K: Sink>(
    line: &mut String,
    problem: &Problem,
    front: &[HeadLine],
    out: &mut K,
) -> Result<(), PrintFault>
    requires { KnowsHead problem.now (lines_of front.now) }
    ensures { Puts (front_lines problem.now (lines_of front.now)) (K.state out.old)
        (K.state out.new) result }
{
    'printing: for front_line in front {
        put_front_line(line, problem, front_line, out)?;
    }
    Ok(())
}

pub(crate) fn put_headed<K: Sink>(
    line: &mut String,
    problem: &Problem,
    headed: &Headed<'_>,
    out: &mut K,
) -> Result<(), PrintFault>
    requires claim { KnowsClaim problem.now (claim_of headed.now.claim.now) }
    requires head { KnowsHead problem.now headed.now.head.now }
    requires tree { KnowsTree problem.now headed.now.tree.now }
    requires tail { KnowsTail problem.now (tail_of headed.now.tail.now) }
    ensures { Puts
        (headed_rest_lines problem.now (claim_of headed.now.claim.now) headed.now.head.now
        headed.now.tree.now (tail_of headed.now.tail.now)) (K.state out.old) (K.state out.new)
        result }
{
    put_claim(line, problem, headed.claim, out)?;
    put_front(line, problem, headed.head.lines(), out)?;
    put_nodes(line, problem, headed.tree.nodes(), out)?;
    put_tail(line, problem, headed.tail, out)
}
