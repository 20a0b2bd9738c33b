//! The text of a part, line by line.
ghost use Rattle.std.specs.Prelude.{◌≡◌, ◌≤◌, OnOk, string_bytes};
ghost use Rattle.tree_text_laws.specs.tree_rules.Known.{KnowsClaim, KnowsTree, KnowsTail};
ghost use Rattle.tree_text_laws.specs.text_rules.Canonical.{joined};
ghost use Rattle.tree_text.specs.Prints.{Prints};
ghost use Rattle.tree_text_laws.specs.tree_text_rules.PartSpelling.{set_line, part_text_lines};

use crate::Part;
use cert_check::print_token;
use std::alloc::{AllocError, Global};
use tree_text::{PrintFault, Sink, begin, print_rest, push_field, put_line};
use tree_text_laws::{Problem, UnitSet};

// The word and the token of the set.
fn set_line(alloc: Global, line: &mut String, word: &str, units: UnitSet) -> Result<(), AllocError>
    ensures { OnOk result (string_bytes line.new ≡ joined 32 (set_line word.now units)) }
{
    let token = print_token(alloc, units)?;
    begin(line, word)?;
    push_field(line, token.as_str())
}

/// Prints a part, whole: its one text. `WriteFault` comes only if the sink's count of faults rose;
/// a front of the text is then printed. If there is no memory, first lines of it are printed, each
/// whole.
pub fn print_part<K: Sink>(
    alloc: Global,
    problem: &Problem,
    part: &Part,
    out: &mut K,
) -> Result<(), PrintFault>
    requires claim { KnowsClaim problem.now part.now.claim }
    requires tree { KnowsTree problem.now part.now.tree }
    requires tail { KnowsTail problem.now part.now.tail }
    ensures prints { Prints (part_text_lines problem.now part.now) (K.state out.old)
        (K.state out.new) result }
    ensures later { (K.state out.old).faults ≤ (K.state out.new).faults }
{
    let node = part.start();
    let mut line = String::new(alloc);
    let made = begin(&mut line, "file_type=PNS_part_v1");
    put_line(out, &mut line, made)?;
    let made = set_line(alloc, &mut line, "inside", node.inside);
    put_line(out, &mut line, made)?;
    let made = set_line(alloc, &mut line, "outside", node.outside);
    put_line(out, &mut line, made)?;
    print_rest(alloc, problem, part.claim(), part.tree(), part.tail(), out)
}
