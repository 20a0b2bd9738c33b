//! The text of a tree, and of its parts.
ghost use Rattle.std.specs.Prelude.{◌≡◌, ◌≤◌, [], ◌∷◌, map};
ghost use Rattle.tree_text_rules.specs.problem_rules.Each.{Each};
ghost use Rattle.flow_program.specs.pgraph.View.{step_of};
ghost use Rattle.tree_text_rules.specs.tree_rules.Known.{AreUnits, KnowsStep, KnowsEnd, KnowsTree};
ghost use Rattle.tree_text_rules.specs.tree_rules.Known.{KnowsClaim};
ghost use Rattle.tree_text_rules.specs.tree_rules.Known.{KnowsColumn, KnowsPlace, KnowsTail};
ghost use Rattle.tree_text_rules.specs.tree_rules.HeadKnown.{KnowsHead};
ghost use Rattle.branch_tree.specs.View.{end_of, claim_of, tail_of};
ghost use Rattle.tree_text_rules.specs.Spelling.{end_with_sets, head_lines, network_lines};
ghost use Rattle.tree_text_rules.specs.Spelling.{place_lines, tail_lines, rest_lines};
ghost use Rattle.tree_text_rules.specs.Spelling.{tree_text_lines, headed_text_lines};
ghost use Rattle.tree_text.specs.Prints.{Prints};

use crate::fault::PrintFault;
use crate::front::{Headed, put_headed};
use crate::line::put;
use crate::part::{put_end, put_head, put_network, put_place, put_rest, put_tail};
use branch_tree::{Claim, End, Network, Tail, Tree};
use flow_program::{Problem, Step, UnitSet};
use pns_io::Sink;
use std::alloc::Global;
use tree_text_rules::{Column, Place};

/// Prints a claim, a tree and a tail, whole: a text of `tree_text_rules`. `WriteFault` comes only
/// if the sink's count of faults rose; a front of the text is then printed. If there is no memory,
/// first lines of it are printed, each whole.
pub fn print_tree<K: Sink>(
    alloc: Global,
    problem: &Problem,
    claim: &Claim,
    tree: &Tree,
    tail: &Tail,
    out: &mut K,
) -> Result<(), PrintFault>
    requires claim { KnowsClaim problem.now (claim_of claim.now) }
    requires tree { KnowsTree problem.now tree.now }
    requires tail { KnowsTail problem.now (tail_of tail.now) }
    ensures prints { Prints
        (tree_text_lines problem.now (claim_of claim.now) tree.now (tail_of tail.now))
        (K.state out.old) (K.state out.new) result }
    ensures later { (K.state out.old).faults ≤ (K.state out.new).faults }
{
    let mut line = String::new(alloc);
    put(&mut line, problem, "file_type=PNS_tree_v1", &[], out)?;
    put_rest(&mut line, problem, claim, tree, tail, out)
}

/// Prints a claim, a head, a tree and a tail, whole, as [`print_tree`] does without a head.
pub fn print_headed<K: Sink>(
    alloc: Global,
    problem: &Problem,
    headed: &Headed<'_>,
    out: &mut K,
) -> Result<(), PrintFault>
    requires claim { KnowsClaim problem.now (claim_of headed.now.claim.now) }
    requires head { KnowsHead problem.now headed.now.head.now }
    requires tree { KnowsTree problem.now headed.now.tree.now }
    requires tail { KnowsTail problem.now (tail_of headed.now.tail.now) }
    ensures prints { Prints
        (headed_text_lines problem.now (claim_of headed.now.claim.now) headed.now.head.now
        headed.now.tree.now (tail_of headed.now.tail.now)) (K.state out.old) (K.state out.new)
        result }
    ensures later { (K.state out.old).faults ≤ (K.state out.new).faults }
{
    let mut line = String::new(alloc);
    put(&mut line, problem, "file_type=PNS_tree_v1", &[], out)?;
    put_headed(&mut line, problem, headed, out)
}

/// Prints the whole text without its first line.
pub fn print_rest<K: Sink>(
    alloc: Global,
    problem: &Problem,
    claim: &Claim,
    tree: &Tree,
    tail: &Tail,
    out: &mut K,
) -> Result<(), PrintFault>
    requires claim { KnowsClaim problem.now (claim_of claim.now) }
    requires tree { KnowsTree problem.now tree.now }
    requires tail { KnowsTail problem.now (tail_of tail.now) }
    ensures prints { Prints
        (rest_lines problem.now (claim_of claim.now) tree.now (tail_of tail.now)) (K.state out.old)
        (K.state out.new) result }
    ensures later { (K.state out.old).faults ≤ (K.state out.new).faults }
{
    let mut line = String::new(alloc);
    put_rest(&mut line, problem, claim, tree, tail, out)
}

/// Prints the three lines of a network.
pub fn print_network<K: Sink>(
    alloc: Global,
    problem: &Problem,
    network: &Network,
    out: &mut K,
) -> Result<(), PrintFault>
    requires known { AreUnits problem.now network.now.units }
    ensures prints { Prints (network_lines problem.now network.now) (K.state out.old)
        (K.state out.new) result }
    ensures later { (K.state out.old).faults ≤ (K.state out.new).faults }
{
    let mut line = String::new(alloc);
    put_network(&mut line, problem, network, out)
}

/// Prints a node's line and its steps.
pub fn print_head<K: Sink>(
    alloc: Global,
    problem: &Problem,
    option: UnitSet,
    steps: &[Step],
    out: &mut K,
) -> Result<(), PrintFault>
    requires option { AreUnits problem.now option }
    requires steps { Each (KnowsStep problem.now) (map step_of steps.now) }
    ensures prints { Prints (head_lines problem.now option (map step_of steps.now))
        (K.state out.old) (K.state out.new) result }
    ensures later { (K.state out.old).faults ≤ (K.state out.new).faults }
{
    let mut line = String::new(alloc);
    put_head(&mut line, problem, option, steps, out)
}

/// Prints the line of an end, and after it those of its sets.
pub fn print_end<K: Sink>(
    alloc: Global,
    problem: &Problem,
    end: &End,
    out: &mut K,
) -> Result<(), PrintFault>
    requires known { KnowsEnd problem.now (end_of end.now) }
    ensures prints { Prints (end_with_sets problem.now (end_of end.now)) (K.state out.old)
        (K.state out.new) result }
    ensures later { (K.state out.old).faults ≤ (K.state out.new).faults }
{
    let mut line = String::new(alloc);
    put_end(&mut line, problem, end, out)
}

/// Prints the `nonbasic` and `place` lines.
pub fn print_place<K: Sink>(
    alloc: Global,
    problem: &Problem,
    nonbasic: &[Column],
    place: &Place,
    out: &mut K,
) -> Result<(), PrintFault>
    requires columns { Each (KnowsColumn problem.now) nonbasic.now }
    requires known { KnowsPlace problem.now place.now }
    ensures prints { Prints (place_lines problem.now nonbasic.now place.now) (K.state out.old)
        (K.state out.new) result }
    ensures later { (K.state out.old).faults ≤ (K.state out.new).faults }
{
    let mut line = String::new(alloc);
    put_place(&mut line, problem, nonbasic, *place, out)
}

/// Prints a tail and the line `end`.
pub fn print_tail<K: Sink>(
    alloc: Global,
    problem: &Problem,
    tail: &Tail,
    out: &mut K,
) -> Result<(), PrintFault>
    requires known { KnowsTail problem.now (tail_of tail.now) }
    ensures prints { Prints (tail_lines problem.now (tail_of tail.now)) (K.state out.old)
        (K.state out.new) result }
    ensures later { (K.state out.old).faults ≤ (K.state out.new).faults }
{
    let mut line = String::new(alloc);
    put_tail(&mut line, problem, tail, out)
}
