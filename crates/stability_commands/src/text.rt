//! The lines of a range, and of the answers in its place.
ghost use Rattle.std.specs.Prelude.{◌≡◌, ◌≤◌, ◌++◌, ◌∷◌, [], List, codes, decimal, IfOk};
ghost use Rattle.std.specs.Prelude.{string_bytes, length};
ghost use Rattle.std.specs.Fmt.{signed_decimal};
ghost use Rattle.stability.specs.number_sets.Sets.{AreBelow};
ghost use Rattle.stability.specs.tree_rules.Known.{KnowsClaim, KnowsTree, KnowsTail};
ghost use Rattle.stability.specs.tree_text_rules.Line.{Token};
ghost use Rattle.stability.specs.tree_text_rules.Spelling.{line_text, network_lines};
ghost use Rattle.stability.specs.tree_text_rules.Spelling.{tree_text_lines};
ghost use Rattle.network_commands.specs.tree_text.Prints.{Prints};
ghost use Rattle.network_commands.specs.studio_rules.Stable.{side_word, beyond_lines, end_lines};
ghost use Rattle.network_commands.specs.studio_rules.Stable.{range_lines};
ghost use Rattle.network_commands.specs.studio_rules.Stable.{not_best_lines, at_line};
ghost use Rattle.network_commands.specs.studio_rules.Stable.{past_cost_lines};
ghost use Rattle.stability_commands.specs.Beyond.{KnowsBeyond};

use network_commands::{PrintFault, print_network};
use searches::Certificate;
use stability::{Network, Problem, Range, Side, Sink};
use std::alloc::{AllocError, Global};

fn number_line(alloc: Global, head: &str, number: i64) -> Result<String, AllocError>
    ensures { IfOk result
        (λ text. string_bytes text ≡ head.now ++ 32 ∷ signed_decimal number ++ 10 ∷ []) }
{
    let text = format!(in alloc; "{head} {number}\n")?;
    Ok(text)
}

/// Prints a line that has its line feed.
fn put<K: Sink>(out: &mut K, line: &[u8]) -> Result<(), PrintFault>
    ensures prints { (tokens : List Token) → line.now ≡ line_text tokens
        → Prints (tokens ∷ []) (K.state out.old) (K.state out.new) result }
    ensures later { (K.state out.old).faults ≤ (K.state out.new).faults }
{
    match out.put(line) {
        Ok(()) => Ok(()),
        Err(_) => Err(PrintFault::WriteFault),
    }
}

/// Prints the line of a word and a number.
fn put_number<K: Sink>(
    alloc: Global,
    out: &mut K,
    head: &str,
    number: i64,
) -> Result<(), PrintFault>
    ensures prints { Prints ((head.now ∷ signed_decimal number ∷ []) ∷ []) (K.state out.old)
        (K.state out.new) result }
    ensures later { (K.state out.old).faults ≤ (K.state out.new).faults }
{
    match number_line(alloc, head, number) {
        Ok(line) => put(out, line.as_bytes()),
        Err(_) => Err(PrintFault::Memory),
    }
}

fn step_line(alloc: Global, at: u32) -> Result<String, AllocError>
    ensures { IfOk result
        (λ text. string_bytes text ≡ codes "place cost " ++ (decimal at ++ 10 ∷ [])) }
{
    let text = format!(in alloc; "place cost {at}\n")?;
    Ok(text)
}

/// Prints the line of a step of a cost.
fn put_step<K: Sink>(alloc: Global, out: &mut K, at: u32) -> Result<(), PrintFault>
    ensures prints { Prints ((codes "place" ∷ codes "cost" ∷ decimal at ∷ []) ∷ [])
        (K.state out.old) (K.state out.new) result }
    ensures later { (K.state out.old).faults ≤ (K.state out.new).faults }
{
    match step_line(alloc, at) {
        Ok(line) => put(out, line.as_bytes()),
        Err(_) => Err(PrintFault::Memory),
    }
}

/// The line before a network beyond an end of the range.
fn beyond_line(side: Side) -> &'static [u8]
    ensures { result.now ≡ line_text (side_word side ∷ []) }
{
    match side {
        Side::Below => b"below\n",
        Side::Above => b"above\n",
    }
}

/// The line of an end of the range that is the limit of the values.
fn limit_line(side: Side) -> &'static [u8]
    ensures { result.now ≡ line_text (side_word side ∷ codes "limit" ∷ []) }
{
    match side {
        Side::Below => b"below limit\n",
        Side::Above => b"above limit\n",
    }
}

/// Prints a line that has its line feed, and the lines of a network.
fn put_headed<K: Sink>(
    alloc: Global,
    problem: &Problem,
    out: &mut K,
    head: &[u8],
    network: &Network,
) -> Result<(), PrintFault>
    requires { AreBelow (length problem.now.units) network.now.units }
    ensures prints { (tokens : List Token) → head.now ≡ line_text tokens
        → Prints (tokens ∷ network_lines problem.now network.now) (K.state out.old)
        (K.state out.new) result }
    ensures later { (K.state out.old).faults ≤ (K.state out.new).faults }
{
    network.is_sized();
    match put(out, head) {
        Ok(()) => print_network(alloc, problem, network, out),
        Err(fault) => Err(fault),
    }
}

/// Prints the network beyond an end of the range, or that this end is the limit of the values.
fn put_beyond<K: Sink>(
    alloc: Global,
    problem: &Problem,
    out: &mut K,
    side: Side,
    beyond: &Option<Network>,
) -> Result<(), PrintFault>
    requires { KnowsBeyond problem.now beyond.now }
    ensures prints { Prints (beyond_lines problem.now (side_word side) beyond.now) (K.state out.old)
        (K.state out.new) result }
    ensures later { (K.state out.old).faults ≤ (K.state out.new).faults }
{
    match beyond {
        Some(network) => put_headed(alloc, problem, out, beyond_line(side), network),
        None => put(out, limit_line(side)),
    }
}

/// Prints an end of a range, and what is beyond it.
fn put_end<K: Sink>(
    alloc: Global,
    problem: &Problem,
    out: &mut K,
    head: &str,
    value: i64,
    side: Side,
    beyond: &Option<Network>,
) -> Result<(), PrintFault>
    requires { KnowsBeyond problem.now beyond.now }
    ensures prints { Prints (end_lines problem.now head.now value (side_word side) beyond.now)
        (K.state out.old) (K.state out.new) result }
    ensures later { (K.state out.old).faults ≤ (K.state out.new).faults }
{
    match put_number(alloc, out, head, value) {
        Ok(()) => put_beyond(alloc, problem, out, side, beyond),
        Err(fault) => Err(fault),
    }
}

/// Prints a range.
pub(crate) fn print_range<K: Sink>(
    alloc: Global,
    problem: &Problem,
    range: &Range,
    out: &mut K,
) -> Result<(), PrintFault>
    requires below { KnowsBeyond problem.now range.now.below }
    requires above { KnowsBeyond problem.now range.now.above }
    ensures prints { Prints
        (range_lines problem.now range.now.from range.now.to range.now.below range.now.above)
        (K.state out.old) (K.state out.new) result }
    ensures later { (K.state out.old).faults ≤ (K.state out.new).faults }
{
    let below = &range.below;
    match put_end(alloc, problem, out, "from", range.from, Side::Below, below) {
        Ok(()) => put_end(
            alloc,
            problem,
            out,
            "to",
            range.to,
            Side::Above,
            &range.above,
        ),
        Err(fault) => Err(fault),
    }
}

/// Prints that a network is not the best, and a cheaper one.
pub(crate) fn print_not_best<K: Sink>(
    alloc: Global,
    problem: &Problem,
    cheaper: &Network,
    out: &mut K,
) -> Result<(), PrintFault>
    requires { AreBelow (length problem.now.units) cheaper.now.units }
    ensures prints { Prints (not_best_lines problem.now cheaper.now) (K.state out.old)
        (K.state out.new) result }
    ensures later { (K.state out.old).faults ≤ (K.state out.new).faults }
{
    put_headed(alloc, problem, out, b"not best\n", cheaper)
}

/// Prints the value at which the network's cost overflows, and the step.
pub(crate) fn print_past_cost<K: Sink>(
    alloc: Global,
    value: i64,
    at: u32,
    out: &mut K,
) -> Result<(), PrintFault>
    ensures prints { Prints (past_cost_lines value at) (K.state out.old) (K.state out.new) result }
    ensures later { (K.state out.old).faults ≤ (K.state out.new).faults }
{
    match put_number(alloc, out, "at", value) {
        Ok(()) => put_step(alloc, out, at),
        Err(fault) => Err(fault),
    }
}

/// Prints at which value a search stopped, and the text of how far it came.
pub(crate) fn print_stopped<K: Sink>(
    alloc: Global,
    problem: &Problem,
    value: i64,
    certificate: &Certificate,
    out: &mut K,
) -> Result<(), PrintFault>
    requires claim { KnowsClaim problem.now certificate.now.claim }
    requires tree { KnowsTree problem.now certificate.now.tree }
    requires tail { KnowsTail problem.now certificate.now.tail }
    ensures prints { Prints
        (at_line value ∷ tree_text_lines problem.now certificate.now.claim certificate.now.tree
        certificate.now.tail) (K.state out.old) (K.state out.new) result }
    ensures later { (K.state out.old).faults ≤ (K.state out.new).faults }
{
    match put_number(alloc, out, "at", value) {
        Ok(()) => certificate.print(alloc, problem, out),
        Err(fault) => Err(fault),
    }
}
