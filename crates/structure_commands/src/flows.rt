//! The command `flows`.
ghost use Rattle.std.specs.Prelude.{◌≡◌, ◌≤◌, ◌<◌, ◌++◌, ◌∷◌, [], None, true};
ghost use Rattle.text_lines.specs.number_sets.Sets.{has};
ghost use Rattle.cert_check.specs.pns_rules.Shape.{shape_of};
ghost use Rattle.cert_check.specs.pns_rules.Structure.{IsStructure};
ghost use Rattle.cert_check.specs.pgraph.Tables.{shape};
ghost use Rattle.cert_check.specs.tree_rules.Known.{AreUnits, KnowsEnd};
ghost use Rattle.cert_check.specs.branch_tree.View.{end_of};
ghost use Rattle.cert_check.specs.tree_rules.Claim as claims;
ghost use Rattle.cert_check.specs.tree_text_rules.Spelling.{network_lines, claim_lines};
ghost use Rattle.cert_check.specs.tree_text_rules.Spelling.{end_with_sets};
ghost use Rattle.command_files.specs.tree_text.Prints.{Prints};
ghost use Rattle.flow_evaluator.specs.Answers.{AnswersFor};
ghost use Rattle.command_files.specs.studio_rules.Reading.{FileSays};
ghost use Rattle.command_files.specs.studio_rules.Flows.{FlowsWork, FlowNamesSay, FlowsSay};
ghost use Rattle.command_files.specs.studio_rules.Ending.{Ends, Tells};
ghost use Rattle.command_files.specs.studio_rules.Keeps.{Keeps};

use crate::axioms::{first_stranger, say_breaks, say_verdict, units_named};
use cert_check::{Axiom, End, Graph, Network, Problem, Site, UnitSet, Verdict};
use command_files::say::{say_memory, say_printed};
use command_files::{
    Outputs, PrintFault, Shelf, Sink, Status, UnitNames, print_end, print_network, print_place,
    problem_of,
};
use flow_evaluator::{StructureFlows, flows_of};
use std::alloc::Global;

// The lines of a network, and the line of its bound.
fn print_least<K: Sink>(
    alloc: Global,
    problem: &Problem,
    network: &Network,
    bound: &End,
    out: &mut K,
) -> Result<(), PrintFault>
    requires units { AreUnits problem.now network.now.units }
    requires bound { KnowsEnd problem.now (end_of bound.now) }
    ensures prints { Prints
        (network_lines problem.now network.now ++ end_with_sets problem.now (end_of bound.now))
        (K.state out.old) (K.state out.new) result }
    ensures later { (K.state out.old).faults ≤ (K.state out.new).faults }
{
    match print_network(alloc, problem, network, out) {
        Ok(()) => print_end(alloc, problem, bound, out),
        Err(fault) => Err(fault),
    }
}

// The line `infeasible`, and that of the refutation.
fn print_none<K: Sink>(
    alloc: Global,
    problem: &Problem,
    refuted: &End,
    out: &mut K,
) -> Result<(), PrintFault>
    requires { KnowsEnd problem.now (end_of refuted.now) }
    ensures prints { Prints
        (claim_lines problem.now claims.infeasible
        ++ end_with_sets problem.now (end_of refuted.now)) (K.state out.old) (K.state out.new)
        result }
    ensures later { (K.state out.old).faults ≤ (K.state out.new).faults }
{
    match out.put(b"infeasible\n") {
        Ok(()) => print_end(alloc, problem, refuted, out),
        Err(_) => Err(PrintFault::WriteFault),
    }
}

fn say_answer<K: Sink, E: Sink>(
    alloc: Global,
    out: &mut Outputs<K, E>,
    problem: &Problem,
    set: UnitSet,
    answer: StructureFlows,
) -> Status
    requires known { AreUnits problem.now set }
    requires answer { AnswersFor problem.now set answer }
    ensures { Ends (Tells (FlowsSay problem.now set)) out.old out.new result }
{
    match answer {
        StructureFlows::Least { network, bound } => {
            network.is_sized();
            bound.are_in_range();
            let bound = End::Bound(bound);
            let printed = print_least(alloc, problem, &network, &bound, &mut out.out);
            say_printed(out, printed, Status::Done)
        }
        StructureFlows::Refuted { ys } => {
            let refuted = End::Refuted(ys);
            let printed = print_none(alloc, problem, &refuted, &mut out.out);
            say_printed(out, printed, Status::Done)
        }
        StructureFlows::Past { nonbasic, place } => {
            let printed = print_place(alloc, problem, nonbasic.columns(), &place, &mut out.out);
            say_printed(out, printed, Status::Past)
        }
    }
}

fn say_structure<K: Sink, E: Sink>(
    alloc: Global,
    out: &mut Outputs<K, E>,
    site: &Site<'_>,
    set: UnitSet,
) -> Status
    requires known { AreUnits site.now set }
    requires structure { IsStructure (shape_of site.now) (has set) }
    ensures { Ends (Tells (FlowsSay site.now set)) out.old out.new result }
{
    match flows_of(alloc, site, set) {
        Ok(answer) => say_answer(alloc, out, site.problem(), set, answer),
        Err(_) => say_memory(out),
    }
}

// The flows of the units of names that are all known.
fn say_known<K: Sink, E: Sink>(
    alloc: Global,
    out: &mut Outputs<K, E>,
    problem: &Problem,
    units: &UnitNames,
) -> Status
    ensures { Ends (Tells (FlowNamesSay units.now problem.now None)) out.old out.new result }
{
    let Ok(graph) = Graph::of(alloc, problem) else {
        return say_memory(out);
    };
    graph.is_proper();
    let set = units_named(problem, units);
    set.rises();
    match graph.judge(set) {
        Verdict::Meets => say_structure(alloc, out, &Site::of(problem, &graph), set),
        verdict => say_verdict(alloc, out, problem, verdict),
    }
}

fn say_flows<K: Sink, E: Sink>(
    alloc: Global,
    out: &mut Outputs<K, E>,
    problem: &Problem,
    units: &UnitNames,
) -> Status
    ensures { Ends (Tells (FlowsWork units.now problem.now)) out.old out.new result }
{
    match first_stranger(problem, units) {
        Some(name) => say_breaks(alloc, out, Axiom::S3, name),
        None => say_known(alloc, out, problem, units),
    }
}

/// Prints the least flows of the named units of the file's problem, with multipliers that prove
/// them, or that they have none. If the units are no solution structure, it prints the first axiom
/// that they break.
pub fn flows<F: Shelf, K: Sink, E: Sink>(
    alloc: Global,
    file: &str,
    units: &UnitNames,
    shelf: &mut F,
    out: &mut Outputs<K, E>,
) -> Status
    ensures ends { Ends
        (FileSays (FlowsWork units.now) file.now (F.state shelf.old) (F.state shelf.new)) out.old
        out.new result }
    ensures keeps { Keeps (F.state shelf.old) (F.state shelf.new) }
{
    match problem_of(alloc, shelf, out, file) {
        Ok(problem) => say_flows(alloc, out, &problem, units),
        Err(status) => status,
    }
}
