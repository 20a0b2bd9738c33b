//! The command `max`.
ghost use Rattle.std.specs.Prelude.{◌≡◌, ◌≤◌, ◌<◌, ◌++◌, ℕ, IfOk, length, true};
ghost use Rattle.text_lines.specs.number_sets.Sets.{has};
ghost use Rattle.cert_check.specs.pns_rules.Shape.{shape_of};
ghost use Rattle.cert_check.specs.pns_rules.Structure.{mats};
ghost use Rattle.cert_check.specs.pgraph.Tables.{shape};
ghost use Rattle.command_files.specs.studio_rules.Lines.{line};
ghost use Rattle.command_files.specs.studio_rules.Reading.{FileSays};
ghost use Rattle.command_files.specs.studio_rules.Max.{MaxWork, units_line, materials_line};
ghost use Rattle.command_files.specs.studio_rules.Ending.{Ends, Tells, Only, OrMemory};
ghost use Rattle.command_files.specs.studio_rules.Keeps.{Keeps};
ghost use Rattle.command_files.specs.studio_rules.declared.status.Status.TheVariants.{Done};

use cert_check::{Graph, MatSet, Problem, UnitSet, maximal};
use command_files::line::{push_material_names, push_unit_names};
use command_files::say::{say, say_both, say_memory};
use command_files::{Outputs, Shelf, Sink, Status, problem_of};
use std::alloc::{AllocError, Global};

fn units_line(alloc: Global, problem: &Problem, set: UnitSet) -> Result<Vec<u8>, AllocError>
    requires { length problem.now.units ≤ 128 }
    ensures { IfOk result (λ bytes. bytes.items ≡ line (units_line problem.now (has set))) }
{
    let mut bytes = b"units".to_vec(alloc)?;
    push_unit_names(&mut bytes, problem.units(), set)?;
    bytes.push(b'\n')?;
    Ok(bytes)
}

fn materials_line(alloc: Global, problem: &Problem, set: MatSet) -> Result<Vec<u8>, AllocError>
    requires { length problem.now.materials ≤ 256 }
    ensures { IfOk result (λ bytes. bytes.items ≡ line (materials_line problem.now (has set))) }
{
    let mut bytes = b"materials".to_vec(alloc)?;
    push_material_names(&mut bytes, problem.materials(), set)?;
    bytes.push(b'\n')?;
    Ok(bytes)
}

// Prints the two lines of a set of units.
fn say_structure<K: Sink, E: Sink>(
    alloc: Global,
    out: &mut Outputs<K, E>,
    problem: &Problem,
    graph: &Graph,
    set: UnitSet,
) -> Status
    requires graph { shape graph.now ≡ shape_of problem.now }
    requires known { (u : ℕ) → has set u ≡ true → u < (shape graph.now).units }
    ensures { Ends
        (OrMemory
        (Only Done
        (line (units_line problem.now (has set))
        ++ line (materials_line problem.now (mats (shape_of problem.now) (has set)))))) out.old
        out.new result }
{
    graph.is_proper();
    let Ok(units) = units_line(alloc, problem, set) else {
        return say_memory(out);
    };
    let Ok(materials) = materials_line(alloc, problem, graph.materials(set)) else {
        return say_memory(out);
    };
    say_both(out, &units, &materials, Status::Done)
}

fn say_maximal<K: Sink, E: Sink>(
    alloc: Global,
    out: &mut Outputs<K, E>,
    problem: &Problem,
) -> Status
    ensures { Ends (Tells (MaxWork problem.now)) out.old out.new result }
{
    let Ok(graph) = Graph::of(alloc, problem) else {
        return say_memory(out);
    };
    match maximal(&graph, UnitSet::empty()) {
        Some(set) => say_structure(alloc, out, problem, &graph, set),
        None => say(out, b"none\n", Status::Done),
    }
}

/// Prints the units and the materials of the maximal structure of the file's problem.
pub fn max<F: Shelf, K: Sink, E: Sink>(
    alloc: Global,
    file: &str,
    shelf: &mut F,
    out: &mut Outputs<K, E>,
) -> Status
    ensures ends { Ends (FileSays MaxWork file.now (F.state shelf.old) (F.state shelf.new)) out.old
        out.new result }
    ensures keeps { Keeps (F.state shelf.old) (F.state shelf.new) }
{
    match problem_of(alloc, shelf, out, file) {
        Ok(problem) => say_maximal(alloc, out, &problem),
        Err(status) => status,
    }
}
