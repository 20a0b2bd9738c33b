//! The command `axioms`.
ghost use Rattle.std.specs.Prelude.{◌≡◌, ◌<◌, ◌≤◌, ◌||◌, ℕ, None, IfOk, length, option_map, true};
ghost use Rattle.text_lines.specs.number_sets.Sets.{has};
ghost use Rattle.command_files.specs.studio_rules.Lines.{line};
ghost use Rattle.command_files.specs.studio_rules.Reading.{FileSays};
ghost use Rattle.command_files.specs.studio_rules.Axioms.{AxiomsWork, NamesSay, VerdictSays};
ghost use Rattle.command_files.specs.studio_rules.Axioms.{axiom_word};
ghost use Rattle.command_files.specs.studio_rules.Axioms.{breaks_line, place_name, is_stranger};
ghost use Rattle.command_files.specs.studio_rules.Axioms.{first_stranger};
ghost use Rattle.command_files.specs.studio_rules.Axioms.{is_name_of, units_named};
ghost use Rattle.command_files.specs.studio_rules.Ending.{Ends, Tells, Only, OrMemory};
ghost use Rattle.command_files.specs.studio_rules.Keeps.{Keeps};
ghost use Rattle.command_files.specs.studio_rules.declared.status.Status.TheVariants.{Refused};

use cert_check::{Axiom, Graph, Problem, UnitSet, Verdict};
use command_files::say::{say, say_memory};
use command_files::{Outputs, Shelf, Sink, Status, UnitNames, problem_of};
use std::alloc::{AllocError, Global};

fn axiom_word(broken: Axiom) -> &'static str
    ensures { result.now ≡ axiom_word broken }
{
    match broken {
        Axiom::S1 => "S1",
        Axiom::S2 => "S2",
        Axiom::S3 => "S3",
        Axiom::S4 => "S4",
        Axiom::S5 => "S5",
    }
}

fn breaks_line(alloc: Global, broken: Axiom, name: &str) -> Result<Vec<u8>, AllocError>
    ensures { IfOk result (λ bytes. bytes.items ≡ line (breaks_line broken name.now)) }
{
    let mut bytes = b"breaks ".to_vec(alloc)?;
    bytes.extend_from_slice(axiom_word(broken).as_bytes())?;
    bytes.push(b' ')?;
    bytes.extend_from_slice(name.as_bytes())?;
    bytes.push(b'\n')?;
    Ok(bytes)
}

/// Prints the broken axiom with the name of its place.
pub fn say_breaks<K: Sink, E: Sink>(
    alloc: Global,
    out: &mut Outputs<K, E>,
    broken: Axiom,
    name: &str,
) -> Status
    ensures { Ends (OrMemory (Only Refused (line (breaks_line broken name.now)))) out.old out.new
        result }
{
    match breaks_line(alloc, broken, name) {
        Ok(bytes) => say(out, &bytes, Status::Refused),
        Err(_) => say_memory(out),
    }
}

// The name of a place: a material for S1, S2 and S5, a unit for S3 and S4.
fn place_name<'a>(problem: &'a Problem, broken: Axiom, at: u32) -> &'a str
    ensures { result.now ≡ place_name problem.now broken at }
{
    match broken {
        Axiom::S1 | Axiom::S2 | Axiom::S5 => problem.material_name(at),
        Axiom::S3 | Axiom::S4 => problem.unit_name(at),
    }
}

// Whether no unit has the name.
fn is_stranger(problem: &Problem, name: &str) -> bool
    ensures { result ≡ is_stranger problem.now name.now }
{
    problem.unit_named(name).is_none()
}

/// The first name that no unit has.
pub fn first_stranger<'a>(problem: &Problem, units: &'a UnitNames) -> Option<&'a str>
    ensures { option_map (λ name. name.now) result ≡ first_stranger problem.now units.now }
{
    'looking: for k in 0..units.len() {
        let name = units.name(k);
        if is_stranger(problem, name) {
            return Some(name);
        }
    }
    None
}

// The set with the unit of the name, if there is one.
fn with_named(problem: &Problem, name: &str, set: UnitSet) -> UnitSet
    requires { length problem.now.units ≤ 128 }
    ensures named { (u : ℕ) → has result u ≡ (is_name_of problem.now u name.now || has set u) }
    ensures known { ((u : ℕ) → has set u ≡ true → u < length problem.now.units) → (u : ℕ)
        → has result u ≡ true → u < length problem.now.units }
{
    match problem.unit_named(name) {
        Some(unit) => set.with(unit),
        None => set,
    }
}

/// The units of the names.
pub fn units_named(problem: &Problem, units: &UnitNames) -> UnitSet
    requires { length problem.now.units ≤ 128 }
    ensures named { has result ≡ units_named problem.now units.now }
    ensures known { (u : ℕ) → has result u ≡ true → u < length problem.now.units }
{
    let mut set = UnitSet::empty();
    'finding: for k in 0..units.len() {
        set = with_named(problem, units.name(k), set);
    }
    set
}

/// Prints `meets`, or the broken axiom with the name of its least place.
pub fn say_verdict<K: Sink, E: Sink>(
    alloc: Global,
    out: &mut Outputs<K, E>,
    problem: &Problem,
    verdict: Verdict,
) -> Status
    ensures { Ends (Tells (VerdictSays problem.now verdict)) out.old out.new result }
{
    match verdict {
        Verdict::Meets => say(out, b"meets\n", Status::Done),
        Verdict::Breaks { axiom, at } => {
            say_breaks(alloc, out, axiom, place_name(problem, axiom, at))
        }
    }
}

// Judges the units of names that are all known.
fn say_known<K: Sink, E: Sink>(
    alloc: Global,
    out: &mut Outputs<K, E>,
    problem: &Problem,
    units: &UnitNames,
) -> Status
    ensures { Ends (Tells (NamesSay units.now problem.now None)) out.old out.new result }
{
    let Ok(graph) = Graph::of(alloc, problem) else {
        return say_memory(out);
    };
    graph.is_proper();
    let verdict = graph.judge(units_named(problem, units));
    say_verdict(alloc, out, problem, verdict)
}

fn say_judged<K: Sink, E: Sink>(
    alloc: Global,
    out: &mut Outputs<K, E>,
    problem: &Problem,
    units: &UnitNames,
) -> Status
    ensures { Ends (Tells (AxiomsWork units.now problem.now)) out.old out.new result }
{
    match first_stranger(problem, units) {
        Some(name) => say_breaks(alloc, out, Axiom::S3, name),
        None => say_known(alloc, out, problem, units),
    }
}

/// Prints that the named units are a solution structure of the file's problem, or the first axiom
/// that they break.
pub fn axioms<F: Shelf, K: Sink, E: Sink>(
    alloc: Global,
    file: &str,
    units: &UnitNames,
    shelf: &mut F,
    out: &mut Outputs<K, E>,
) -> Status
    ensures ends { Ends
        (FileSays (AxiomsWork units.now) file.now (F.state shelf.old) (F.state shelf.new)) out.old
        out.new result }
    ensures keeps { Keeps (F.state shelf.old) (F.state shelf.new) }
{
    match problem_of(alloc, shelf, out, file) {
        Ok(problem) => say_judged(alloc, out, &problem, units),
        Err(status) => status,
    }
}
