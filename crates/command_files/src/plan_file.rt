//! A plan file: it is read and judged for a problem.
ghost use Rattle.std.specs.Prelude.{◌≡◌, ℕ, List, IfOk, IfErr, OnOk, string_bytes};
ghost use Rattle.studio_words.specs.studio_rules.Lines.{line};
ghost use Rattle.periods.specs.plan_rules.Plan.{IsPlan};
ghost use Rattle.studio_words.specs.studio_rules.Reading.{AreHeld};
ghost use Rattle.studio_words.specs.studio_rules.Plan.{GivesPlan, PlanFaults, plan_fault_line};
ghost use Rattle.studio_words.specs.studio_rules.Plan.{plan_kind_word};
ghost use Rattle.studio_words.specs.studio_rules.Ending.{Ends, Says, Only, OrMemory};
ghost use Rattle.studio_words.specs.studio_rules.Keeps.{Keeps};
ghost use Rattle.studio_words.specs.studio_rules.declared.status.Status.TheVariants.{BadPlan};

use crate::file::bytes_of;
use crate::say::{say_memory, tell};
use periods::{Plan, PlanFault, PlanKind, read_plan};
use pns_text::Problem;
use std::alloc::{AllocError, Global};
use studio_words::{Format, Source, Status, fault};
use tree_text::{Outputs, Shelf, Sink};

/// The most bytes of a plan file.
const PLAN_LIMIT: u64 = 4_194_304;

/// The word for a kind of fault.
fn plan_kind_word(kind: PlanKind) -> &'static str
    ensures { result.now ≡ plan_kind_word kind }
{
    match kind {
        PlanKind::FileType => "FileType",
        PlanKind::BadLine => "BadLine",
        PlanKind::BadName => "BadName",
        PlanKind::BadNumber => "BadNumber",
        PlanKind::TooFine => "TooFine",
        PlanKind::TooLarge => "TooLarge",
        PlanKind::Sign => "Sign",
        PlanKind::DoubleLine => "DoubleLine",
        PlanKind::UnknownName => "UnknownName",
        PlanKind::LowAboveHigh => "LowAboveHigh",
        PlanKind::NoPeriod => "NoPeriod",
        PlanKind::TooWide => "TooWide",
    }
}

fn plan_fault_line(alloc: Global, number: u32, kind: PlanKind) -> Result<String, AllocError>
    ensures { IfOk result (λ text. string_bytes text ≡ line (plan_fault_line number kind)) }
{
    let mut text = String::from_str(alloc, "plan line ")?;
    write!(text, "{number}")?;
    text.push(' ')?;
    text.push_str(plan_kind_word(kind))?;
    text.push('\n')?;
    Ok(text)
}

fn say_plan_fault<K: Sink, E: Sink>(
    alloc: Global,
    out: &mut Outputs<K, E>,
    text: &[u8],
    number: u32,
    kind: PlanKind,
) -> Status
    ensures { Ends (OrMemory (Only BadPlan (line (plan_fault_line number kind)))) out.old out.new
        result }
{
    let source = Source {
        text,
        format: Format::Plan,
    };
    let notes = fault(alloc, source, number, plan_kind_word(kind));
    match plan_fault_line(alloc, number, kind) {
        Ok(text) => tell(out, text.as_bytes(), notes.bytes(), Status::BadPlan),
        Err(_) => say_memory(out),
    }
}

/// Reads the file and judges its text as a plan for the problem. If that gives no plan, the text
/// that says why was put, and the status is that of the call.
pub fn plan_of<F: Shelf, K: Sink, E: Sink>(
    alloc: Global,
    shelf: &mut F,
    out: &mut Outputs<K, E>,
    name: &str,
    problem: &Problem,
) -> Result<Plan, Status>
    ensures plan { IfOk result
        (λ plan. (file : List ℕ) × AreHeld ((F.state shelf.old).held name.now) file
        × GivesPlan problem.now file plan) }
    ensures valid { IfOk result (IsPlan problem.now) }
    ensures silent { OnOk result (out.new ≡ out.old) }
    ensures keeps { Keeps (F.state shelf.old) (F.state shelf.new) }
    ensures told { IfErr result
        (Ends
        (Says (PlanFaults (F.state shelf.old).held name.now problem.now) (λ other. other ≡ name.now)
        (F.state shelf.old) (F.state shelf.new)) out.old out.new) }
{
    let bytes = match bytes_of(alloc, shelf, out, name, PLAN_LIMIT) {
        Ok(bytes) => bytes,
        Err(status) => return Err(status),
    };
    match read_plan(alloc, problem, &bytes) {
        Ok(plan) => Ok(plan),
        Err(PlanFault::At { line, kind }) => Err(say_plan_fault(alloc, out, &bytes, line, kind)),
        Err(PlanFault::Memory) => Err(say_memory(out)),
    }
}
