//! The reader of a whole plan.
ghost use Rattle.std.specs.Prelude.{◌≡◌, ◌<◌, ◌-◌, ◌^◌, Ok, IfOk, IfErr, length};
ghost use Rattle.plan_laws.specs.plan_rules.Meaning.{read_plan};
ghost use Rattle.plan_laws.specs.plan_rules.Plan.{IsPlan};
ghost use Rattle.text_lines.specs.Tells.{Tells};
ghost use Rattle.periods.specs.Reading.{rest_read};

use crate::Plan;
use crate::reading::Reading;
use edit_scripts::Problem;
use plan_laws::PlanKind;
use std::alloc::Global;
use text_lines::fault::TextFault;
use text_lines::lines::{Drops, Lines};
use text_lines::name_set::NameSet;

/// The first fault of a plan, or out of memory.
pub type PlanFault = TextFault<PlanKind>;

// The plan of the lines after the first.
fn read_rest(alloc: Global, problem: &Problem, mut lines: Lines<'_>) -> Result<Plan, PlanFault>
    ensures read { IfOk result (λ plan. rest_read problem.now lines.entry ≡ Ok plan) }
    ensures fault { IfErr result (Tells (rest_read problem.now lines.entry)) }
{
    let mut reading = Reading {
        periods: Vec::new(alloc),
        priced: NameSet::new(alloc),
        bounded: NameSet::new(alloc),
        fault: None,
    };
    'reading: while let Some((number, text)) = lines.next() {
        if text.is_empty() {
            continue;
        }
        reading
            .take(alloc, problem, number, text)
            .map_err(|fault| fault.at(number))?;
    }
    if let Some((line, kind)) = reading.fault {
        return Err(PlanFault::At { line, kind });
    }
    match Plan::of(problem, reading.periods) {
        Ok(plan) => Ok(plan),
        Err(kind) => Err(PlanFault::At {
            line: lines.number(),
            kind,
        }),
    }
}

/// The plan for the problem that the text stands for. The answer is `At` exactly if the text has a
/// fault, with the first: a fault of form before each of meaning, then that of the first line,
/// counted from 1, and of the faults there the one with the least number. The answer `Memory` means
/// out of memory, at any moment. The time is linear in the text and the plan.
pub fn read_plan(alloc: Global, problem: &Problem, bytes: &[u8]) -> Result<Plan, PlanFault>
    requires { length bytes.now < 2 ^ 32 - 1 }
    ensures read { IfOk result (λ plan. read_plan problem.now bytes.now ≡ Ok plan) }
    ensures valid { IfOk result (IsPlan problem.now) }
    ensures fault { IfErr result (Tells (read_plan problem.now bytes.now)) }
{
    problem.is_valid();
    match Lines::behind_type(Drops::Return, bytes, b"file_type=PNS_plan_v1") {
        Some(lines) => read_rest(alloc, problem, lines),
        None => Err(PlanFault::At {
            line: 1,
            kind: PlanKind::FileType,
        }),
    }
}
