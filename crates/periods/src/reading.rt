//! What the lines of a plan stand for, line by line.
ghost use Rattle.std.specs.Prelude.{◌≡◌, ◌<◌, false, not, ℕ, Ok, OnOk, IfOk, IfErr};
ghost use Rattle.std.specs.Prelude.{IfNone};
ghost use Rattle.std.specs.Prelude.{length};
ghost use Rattle.plan_laws.specs.plan_rules.Line as rules;
ghost use Rattle.plan_laws.specs.plan_rules.Line.{line_read};
ghost use Rattle.plan_laws.specs.plan_rules.Meaning.{entry_fault, changed};
ghost use Rattle.plan_laws.specs.plan_rules.Read.{is_double, seen_after, placed};
ghost use Rattle.text_lines.specs.Tells.{TellsLine};
ghost use Rattle.periods.specs.View.{changes};
ghost use Rattle.periods.specs.Reading.{seen_of, HasTaken};

use crate::line::{Change, Entry, LineFault, read_line};
use crate::{Period, Plan};
use edit_scripts::Problem;
use plan_laws::PlanKind;
use std::alloc::{AllocError, Global};
use std::mem;
use text_lines::name_set::NameSet;

/// The periods so far, the materials whose price and whose bounds the last of them changes, and the
/// first fault of meaning.
#[derive(Drop)]
pub(crate) struct Reading<'a> {
    pub(crate) periods: Vec<Period>,
    pub(crate) priced: NameSet<'a>,
    pub(crate) bounded: NameSet<'a>,
    pub(crate) fault: Option<(u32, PlanKind)>,
}

impl<'a> Reading<'a> {
    // A period begins with the problem's own prices and bounds. If there are too many periods
    // already, no more are kept.
    fn begin(&mut self, alloc: Global, problem: &Problem) -> Result<(), AllocError>
        ensures { OnOk result
            ((number : ℕ)
            → HasTaken problem.now number (Ok rules.begins) self.old self.new) }
    {
        problem.is_valid();
        let _ = mem::replace(&mut self.priced, NameSet::new(alloc));
        let _ = mem::replace(&mut self.bounded, NameSet::new(alloc));
        if Plan::is_too_wide(problem, self.periods.len()) {
            return Ok(());
        }
        self.periods.push(Period::of(alloc, problem)?)?;
        Ok(())
    }

    // Adds a material to those of its kind that the present period changes, and says whether it is
    // new there.
    fn note(&mut self, material: &'a str, change: Change) -> Result<bool, AllocError>
        ensures new { IfOk result
            (λ is_new. is_new
            ≡ not (is_double (seen_of self.old) (changes material.now change))) }
        ensures seen { OnOk result
            (is_double (seen_of self.old) (changes material.now change) ≡ false
            → seen_of self.new
            ≡ seen_after (seen_of self.old) (changes material.now change)) }
        ensures periods { self.new.periods ≡ self.old.periods }
        ensures fault { self.new.fault ≡ self.old.fault }
    {
        match change {
            Change::Price(_) => self.priced.add(material.as_bytes()),
            Change::Bounds(_, _) => self.bounded.add(material.as_bytes()),
        }
    }

    // Takes a line that changes a material of the present period.
    fn change(
        &mut self,
        problem: &Problem,
        number: u32,
        material: &'a str,
        change: Change,
    ) -> Result<(), LineFault>
        requires { 0 < length self.old.periods.items }
        ensures taken { OnOk result
            (HasTaken problem.now number (Ok (changes material.now change)) self.old
            self.new) }
        ensures fault { IfErr result
            (TellsLine (placed (seen_of self.old) (Ok (changes material.now change)))) }
    {
        if !self.note(material, change)? {
            return Err(LineFault::Kind(PlanKind::DoubleLine));
        }
        let last = self.periods.len() - 1;
        let Some(kind) = apply(problem, &mut self.periods[last], material, change) else {
            return Ok(());
        };
        self.fault = self.fault.or(Some((number, kind)));
        Ok(())
    }

    /// Takes a line of this number that is not empty, or gives its fault of form.
    pub(crate) fn take(
        &mut self,
        alloc: Global,
        problem: &Problem,
        number: u32,
        text: &'a [u8],
    ) -> Result<(), LineFault>
        ensures taken { OnOk result
            (HasTaken problem.now number (line_read text.now) self.old self.new) }
        ensures fault { IfErr result
            (TellsLine (placed (seen_of self.old) (line_read text.now))) }
    {
        match read_line(alloc, text) {
            Ok(Entry::Begins) => Ok(self.begin(alloc, problem)?),
            // before the first period any other line is a bad line, whatever its fault
            Ok(Entry::Changes(_, _)) | Err(LineFault::Kind(_)) if self.periods.is_empty() => {
                Err(LineFault::Kind(PlanKind::BadLine))
            }
            Ok(Entry::Changes(material, change)) => self.change(problem, number, material, change),
            Err(fault) => Err(fault),
        }
    }
}

// Changes a material of the period, or says what is wrong with that for the problem.
#[tactic(auto, using(crate::proofs::Places::place_at, crate::proofs::Places::known, crate::proofs::Places::unknown))]
fn apply(problem: &Problem, period: &mut Period, material: &str, change: Change) -> Option<PlanKind>
    ensures fault { result ≡ entry_fault problem.now (changes material.now change) }
    ensures changed { IfNone result
        (period.new ≡ changed problem.now period.old (changes material.now change)) }
{
    let Some(number) = problem.material_named(material) else {
        return Some(PlanKind::UnknownName);
    };
    match change {
        Change::Price(price) => {
            period.set_price(number, price);
            None
        }
        Change::Bounds(lower, upper) if upper < lower => Some(PlanKind::LowAboveHigh),
        Change::Bounds(lower, upper) => {
            period.set_bounds(number, lower, upper);
            None
        }
    }
}
