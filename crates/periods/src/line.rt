//! One line of a plan alone.
ghost use Rattle.std.specs.Prelude.{◌≡◌};
ghost use Rattle.text_lines.specs.View.{texts};
ghost use Rattle.plan_laws.specs.plan_rules.Line.{kind_of, worded_read, line_read, word_named};
ghost use Rattle.edit_scripts.specs.Reads.{Reads};
ghost use Rattle.periods.specs.View.{entry_of, ReadsFields};

use edit_scripts::{EditKind, LineFault as ScriptFault, fields};
use plan_laws::{PlanKind, PlanWord};
use std::alloc::Global;
use text_lines::fault;
use text_lines::token::tokens_of;
use text_lines::words::looked_up;

/// The fault of a line, or out of memory.
pub(crate) type LineFault = fault::LineFault<PlanKind>;

/// What a line says.
#[derive(Clone, Copy)]
pub(crate) enum Entry<'a> {
    /// A period begins.
    Begins,
    /// The material of this name changes in the period.
    Changes(&'a str, Change),
}

/// What changes of a material, in millionths.
#[derive(Clone, Copy)]
pub(crate) enum Change {
    Price(i64),
    /// The lower and the upper bound.
    Bounds(i64, i64),
}

const WORDS: [(&[u8], PlanWord); 3] = [
    (b"period", PlanWord::Period),
    (b"price", PlanWord::Price),
    (b"bounds", PlanWord::Bounds),
];

fn word_named(text: &[u8]) -> Option<PlanWord>
    ensures { result ≡ word_named text.now }
{
    looked_up(&WORDS, text)
}

// The kind in a plan of a fault of a name or an amount that a script has too.
fn kind_of(kind: EditKind) -> PlanKind
    ensures { result ≡ kind_of kind }
{
    match kind {
        EditKind::BadName => PlanKind::BadName,
        EditKind::BadNumber => PlanKind::BadNumber,
        EditKind::TooFine => PlanKind::TooFine,
        EditKind::TooLarge => PlanKind::TooLarge,
        EditKind::Sign => PlanKind::Sign,
        _ => PlanKind::BadLine,
    }
}

fn read_fields<'a>(word: Option<PlanWord>, fields: &[&'a [u8]]) -> Result<Entry<'a>, ScriptFault>
    ensures { ReadsFields (worded_read word (texts fields.now)) result }
{
    match word {
        Some(PlanWord::Period) if fields.is_empty() => Ok(Entry::Begins),
        Some(PlanWord::Price) => {
            let (material, price) = fields::amount(fields)?;
            Ok(Entry::Changes(material, Change::Price(price)))
        }
        Some(PlanWord::Bounds) => {
            let (material, lower, upper) = fields::bounds(fields)?;
            Ok(Entry::Changes(material, Change::Bounds(lower, upper)))
        }
        Some(PlanWord::Period) | None => Err(ScriptFault::Kind(EditKind::BadLine)),
    }
}

/// What a line that is not empty says, or what is wrong with it alone.
pub(crate) fn read_line<'a>(alloc: Global, text: &'a [u8]) -> Result<Entry<'a>, LineFault>
    ensures { Reads entry_of (line_read text.now) result }
{
    let tokens = tokens_of(alloc, text)?;
    let [word, fields @ ..] = tokens.as_slice() else {
        return Err(LineFault::Kind(PlanKind::BadLine));
    };
    match read_fields(word_named(*word), fields) {
        Ok(entry) => Ok(entry),
        Err(ScriptFault::Kind(kind)) => Err(LineFault::Kind(kind_of(kind))),
        Err(ScriptFault::Memory) => Err(LineFault::Memory),
    }
}
