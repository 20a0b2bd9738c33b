//! How lines are put on the outputs, and with which status a call then ends.
//!
//! `say` and its like put an answer on standard output. `tell` and its like put on standard error a
//! line that says why there is no answer, and after it second lines for people.
ghost use Rattle.std.specs.Prelude.{◌≡◌, ◌≤◌, ◌<◌, ◌++◌, ◌∷◌, [], ℕ, List, IfOk, codes};
ghost use Rattle.std.specs.Prelude.{length, MatchResult};
ghost use Rattle.std.specs.Prelude.{string_bytes};
ghost use Rattle.pns_text.specs.text_rules.State.{OutputsState};
ghost use Rattle.tree_reading.specs.tree_text_rules.Line.{Token};
ghost use Rattle.tree_text.specs.Prints.{Prints};
ghost use Rattle.studio_words.specs.studio_rules.Lines.{line, text_of};
ghost use Rattle.studio_words.specs.studio_rules.Seconds.{AreSeconds};
ghost use Rattle.studio_words.specs.studio_rules.Printed.{OneAnswer};
ghost use Rattle.studio_words.specs.studio_rules.Ending.{Ends, Tells, Only, OrMemory, IsOneOf};
ghost use Rattle.studio_words.specs.studio_rules.Ending.{IsAnswer};
ghost use Rattle.studio_words.specs.studio_rules.Ending.{IsUnfinished, IsRefusal};
ghost use Rattle.studio_words.specs.studio_rules.declared.status.Status.TheVariants.{Done, Past};
ghost use Rattle.studio_words.specs.studio_rules.declared.status.Status.TheVariants.{Spent};
ghost use Rattle.studio_words.specs.studio_rules.declared.status.Status.TheVariants.{Memory};

use crate::line::line_of;
use crate::outputs::{put_answer, put_error};
use pns_text::line::place_of;
use std::alloc::{AllocError, Global};
use studio_words::Status;
use tree_text::{Outputs, PrintFault, Sink};

/// Puts one line, which has its line feed, and gives the status.
pub fn say<K: Sink, E: Sink>(out: &mut Outputs<K, E>, bytes: &[u8], status: Status) -> Status
    requires { IsAnswer status }
    ensures { Ends (Only status bytes.now) out.old out.new result }
{
    match put_answer(out, bytes) {
        Ok(()) => status,
        Err(_) => Status::WriteFault,
    }
}

/// Puts two lines.
pub fn say_both<K: Sink, E: Sink>(
    out: &mut Outputs<K, E>,
    first: &[u8],
    second: &[u8],
    status: Status,
) -> Status
    requires { IsAnswer status }
    ensures { Ends (Only status (first.now ++ second.now)) out.old out.new result }
{
    match put_answer(out, first) {
        Ok(()) => say(out, second, status),
        Err(_) => Status::WriteFault,
    }
}

// The first line, with its line feed if it has one, and what follows it.
fn cut_line(text: &[u8]) -> (&[u8], &[u8])
    requires { 0 < length text.now }
    ensures cut { text.now ≡ result.0.now ++ result.1.now }
    ensures shorter { length result.1.now < length text.now }
{
    let at = place_of(b'\n', text);
    if at < text.len() {
        (&text[..at + 1], &text[at + 1..])
    } else {
        (text, &[])
    }
}

/// Puts a text line by line, and gives the status.
pub fn say_text<K: Sink, E: Sink>(out: &mut Outputs<K, E>, text: &[u8], status: Status) -> Status
    requires { IsAnswer status }
    ensures { Ends (Only status text.now) out.old out.new result }
{
    let mut rest = text;
    while !rest.is_empty() {
        let (line, behind) = cut_line(rest);
        let Ok(()) = put_answer(out, line) else {
            return Status::WriteFault;
        };
        rest = behind;
    }
    status
}

/// Puts a text line by line, or the line `memory` if there was no memory for it.
pub fn say_made<K: Sink, E: Sink>(
    out: &mut Outputs<K, E>,
    text: Result<Vec<u8>, AllocError>,
) -> Status
    ensures { (lines : List (List ℕ)) → IfOk text (λ bytes. bytes.items ≡ text_of lines)
        → Ends (OrMemory (Only Done (text_of lines))) out.old out.new result }
{
    match text {
        Ok(bytes) => say_text(out, &bytes, Status::Done),
        Err(_) => say_memory(out),
    }
}

/// The same, for a text of which no more is known than its bytes.
pub fn say_told<K: Sink, E: Sink>(
    out: &mut Outputs<K, E>,
    text: Result<Vec<u8>, AllocError>,
) -> Status
    ensures { MatchResult text (λ bytes. Ends (Only Done bytes.items) out.old out.new result)
        (λ fault. Ends (Only Memory (line (codes "memory"))) out.old out.new result) }
{
    match text {
        Ok(bytes) => say_text(out, &bytes, Status::Done),
        Err(_) => say_memory(out),
    }
}

/// Puts the line `memory` on standard error, which takes no memory.
pub fn say_memory<K: Sink, E: Sink>(out: &mut Outputs<K, E>) -> Status
    ensures { Ends (Only Memory (line (codes "memory"))) out.old out.new result }
{
    match put_error(out, b"memory\n") {
        Ok(()) => Status::Memory,
        Err(_) => Status::WriteFault,
    }
}

/// Puts a line of two texts, one after the other.
pub fn say_of<K: Sink, E: Sink>(
    alloc: Global,
    out: &mut Outputs<K, E>,
    head: &str,
    tail: &str,
    status: Status,
) -> Status
    requires { IsAnswer status }
    ensures { Ends (OrMemory (Only status (line (head.now ++ tail.now)))) out.old out.new
        result }
{
    match line_of(alloc, head, tail) {
        Ok(bytes) => say(out, &bytes, status),
        Err(_) => say_memory(out),
    }
}

/// Says in second lines on standard error that the text on standard output is not finished. Gives
/// the status.
pub fn say_unfinished<K: Sink, E: Sink>(
    out: &mut Outputs<K, E>,
    notes: &[u8],
    status: Status,
) -> Status
    requires unfinished { IsUnfinished status }
    requires seconds { AreSeconds notes.now }
    ensures { Ends (Only status []) out.old out.new result }
{
    match put_error(out, notes) {
        Ok(()) => status,
        Err(_) => Status::WriteFault,
    }
}

// Second lines of an answer with the status that is not finished, if no more is known.
fn not_finished(status: Status) -> &'static [u8]
    ensures { AreSeconds result.now }
{
    if let Status::Spent = status {
        b"  not finished: all nodes of the budget are spent\n  call again with a greater BUDGET, up to 1M\n"
    } else {
        b"  not finished: a number overflows 128 bits\n  write rates and costs with fewer digits, or tighter bounds\n"
    }
}

/// With which status the call ends after lines of a tree text were printed on standard output. If
/// they are those of a search that stopped, the second lines follow on standard error.
pub fn say_searched<K: Sink, E: Sink>(
    out: &mut Outputs<K, E>,
    printed: Result<(), PrintFault>,
    notes: &[u8],
    status: Status,
) -> Status
    requires printing { IsOneOf (Done ∷ Past ∷ Spent ∷ []) status }
    requires seconds { AreSeconds notes.now }
    ensures { (lines : List (List Token)) (old : OutputsState) → out.old.err ≡ old.err
        → old.out.faults ≤ out.old.out.faults → Prints lines old.out out.old.out printed
        → Ends (Tells (OneAnswer status lines)) old out.new result }
{
    match printed {
        Ok(()) => match status {
            Status::Past => say_unfinished(out, notes, Status::Past),
            Status::Spent => say_unfinished(out, notes, Status::Spent),
            other => other,
        },
        Err(fault) => match fault {
            PrintFault::WriteFault => Status::WriteFault,
            PrintFault::Memory => say_memory(out),
        },
    }
}

/// The same, if nothing more is known of why a search stopped.
pub fn say_printed<K: Sink, E: Sink>(
    out: &mut Outputs<K, E>,
    printed: Result<(), PrintFault>,
    status: Status,
) -> Status
    requires { IsOneOf (Done ∷ Past ∷ Spent ∷ []) status }
    ensures { (lines : List (List Token)) (old : OutputsState) → out.old.err ≡ old.err
        → old.out.faults ≤ out.old.out.faults → Prints lines old.out out.old.out printed
        → Ends (Tells (OneAnswer status lines)) old out.new result }
{
    say_searched(out, printed, not_finished(status), status)
}

/// Puts the line that says why there is no answer on standard error, and the second lines after it.
pub fn tell<K: Sink, E: Sink>(
    out: &mut Outputs<K, E>,
    first: &[u8],
    notes: &[u8],
    status: Status,
) -> Status
    requires refusal { IsRefusal status }
    requires seconds { AreSeconds notes.now }
    ensures { Ends (Only status first.now) out.old out.new result }
{
    match put_error(out, first) {
        Ok(()) => match put_error(out, notes) {
            Ok(()) => status,
            Err(_) => Status::WriteFault,
        },
        Err(_) => Status::WriteFault,
    }
}

/// Puts the line that says why there is no answer on standard error, without second lines.
pub fn tell_line<K: Sink, E: Sink>(out: &mut Outputs<K, E>, first: &[u8], status: Status) -> Status
    requires { IsRefusal status }
    ensures { Ends (Only status first.now) out.old out.new result }
{
    tell(out, first, &[], status)
}

/// Puts such a line of two texts, one after the other.
pub fn tell_of<K: Sink, E: Sink>(
    alloc: Global,
    out: &mut Outputs<K, E>,
    head: &str,
    tail: &str,
    status: Status,
) -> Status
    requires { IsRefusal status }
    ensures { Ends (OrMemory (Only status (line (head.now ++ tail.now)))) out.old out.new
        result }
{
    match line_of(alloc, head, tail) {
        Ok(bytes) => tell_line(out, &bytes, status),
        Err(_) => say_memory(out),
    }
}

/// The same with second lines after it.
pub fn tell_with<K: Sink, E: Sink>(
    alloc: Global,
    out: &mut Outputs<K, E>,
    words: (&str, &str),
    notes: &[u8],
    status: Status,
) -> Status
    requires refusal { IsRefusal status }
    requires seconds { AreSeconds notes.now }
    ensures { Ends
        (OrMemory (Only status (line (words.entry.0.now ++ words.entry.1.now))))
        out.old
        out.new result }
{
    match line_of(alloc, words.0, words.1) {
        Ok(bytes) => tell(out, &bytes, notes, status),
        Err(_) => say_memory(out),
    }
}

/// Puts such a line that was made, which has its line feed, and second lines after it. Puts the
/// line `memory` if there was no memory for it.
pub fn tell_made<K: Sink, E: Sink>(
    out: &mut Outputs<K, E>,
    first: Result<String, AllocError>,
    notes: &[u8],
    status: Status,
) -> Status
    requires refusal { IsRefusal status }
    requires seconds { AreSeconds notes.now }
    ensures { (told : List ℕ) → IfOk first (λ text. string_bytes text ≡ line told)
        → Ends (OrMemory (Only status (line told))) out.old out.new result }
{
    match first {
        Ok(text) => tell(out, text.as_bytes(), notes, status),
        Err(_) => say_memory(out),
    }
}
