//! The bytes of a file.
ghost use Rattle.std.specs.Prelude.{◌≡◌, ◌≤◌, ◌<◌, ◌^◌, IfOk, IfErr, OnOk, length, string_bytes};
ghost use Rattle.studio_words.specs.studio_rules.Reading.{AreHeld, LongFile};
ghost use Rattle.studio_words.specs.studio_rules.Ending.{Ends, Says};
ghost use Rattle.studio_words.specs.studio_rules.Keeps.{Keeps};

use crate::say::{say_memory, tell_with};
use std::alloc::Global;
use studio_words::{Status, read_fault, too_long};
use tree_text::{Outputs, ReadAllFault, Shelf, Sink, read_all};

/// The whole of the file, which may have so many bytes. If it can't be read, or has more, the text
/// that says so was put, and the status is that of the call.
pub fn bytes_of<F: Shelf, K: Sink, E: Sink>(
    alloc: Global,
    shelf: &mut F,
    out: &mut Outputs<K, E>,
    name: &str,
    limit: u64,
) -> Result<Vec<u8>, Status>
    requires { limit < 2 ^ 32 }
    ensures whole { IfOk result (λ bytes. AreHeld ((F.state shelf.old).held name.now) bytes.items) }
    ensures within { IfOk result (λ bytes. length bytes.items ≤ limit) }
    ensures silent { OnOk result (out.new ≡ out.old) }
    ensures keeps { Keeps (F.state shelf.old) (F.state shelf.new) }
    ensures told { IfErr result
        (Ends
        (Says (LongFile (F.state shelf.old).held name.now limit) (λ other. other ≡ name.now)
        (F.state shelf.old) (F.state shelf.new)) out.old out.new) }
{
    match read_all(alloc, shelf, name, limit) {
        Ok(bytes) => Ok(bytes),
        Err(ReadAllFault::ReadFault) => {
            let notes = read_fault(alloc, name);
            let words = ("read fault ", name);
            Err(tell_with(alloc, out, words, notes.bytes(), Status::ReadFault))
        }
        Err(ReadAllFault::TooLong) => {
            let notes = too_long(alloc, name, limit);
            let words = ("too long ", name);
            Err(tell_with(alloc, out, words, notes.bytes(), Status::TooLong))
        }
        Err(ReadAllFault::Memory) => Err(say_memory(out)),
    }
}
