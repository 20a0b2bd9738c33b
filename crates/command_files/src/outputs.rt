//! Bytes that are put on one of the two outputs.
ghost use Rattle.std.specs.Prelude.{◌≡◌, ◌≤◌, OnOk, OnErr};
ghost use Rattle.std.specs.Io.KnownBytes.{Appends};
ghost use Rattle.pns_text.specs.text_rules.Outside.{HasRisen, AppendsFront};

use tree_text::{Failed, Outputs, Sink};

/// Puts a piece of an answer on standard output.
pub fn put_answer<K: Sink, E: Sink>(out: &mut Outputs<K, E>, bytes: &[u8]) -> Result<(), Failed>
    ensures ok { OnOk result (Appends out.old.out.written out.new.out.written bytes.now) }
    ensures err { OnErr result (AppendsFront out.old.out.written out.new.out.written bytes.now) }
    ensures cause { OnErr result (HasRisen out.old.out.faults out.new.out.faults) }
    ensures later { out.old.out.faults ≤ out.new.out.faults }
    ensures quiet { out.new.err ≡ out.old.err }
{
    out.out.put(bytes)
}

/// Puts a line on standard error.
pub fn put_error<K: Sink, E: Sink>(out: &mut Outputs<K, E>, bytes: &[u8]) -> Result<(), Failed>
    ensures ok { OnOk result (Appends out.old.err.written out.new.err.written bytes.now) }
    ensures err { OnErr result (AppendsFront out.old.err.written out.new.err.written bytes.now) }
    ensures cause { OnErr result (HasRisen out.old.err.faults out.new.err.faults) }
    ensures later { out.old.err.faults ≤ out.new.err.faults }
    ensures quiet { out.new.out ≡ out.old.out }
{
    out.err.put(bytes)
}
