//! A sink takes bytes, one piece after another.
ghost use Rattle.std.specs.Prelude.{◌≤◌, OnOk, OnErr};
ghost use Rattle.std.specs.Io.KnownBytes.{Appends};
ghost use Rattle.text_rules.specs.Outside.{HasRisen, AppendsFront, last_count};
ghost use Rattle.text_rules.specs.State.{SinkState};

use crate::Failed;

/// Takes bytes, one piece after another.
pub trait Sink {
    /// The bytes so far, if the sink shows them, and the count of faults. It never falls, and a put
    /// leaves it at 2^64 - 1 at most.
    ghost state: { Self → SinkState };

    /// Takes the whole piece. `Failed` is the answer only if the count of faults rose, and then a
    /// front of the piece was taken.
    fn put(&mut self, bytes: &[u8]) -> Result<(), Failed>
        ensures ok { OnOk result
            (Appends (state self.old).written (state self.new).written bytes.now) }
        ensures err { OnErr result
            (AppendsFront (state self.old).written (state self.new).written bytes.now) }
        ensures cause { OnErr result (HasRisen (state self.old).faults (state self.new).faults) }
        ensures later { (state self.old).faults ≤ (state self.new).faults }
        ensures few { (state self.new).faults ≤ last_count };
}
