//! The two outputs of a call.
ghost use Rattle.std.specs.Prelude.{◌≡◌};

use crate::Sink;
use std::marker::Model;

/// The outputs of a call: an answer is put on `out`, and the reason why there is none on `err`.
#[derive(Drop)]
pub struct Outputs<K: Sink, E: Sink> {
    pub out: K,
    pub err: E,
}

impl<K: Sink, E: Sink> Model for Outputs<K, E> {
    ghost use Rattle.text_rules.specs.State.{OutputsState};

    ghost Value = { OutputsState };

    ghost view = { λ s. record { out = K.state s.out; err = E.state s.err } };
}

impl<K: Sink, E: Sink> Outputs<K, E> {
    /// The two sinks.
    pub fn new(out: K, err: E) -> Outputs<K, E>
        ensures { result ≡ record { out = K.state out; err = E.state err } }
    {
        Outputs { out, err }
    }
}
