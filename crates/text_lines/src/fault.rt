//! Why a text or a line of it stands for nothing, for texts of any grammar: `K` is the kind of
//! fault in the grammar.
ghost use Rattle.std.specs.Prelude.{◌≡◌};
ghost use Rattle.text_lines.specs.Tells.{fault_at};
ghost use Rattle.text_lines.specs.declared.fault.TextFault.TheVariants as text;
ghost use Rattle.text_lines.specs.declared.fault.LineFault.TheVariants as line;

use std::alloc::{AllocError, AllocFailed};

/// The first fault of a text, or out of memory.
#[derive(Clone, Copy)]
pub enum TextFault<K> {
    /// Out of memory, at any moment.
    Memory,
    /// The kind of fault, and the line that has it, counted from 1.
    At { line: u32, kind: K },
}

/// The fault of a line, or out of memory.
#[derive(Clone, Copy)]
pub enum LineFault<K> {
    Memory,
    Kind(K),
}

impl<K: Drop> LineFault<K> {
    /// The fault of a text whose line of this number has it.
    pub fn at(self, line: u32) -> TextFault<K>
        ensures { result ≡ fault_at line self }
    {
        match self {
            LineFault::Memory => TextFault::Memory,
            LineFault::Kind(kind) => TextFault::At { line, kind },
        }
    }
}

impl<K: Drop> From<AllocError> for TextFault<K> {
    ghost from_gives = { λ _ e. e ≡ text.Memory };

    fn from(_e: AllocError) -> TextFault<K> {
        TextFault::Memory
    }
}

impl<K: Drop, T: Drop> From<AllocFailed<T>> for TextFault<K> {
    ghost from_gives = { λ _ e. e ≡ text.Memory };

    fn from(_e: AllocFailed<T>) -> TextFault<K> {
        TextFault::Memory
    }
}

impl<K: Drop> From<AllocError> for LineFault<K> {
    ghost from_gives = { λ _ e. e ≡ line.Memory };

    fn from(_e: AllocError) -> LineFault<K> {
        LineFault::Memory
    }
}

impl<K: Drop, T: Drop> From<AllocFailed<T>> for LineFault<K> {
    ghost from_gives = { λ _ e. e ≡ line.Memory };

    fn from(_e: AllocFailed<T>) -> LineFault<K> {
        LineFault::Memory
    }
}
