//! Why a text stands for no problem.
use text_lines::{TextKind, fault};

/// The first fault of a text, or out of memory.
pub type TextFault = fault::TextFault<TextKind>;
