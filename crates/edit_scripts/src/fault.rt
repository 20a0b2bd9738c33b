//! Why a script is not read or not applied.
use text_lines::{EditKind, fault};

/// The first fault of a script, or out of memory.
pub type EditFault = fault::TextFault<EditKind>;

/// The fault of a line, or out of memory.
pub type LineFault = fault::LineFault<EditKind>;
