//! What is wrong with a line.
use text_lines::fault;
use tree_text_rules::TreeKind;

/// The fault of a line, or out of memory.
pub type LineFault = fault::LineFault<TreeKind>;
