//! The law of edit scripts, over their definitions alone: the printed text of a script reads as its
//! edits, at lines 2, 3 and so on.
//!
//! `specs/ScriptLaws` states it. It is the contract of a function that does nothing: a call gives
//! the law to the caller's proof.
ghost use Rattle.edit_laws.specs.ScriptLaws.{PrintedScriptsRead};

/// The printed text of a script without a fault of form reads as its edits at lines 2, 3 and so on.
pub fn printed_scripts_read()
    ensures { PrintedScriptsRead }
{}
