//! Lines handed to the sink one by one.
ghost use Rattle.std.specs.Prelude.{◌≡◌, ◌≤◌, ◌∷◌, [], List, OnOk, string_bytes};
ghost use Rattle.tree_text_rules.specs.text_rules.Canonical.{joined};
ghost use Rattle.tree_text_rules.specs.Line.{Token};
ghost use Rattle.tree_text.specs.Prints.{Prints};

use crate::fault::PrintFault;
use pns_io::Sink;
use std::alloc::AllocError;

/// Hands over the line that was made, with its line feed. A line that could not be made is a fault
/// of memory.
pub fn put_line<K: Sink>(
    out: &mut K,
    line: &mut String,
    made: Result<(), AllocError>,
) -> Result<(), PrintFault>
    ensures prints { (tokens : List Token) → OnOk made (string_bytes line.old ≡ joined 32 tokens)
        → Prints (tokens ∷ []) (K.state out.old) (K.state out.new) result }
    ensures later { (K.state out.old).faults ≤ (K.state out.new).faults }
{
    let Ok(()) = made else {
        return Err(PrintFault::Memory);
    };
    let Ok(()) = line.push('\n') else {
        return Err(PrintFault::Memory);
    };
    match out.put(line.as_bytes()) {
        Ok(()) => Ok(()),
        Err(_) => Err(PrintFault::WriteFault),
    }
}
