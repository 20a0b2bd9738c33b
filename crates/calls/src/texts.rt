//! The head of a node, read alone from the text of a tree.

use pns_text::Problem;
use std::alloc::Global;
use std::io;
use tree_parts::{Cut, read_head};

const NODE: &[u8] = b"node U1 U2
starve E
loose U5
sole P U3
open
";

/// The option and the steps of a node, and the place at which they end.
pub fn head(rt: &(impl Print + Alloc<A = Global>), problem: &Problem) -> io::Result<()> {
    match read_head(rt.alloc(), problem, NODE, Cut { at: 0, line: 1 }) {
        Ok((option, steps, behind)) => {
            let Cut { at, line } = behind;
            println!(rt; "head: {option:?}, {steps:?}, then line {line} from {at}")
        }
        Err(_) => println!(rt; "no head"),
    }
}
