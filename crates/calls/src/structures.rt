//! The steps at a node.

use neutral_extension::{Extended, Graph, Node, extend};
use std::alloc::Global;
use std::io;
use tree_parts::is_sound;

/// The steps at a node, and the node to which they lead.
pub fn extension(
    rt: &(impl Print + Alloc<A = Global>),
    graph: &Graph,
    start: &Node,
) -> io::Result<()> {
    if !is_sound(graph, *start) {
        return println!(rt; "no sound node");
    }
    let Extended { node, steps, end } = extend(rt.alloc(), graph, *start)?;
    println!(rt; "steps: {steps:?}, {end:?} at {node:?}")
}
