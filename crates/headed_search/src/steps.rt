//! Steps that follow from units that are left out.
use tree_parts::{Graph, Node, Step, UnitSet};

/// A step that leaves out more units, if there is one: those that use a material that no unit
/// makes, or those that lead to no product.
pub(crate) fn next_step(graph: &Graph, node: &Node) -> Option<Step> {
    graph.is_proper();
    let left = UnitSet::below(graph.unit_count()).minus(node.outside);
    for material in 0..graph.material_count() {
        if !graph.raws().has(material)
            && graph.producers(material).meet(left).is_empty()
            && !graph.consumers(material).meet(left).is_empty()
        {
            return Some(Step::Starve(material));
        }
    }
    let loose = left.minus(graph.reaching(left));
    if loose.is_empty() {
        None
    } else {
        Some(Step::Loose(loose))
    }
}
