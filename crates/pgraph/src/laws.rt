//! The laws of steps, ends and children, for a graph. Each function does nothing; a call gives the
//! law to a proof.
ghost use Rattle.pgraph.specs.Tables.{shape};
ghost use Rattle.pgraph.specs.Laws.{StepsKeepFamilies, ClashesAreEmpty, DeadAreEmpty};
ghost use Rattle.pgraph.specs.Laws.{ChildrenCover, ChildrenAreApart};

use crate::graph::Graph;

/// A step that is possible at a node keeps its family, even `rival`.
pub fn steps_keep_families(graph: &Graph)
    ensures { StepsKeepFamilies (shape graph.now) }
{
    graph.is_proper();
    flow_rules::steps_keep_families();
}

/// A node that clashes at an exclusion has an empty family. So has a node with a dead material.
pub fn ends_are_empty(graph: &Graph)
    ensures clash { ClashesAreEmpty (shape graph.now) }
    ensures dead { DeadAreEmpty (shape graph.now) }
{
    graph.is_proper();
    flow_rules::ends_are_empty();
}

/// The families of the children of a needed material cover the family of the node, and no structure
/// is in two.
pub fn children_split_families(graph: &Graph)
    ensures cover { ChildrenCover (shape graph.now) }
    ensures apart { ChildrenAreApart (shape graph.now) }
{
    graph.is_proper();
    flow_rules::children_split_families();
}
