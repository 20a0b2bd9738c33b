//! The search of a whole problem.
ghost use Rattle.std.specs.Prelude.{◌≡◌, ◌≤◌};
ghost use Rattle.tree_text.specs.pns_rules.Shape.{shape_of};
ghost use Rattle.tree_text.specs.pgraph.Tables.{shape};
ghost use Rattle.tree_text.specs.tree_rules.Accepted.{first_node};
ghost use Rattle.headed_search.specs.abb_search.Found.{IsFound};

use headed_search::{Effort, Found, Graph, Node, Problem, Site, UnitSet, Watch, search_watched};
use std::alloc::Global;

/// Searches all structures of the problem.
pub fn search_all<W: Watch>(
    alloc: Global,
    problem: &Problem,
    graph: &Graph,
    effort: Effort<W>,
) -> Found
    requires graph { shape graph.now ≡ shape_of problem.now }
    requires some { 1 ≤ effort.budget }
    requires few { effort.budget ≤ 1000000 }
    ensures { IsFound problem.now first_node effort.budget result }
{
    let start = Node {
        inside: UnitSet::empty(),
        outside: UnitSet::empty(),
    };
    search_watched(alloc, &Site::of(problem, graph), start, effort, None)
}
