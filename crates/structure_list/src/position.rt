//! How far the units are decided, one by one.
ghost use Rattle.std.specs.Prelude.{◌≡◌, ◌<◌, [], Some, IfSome, IfNone};
ghost use Rattle.pgraph.specs.number_sets.Sets.{has};
ghost use Rattle.pgraph.specs.pns_rules.Nodes.{free_makers};
ghost use Rattle.pgraph.specs.Tables.{shape};
ghost use Rattle.pgraph.specs.View.{node_of};
ghost use Rattle.structure_list.specs.Position.{IsPosition, IsTurn, IsSettled, IsGreatest};
ghost use Rattle.structure_list.specs.Position.{undone_count};

use crate::decided::Decided;
use crate::turn::Turn;
use pgraph::{Graph, MatSet, Node, UnitSet};

/// What is decided, the materials that are needed, and the material under decision. While the
/// makers of a material are decided, a unit that is taken in may need a lesser material, which then
/// has to wait.
#[derive(Clone, Copy, Debug, PartialEq, Eq)]
pub struct Position {
    pub decided: Decided,
    pub wanted: MatSet,
    pub at: Option<u32>,
}

impl Position {
    /// The position at which some units are left out and nothing else is decided.
    pub fn start(graph: &Graph, outside: UnitSet) -> Position
        ensures position { IsPosition (shape graph.now) result }
        ensures inside { result.decided.node.inside ≡ [] }
        ensures outside { result.decided.node.outside ≡ outside }
    {
        graph.is_proper();
        let none = UnitSet::empty();
        let decided = Decided {
            node: Node {
                inside: none,
                outside,
            },
            done: MatSet::empty(),
        };
        let wanted = graph.needed(none);
        let at = decided.first_needed(graph);
        Position {
            decided,
            wanted,
            at,
        }
    }

    /// The unit that is to be decided next: the greatest maker of the material under decision that
    /// is neither taken in nor left out. A material without such a maker is done, and the least
    /// needed one that is not done comes next. `None` exactly if no unit is left to be decided.
    pub fn turn(&self, graph: &Graph) -> Option<Turn>
        requires { IsPosition (shape graph.now) self.now }
        ensures turn { IfSome result (λ t. IsTurn (shape graph.now) t) }
        ensures node { IfSome result (λ t. t.position.decided.node ≡ self.now.decided.node) }
        ensures settled { IfNone result (IsSettled (shape graph.now) self.now.decided.node) }
    {
        graph.is_proper();
        let mut here = *self;
        'pass: loop {
            let Some(x) = here.at else {
                return None;
            };
            let free = here.decided.options(graph, x).1;
            if let Some(unit) = greatest(free) {
                return Some(Turn {
                    position: here,
                    unit,
                });
            }
            here = here.passing(graph, x);
        }
    }

    /// All makers of the material under decision are taken in or left out: the position at which it
    /// is done.
    fn passing(self, graph: &Graph, x: u32) -> Position
        requires position { IsPosition (shape graph.now) self }
        requires at { self.at ≡ Some x }
        requires none_free { free_makers (shape graph.now) (node_of self.decided.node) x ≡ [] }
        ensures position { IsPosition (shape graph.now) result }
        ensures node { result.decided.node ≡ self.decided.node }
        ensures fewer { undone_count (shape graph.now) result
            < undone_count (shape graph.now) self }
    {
        graph.is_proper();
        let Position {
            decided,
            wanted,
            ..
        } = self;
        let done = decided.done.with(x);
        let due = wanted.minus(done);
        due.rises();
        Position {
            decided: Decided {
                node: decided.node,
                done,
            },
            wanted,
            at: due.least(),
        }
    }
}

/// The greatest unit of the set.
fn greatest(set: UnitSet) -> Option<u32>
    ensures some { IfSome result (IsGreatest (has set)) }
    ensures none { IfNone result (set ≡ []) }
{
    set.rises();
    let bits = set.bits();
    if bits == 0 {
        None
    } else {
        Some(127 - bits.leading_zeros())
    }
}
