//! The positions that are still to be searched.
ghost use Rattle.std.specs.Prelude.{◌≡◌, ◌<◌, ◌++◌, ◌∷◌, [], length, IfSome, IfNone};

use crate::Position;
use std::marker::Model;

/// A stack of positions that takes no memory of its own. Contracts see it as the list of its
/// positions, the one on top last.
#[derive(Drop)]
pub(crate) struct Stack {
    cells: [Position; 128],
    depth: usize,
}

impl Model for Stack {
    ghost use Rattle.std.specs.Prelude.{List, ◌≤◌, take};
    ghost use Rattle.structure_list.specs.declared.position.Position.{Position};

    ghost Value = { List Position };

    ghost view = { λ s. take s.depth s.cells };

    ghost invariant = { λ s. s.depth ≤ 128 };
}

impl Stack {
    /// No positions. The blank fills the room.
    pub(crate) fn new(blank: Position) -> Stack
        ensures { result ≡ [] }
    {
        Stack {
            cells: [blank; 128],
            depth: 0,
        }
    }

    pub(crate) fn push(&mut self, position: &Position)
        requires { length self.old < 128 }
        ensures { self.new ≡ self.old ++ position.now ∷ [] }
    {
        self.cells[self.depth] = *position;
        self.depth += 1;
    }

    /// Takes the position on top off; `None` exactly if there is none.
    pub(crate) fn pop(&mut self) -> Option<Position>
        ensures top { IfSome result (λ p. self.old ≡ self.new ++ p ∷ []) }
        ensures none { IfNone result ((self.old ≡ []) × (self.new ≡ [])) }
    {
        if self.depth == 0 {
            return None;
        }
        self.depth -= 1;
        Some(self.cells[self.depth])
    }
}
