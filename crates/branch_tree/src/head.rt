//! Heads of trees.
ghost use Rattle.std.specs.Prelude.{◌≡◌};
ghost use Rattle.branch_tree.specs.HeadView.{lines_of};

use crate::line::HeadLine;
use std::marker::Model;

/// The lines at the head of a branch tree, in order. Contracts see them as the lines of the rules.
#[derive(Drop)]
pub struct Head {
    lines: Vec<HeadLine>,
}

impl Model for Head {
    ghost use Rattle.std.specs.Prelude.{List};
    ghost use Rattle.tree_rules.specs.Head as rules;
    ghost use Rattle.branch_tree.specs.HeadView.{lines_of};

    ghost Value = { List rules.HeadLine };

    ghost view = { λ h. lines_of h.lines.items };
}

impl Head {
    /// The list of these lines.
    pub fn from_vec(lines: Vec<HeadLine>) -> Head
        ensures { result ≡ lines_of lines.items }
    {
        Head { lines }
    }

    /// The lines in order.
    pub fn lines(&self) -> &[HeadLine]
        ensures { lines_of result.now ≡ self.now }
    {
        &self.lines
    }
}
