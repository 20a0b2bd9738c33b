//! Columns of a tableau.
ghost use Rattle.std.specs.Prelude.{◌≡◌};

use std::marker::Model;
use tree_rules::Column;

/// Columns of a tableau in some order.
#[derive(Drop)]
pub struct Columns {
    columns: Vec<Column>,
}

impl Model for Columns {
    ghost use Rattle.std.specs.Prelude.{List};
    ghost use Rattle.tree_rules.specs.flow_rules.declared.place.Column.{Column};

    ghost Value = { List Column };

    ghost view = { λ c. c.columns.items };
}

impl Columns {
    /// The list of these columns.
    pub fn from_vec(columns: Vec<Column>) -> Columns
        ensures { result ≡ columns.items }
    {
        Columns { columns }
    }

    /// The columns in order.
    pub fn columns(&self) -> &[Column]
        ensures { result.now ≡ self.now }
    {
        &self.columns
    }

    /// The columns, given back.
    pub fn into_vec(self) -> Vec<Column>
        ensures { result.items ≡ self }
    {
        self.columns
    }
}
