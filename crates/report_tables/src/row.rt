//! A row of cells.
ghost use Rattle.std.specs.Prelude.{◌≡◌, ◌++◌, ◌∷◌, [], IfOk, OnOk, OnErr, map, string_bytes};
ghost use Rattle.report_amounts.specs.report_rules.Aligned.{cell_at};

use crate::cells::push_words;
use std::alloc::{AllocError, Global};
use std::marker::Model;

/// The cells of a row, from the left.
#[derive(Drop)]
pub struct Row {
    cells: Vec<String>,
}

impl Model for Row {
    ghost use Rattle.std.specs.Prelude.{ℕ, List, map, string_bytes};

    ghost Value = { List (List ℕ) };

    ghost view = { λ r. map string_bytes r.cells.items };
}

impl Row {
    /// A row without cells.
    pub fn new(alloc: Global) -> Row
        ensures { result ≡ [] }
    {
        Row {
            cells: Vec::new(alloc),
        }
    }

    /// A row with a cell for each of the words.
    pub fn of_words(alloc: Global, words: &[&str]) -> Result<Row, AllocError>
        ensures { IfOk result (λ row. row ≡ map (λ word. word.now) words.now) }
    {
        let mut row = Row::new(alloc);
        'words: for word in words {
            push_words(alloc, &mut row, word)?;
        }
        Ok(row)
    }

    /// Appends a cell. After `Err`, which only says that there was no memory, the row is as before.
    pub fn push(&mut self, cell: String) -> Result<(), AllocError>
        ensures appended { OnOk result (self.new ≡ self.old ++ string_bytes cell ∷ []) }
        ensures same { OnErr result (self.new ≡ self.old) }
    {
        self.cells.push(cell)?;
        Ok(())
    }

    /// The cell in column k, or an empty one if there is none.
    pub fn cell(&self, k: usize) -> &str
        ensures { result.now ≡ cell_at k self.now }
    {
        match self.cells.get(k) {
            Some(cell) => cell.as_str(),
            None => "",
        }
    }
}
