//! The known word that is nearest to another one.

use std::alloc::{AllocError, Global};
use strsim::damerau_levenshtein;

/// The greatest distance of a word that is still near. Words that differ in small and capital
/// letters alone have it.
const MOST_STEPS: usize = 2;

// How many letters are put in, left out, changed or exchanged with the next one from one word to
// the other, if these are few.
fn steps_between(alloc: Global, first: &str, second: &str) -> Result<Option<usize>, AllocError> {
    if first.len().abs_diff(second.len()) > MOST_STEPS {
        return Ok(None);
    }
    let steps = damerau_levenshtein(alloc, first, second)?;
    if steps <= MOST_STEPS {
        Ok(Some(steps))
    } else if first.eq_ignore_ascii_case(second) {
        Ok(Some(MOST_STEPS))
    } else {
        Ok(None)
    }
}

/// A known word, and how far from the sought one it is.
#[derive(Clone, Copy)]
struct Near<'a> {
    word: &'a str,
    steps: usize,
}

/// The nearest word so far, of those that are offered one after the other.
#[derive(Drop)]
pub(crate) struct Nearest<'s, 'a> {
    sought: &'s str,
    near: Option<Near<'a>>,
}

impl<'s, 'a> Nearest<'s, 'a> {
    /// No word is offered yet.
    pub(crate) fn to(sought: &'s str) -> Self {
        Nearest { sought, near: None }
    }

    /// Offers a word. It is taken if it is near, and nearer than all before. If memory is refused,
    /// it is ignored.
    pub(crate) fn offer(&mut self, alloc: Global, word: &'a str) {
        let Ok(Some(steps)) = steps_between(alloc, self.sought, word) else {
            return;
        };
        let is_nearer = match self.near {
            Some(near) => steps < near.steps,
            None => true,
        };
        if is_nearer {
            self.near = Some(Near { word, steps });
        }
    }

    /// The nearest word, if one is near.
    pub(crate) fn word(&self) -> Option<&'a str> {
        match self.near {
            Some(near) => Some(near.word),
            None => None,
        }
    }
}
