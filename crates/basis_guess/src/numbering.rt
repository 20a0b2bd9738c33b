//! Some of the units, or of the materials, numbered as unknowns.
use std::alloc::{AllocError, Global};

#[derive(Drop)]
pub(crate) struct Numbering {
    places: Vec<Option<usize>>,
    items: Vec<usize>,
}

impl Numbering {
    pub(crate) fn open(alloc: Global, most: usize) -> Result<Numbering, AllocError> {
        let places = vec![in alloc; None; most]?;
        let items = Vec::with_capacity(alloc, most)?;
        Ok(Numbering { places, items })
    }

    pub(crate) fn clear(&mut self) {
        self.items.clear();
        for place in self.places.iter_mut() {
            *place = None;
        }
    }

    /// Numbers the next item.
    pub(crate) fn add(&mut self, item: usize) -> bool {
        let next = self.items.len();
        match self.places.get_mut(item) {
            Some(place) => {
                *place = Some(next);
                self.items.push(item).is_ok()
            }
            None => false,
        }
    }

    pub(crate) fn count(&self) -> usize {
        self.items.len()
    }

    /// The place of an item, if it has one.
    pub(crate) fn place(&self, item: usize) -> Option<usize> {
        match self.places.get(item) {
            Some(place) => *place,
            None => None,
        }
    }

    /// The items by their places.
    pub(crate) fn items(&self) -> &[usize] {
        &self.items
    }

    pub(crate) fn item(&self, place: usize) -> Option<usize> {
        match self.items.get(place) {
            Some(item) => Some(*item),
            None => None,
        }
    }
}
