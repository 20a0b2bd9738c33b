//! `Index`: a search tree of the open leaves, which leads to the place of a new one.
//!
//! Only speed depends on it: a caller that gets a leaf from it checks that the leaf is open, and on
//! which side of the place it is.
//!
//! It is a treap (Aragon and Seidel 1989). From left to right the leaves rise as in their list, and
//! on each path down their ranks fall. Ranks are the leaves' numbers, well mixed, so that a tree of
//! n leaves is some 2 log n deep. Searches end after 256 steps, far more than such trees are deep.
//! Of leaves of one value the one that was put last comes first; the numbers of puts differ up to
//! the 2^32nd.

use exact_numbers::Mixed;
use std::alloc::{AllocError, Global};
use std::cmp::Ordering;

const MOST_STEPS: u32 = 256;

/// The leaves just below a leaf: one before it in the order of leaves, one after it.
#[derive(Clone, Copy)]
struct Fork {
    before: Option<u32>,
    behind: Option<u32>,
    // The number of the put with which the leaf came.
    put: u32,
}

const NO_FORK: Fork = Fork {
    before: None,
    behind: None,
    put: 0,
};

/// A place for a leaf.
#[derive(Clone, Copy)]
enum Place {
    Root,
    Before(u32),
    Behind(u32),
}

/// The tree, with a fork for each node.
#[derive(Drop)]
pub struct Index {
    root: Option<u32>,
    forks: Vec<Fork>,
    puts: u32,
}

/// The rank of a leaf. No two leaves have the same.
fn rank(leaf: u32) -> u32 {
    let once = (leaf ^ (leaf >> 16)).wrapping_mul(0x85eb_ca6b);
    let twice = (once ^ (once >> 13)).wrapping_mul(0xc2b2_ae35);
    twice ^ (twice >> 16)
}

impl Index {
    /// No leaves, and memory for so many nodes.
    pub fn with_room(alloc: Global, room: u32) -> Result<Index, AllocError> {
        Ok(Index {
            root: None,
            forks: vec![in alloc; NO_FORK; room as usize]?,
            puts: 0,
        })
    }

    /// Makes memory for so many nodes in all.
    pub fn grow(&mut self, room: u32) -> Result<(), AllocError> {
        if self.forks.len() < room as usize {
            self.forks.resize(room as usize, NO_FORK)?;
        }
        Ok(())
    }

    /// The number of the put with which the leaf came.
    fn put_of(&self, leaf: u32) -> u32 {
        match self.forks.get(leaf as usize) {
            None => 0,
            Some(fork) => fork.put,
        }
    }

    /// Whether the leaf comes before the other: its value is less, or it is the same and the leaf
    /// was put later.
    fn comes_before(&self, values: &Vec<Mixed>, leaf: u32, other: u32) -> bool {
        let (Some(value), Some(than)) = (values.get(leaf as usize), values.get(other as usize))
        else {
            return false;
        };
        match value.cmp(than) {
            Ordering::Less => true,
            Ordering::Equal => self.put_of(leaf) > self.put_of(other),
            Ordering::Greater => false,
        }
    }

    /// The leaf at the place.
    fn at(&self, place: Place) -> Option<u32> {
        match place {
            Place::Root => self.root,
            Place::Before(leaf) => self.forks.get(leaf as usize)?.before,
            Place::Behind(leaf) => self.forks.get(leaf as usize)?.behind,
        }
    }

    /// Puts a leaf at the place, with what is below it, or leaves the place empty.
    fn hang(&mut self, place: Place, leaf: Option<u32>) {
        match place {
            Place::Root => self.root = leaf,
            Place::Before(at) => {
                if let Some(fork) = self.forks.get_mut(at as usize) {
                    fork.before = leaf;
                }
            }
            Place::Behind(at) => {
                if let Some(fork) = self.forks.get_mut(at as usize) {
                    fork.behind = leaf;
                }
            }
        }
    }

    /// The last leaf whose value is below this one.
    pub fn last_below(&self, values: &Vec<Mixed>, value: &Mixed) -> Option<u32> {
        let mut last = None;
        let mut next = self.root;
        for _ in 0..MOST_STEPS {
            let leaf = match next {
                None => return last,
                Some(leaf) => leaf,
            };
            let is_below = match values.get(leaf as usize) {
                None => false,
                Some(its) => its.cmp(value).is_lt(),
            };
            if is_below {
                last = Some(leaf);
                next = self.at(Place::Behind(leaf));
            } else {
                next = self.at(Place::Before(leaf));
            }
        }
        last
    }

    /// The place of a leaf below all leaves of higher rank.
    fn place_of(&self, values: &Vec<Mixed>, leaf: u32) -> Place {
        let mut place = Place::Root;
        for _ in 0..MOST_STEPS {
            match self.at(place) {
                Some(at) if rank(leaf) < rank(at) => {
                    place = if self.comes_before(values, leaf, at) {
                        Place::Before(at)
                    } else {
                        Place::Behind(at)
                    };
                }
                _ => return place,
            }
        }
        place
    }

    /// Splits what was at the leaf's place into the leaves before it and those after it, and puts
    /// both below it.
    fn part(&mut self, values: &Vec<Mixed>, leaf: u32, below: Option<u32>) {
        let mut before = Place::Before(leaf);
        let mut behind = Place::Behind(leaf);
        let mut rest = below;
        for _ in 0..MOST_STEPS {
            let at = match rest {
                None => break,
                Some(at) => at,
            };
            if self.comes_before(values, at, leaf) {
                self.hang(before, rest);
                before = Place::Behind(at);
                rest = self.at(before);
            } else {
                self.hang(behind, rest);
                behind = Place::Before(at);
                rest = self.at(behind);
            }
        }
        self.hang(before, None);
        self.hang(behind, None);
    }

    /// Adds a leaf.
    pub fn put(&mut self, values: &Vec<Mixed>, leaf: u32) {
        self.puts = self.puts.wrapping_add(1);
        if let Some(fork) = self.forks.get_mut(leaf as usize) {
            fork.put = self.puts;
        }
        let place = self.place_of(values, leaf);
        let below = self.at(place);
        self.hang(place, Some(leaf));
        self.part(values, leaf, below);
    }

    /// Joins what is below the leaf into one tree, and puts that at the leaf's place.
    fn join(&mut self, leaf: u32, place: Place) {
        let mut place = place;
        let mut before = self.at(Place::Before(leaf));
        let mut behind = self.at(Place::Behind(leaf));
        for _ in 0..MOST_STEPS {
            let (Some(left), Some(right)) = (before, behind) else {
                break;
            };
            if rank(right) < rank(left) {
                self.hang(place, before);
                place = Place::Behind(left);
                before = self.at(place);
            } else {
                self.hang(place, behind);
                place = Place::Before(right);
                behind = self.at(place);
            }
        }
        self.hang(place, before.or(behind));
    }

    /// Takes a leaf out.
    pub fn take(&mut self, values: &Vec<Mixed>, leaf: u32) {
        let mut place = Place::Root;
        for _ in 0..MOST_STEPS {
            match self.at(place) {
                None => return,
                Some(at) if at == leaf => {
                    self.join(leaf, place);
                    return;
                }
                Some(at) => {
                    place = if self.comes_before(values, leaf, at) {
                        Place::Before(at)
                    } else {
                        Place::Behind(at)
                    };
                }
            }
        }
    }
}
