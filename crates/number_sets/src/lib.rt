//! Sets of numbers, as tests and as rising lists.
//!
//! A definition uses a set as a test `ℕ → Bool`; a contract uses it as the rising list of its
//! numbers. `has xs` is the test of a list, and `listed n t` the list of a test.
//!
//! `specs/Sets` has both forms with their operations. `specs/Options` has the sets between a base
//! and the base with free numbers, in numeric order. The lemmas in `proofs/` are for other crates.
#![tactic(auto)]
