//! Whole numbers: what is in range, what is in lowest terms, and laws about them.
//!
//! There is no code here, and each law is stated once, for the proofs of the crates above.
//!
//! In `specs/`, `Range` has the numbers that the arithmetic keeps. `Lowest` and `Reduced` have two
//! numbers, and a row, in lowest terms. `Combined` has a row combined with another, or the first
//! number on the way that is out of range. `Fraction` has a fraction as text, and `Total` the sum
//! of a function over a list, and over the numbers below a given one.
//!
//! In `proofs/`, `Ring` has identities of polynomials, by `omega (arith, ring_z)` or by reflection.
//! `Order` has products, signs and cancellation, and `Boxes` a linear function between the ends of
//! a range. `Totals` and `IndexTotals` have sums, and `Duality` the sums of a linear program and of
//! its dual. `Coprime` and `LowestTerms` have Euclid's lemma, and that a fraction has one form in
//! lowest terms.
#![tactic(auto)]

mod which;

pub use which::Which;
