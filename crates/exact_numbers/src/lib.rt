//! Rows of whole numbers, fractions and mixed numbers: exact in 128 bits, or a number overflows.
//!
//! The range is symmetric: a number is in range if its absolute value is at most 2^127 - 1. So
//! `i128::MIN` is never made, and each call that takes numbers needs them in range.
//!
//! [`combine`] is the step of an elimination: it combines a row with a pivot row. If a number on
//! the way is out of range, it gives the first such number, a [`PastEntry`], and leaves the row as
//! it was.
//!
//! A [`Frac`] is a fraction of two numbers of at most 127 bits in lowest terms, with a denominator
//! above 0. So each number has one `Frac`: `==` and `Hash` compare numerator and denominator, and
//! `<` compares the numbers that they stand for. Comparison refuses nothing, whatever the size of
//! the cross products. Sum and product answer [`Past`] exactly if a number that they form is out of
//! range; `specs/Sum` and `specs/Product` state these numbers.
//!
//! A [`Mixed`] is a whole number and a fraction below 1, with an exact order. A cost that is huge
//! in its unit and has a long denominator does not fit 128 bits as one fraction. Its whole part and
//! the rest stay short, and no product of two mixed numbers is formed to compare them. Contracts
//! see a `Mixed` as the fraction `numerator` over `denominator` of `specs/Number`, which have no
//! range. When `of_sum` gives nothing has no clause.
//!
//! Only the text of a `Frac` takes memory.
//!
//! Modules:
//!
//! - `checked`: products, sums and differences that are `None` exactly if they leave the range.
//! - `divisors`: the greatest common divisor of two numbers, two numbers divided by it, and a row
//!   divided by that of its entries.
//! - `combination`: a row combined with a pivot row.
//! - `fraction`: `Frac`, its sum, product and order.
//! - `text`: its text, as `5/6` or `-2`.
//! - `cost`: `CostOver`, a cost over a number of its own.
//! - `euclid`: the comparison of two fractions by Euclid's steps, also for those that are not a
//!   `Frac`.
//! - `number`: `Mixed`, and how it is made.
//! - `order`: the order of mixed numbers.
//! - `multiples`: a multiple of a fraction below 1.
#![tactic(auto)]

mod checked;
mod combination;
mod cost;
mod divisors;
mod euclid;
mod fraction;
mod multiples;
mod number;
mod order;
mod text;

pub use checked::{checked_difference, checked_product, checked_sum};
pub use combination::{PastEntry, combine};
pub use cost::CostOver;
pub use divisors::{gcd, lowest_terms, primitive};
pub use euclid::compare_fractions;
pub use fraction::{Frac, Past};
pub use integer_laws::Which;
pub use number::Mixed;
