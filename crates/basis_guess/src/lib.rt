//! Unproved proposals for a node: a basis with its sizes and multipliers, and a charge with covers.
//!
//! Each proposal is safe, and each call ends; nothing else is promised. Exact code judges every
//! answer: `charges` those for a charge, `scaled_flows` or the bounds and sums of `flow_program`
//! the others. So no result depends on a proposal. A [`Guess`], a [`ShortSizes`] and a [`Solver`]
//! take no memory once they are opened.
//!
//! A [`Guess`] is made by the dual simplex method with two-sided ranges, over rows of 61-bit
//! numbers that are rounded when they grow. [`Numbers`] has a problem in scaled numbers, made once:
//! rates, sizes, balances and costs over divisors. The tableau is kept from node to node. Its
//! variables are sizes and balances. Every end is finite, so each basis is dual feasible once each
//! variable outside it is at the end that its reduced cost needs. So the basis of the last node is
//! a start for the next one.
//!
//! A least basis has sizes with long numbers. [`Guess::look_inside`] looks for one whose rows keep
//! a little off the ends of their ranges, and [`ShortSizes`] rounds its sizes: flows in short
//! numbers that cost a little more than the least.
//!
//! A [`Solver`] solves a basis in whole scaled numbers: its sizes are over one denominator, and its
//! multipliers over one scale. Each material whose balance is at an end gives an equation in the
//! basic sizes. Each basic unit gives one in the multipliers of these materials. Both systems are
//! square. They are eliminated in whole numbers, an equation with the fewest unknowns first, so
//! that chains are peeled off and only recycles cost more. If a number leaves 128 bits, or the
//! basis is none, the solver gives up.
//!
//! A [`ChargeGuess`] finds multipliers and covers for a charge by the dual simplex method with
//! two-sided ranges, in floating point, over a linear program: sizes of units, and for each free
//! unit that owes a fixed cost whether it is built beyond the share of its capacity that it uses.
//! Sets of units of which each structure has one become rows as soon as they are broken, and so do
//! limits on what can be used of a material. The units of a cheap network are guessed too, by
//! slopes that follow the sizes and by exchanges.
//!
//! Modules of the guess of a basis: `numbers` (what a problem and a node need), `ranges` (the ends,
//! shortened), `rounding` (wide products and what is kept of them), `line` (the numbers of a row),
//! `row` and `cost_row`, `choice` (which variable leaves the basis and which enters it), `guess`
//! (the tableau), `short_sizes` (sizes that are rounded).
//!
//! Modules of its solution: `equation` (one equation in whole numbers), `system` (a square system
//! and its elimination), `numbering` (the unknowns' places), `fractions` (values over one
//! denominator), `solver` (the two systems of a basis).
//!
//! Modules of a charge: `tableau` (rows, columns and turns), `program` (the program of a node),
//! `breach` (sets that are broken), `knees` (what can be used of a material), `propose` (whole
//! numbers for a proposal), `cheap` (a cheap network), `ready` (how large a unit is and how much is
//! used of a material at most).
#![tactic(auto)]

mod breach;
mod cheap;
mod choice;
mod cost_row;
mod equation;
mod fractions;
mod guess;
mod knees;
mod line;
mod numbering;
mod numbers;
mod program;
mod propose;
mod ranges;
mod ready;
mod rounding;
mod row;
mod short_sizes;
mod solver;
mod system;
mod tableau;

pub use charges::{Charge, Facts, Steps, charge_of, covers_node, is_cover};
pub use guess::{Column, Guess, Outcome};
pub use numbers::{Ends, Numbers, Rate, Standing};
pub use propose::{ChargeGuess, Proposal};
pub use ranges::Variable;
pub use ready::{Bound, Range, Ready, Use, User};
pub use short_sizes::ShortSizes;
pub use solver::Solver;
