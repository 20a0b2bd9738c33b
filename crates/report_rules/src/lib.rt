//! What is written of plants and networks: tables, reports, graphs, warnings, JSON and ranges.
//!
//! The definitions are in `specs/`. People see a network in tables, in a report and in a graph.
//! `Table` has it as two tables of comma-separated fields, and `Decimal` has decimal numbers.
//! `Drawn` and `Graph` have the P-graph as text for Graphviz. `Number` and `Amounts` have the
//! numbers of a report, and those of a network for one year with their sums. `Marginal` has what
//! one more of a material costs and of a size saves, and `Measures` the units of measure of
//! headings. `Aligned` has rows of cells in columns, and `Report` the three tables of a report.
//! `Clash` has the bounds that clash if no network meets them.
//!
//! `Verdict` has what a tree proves of its claim, `HeadedVerdict` what one with a head proves, and
//! `Lower` the lower bound of one that is not finished, and the gap. `Ranked` has the table of a
//! ranking, `RankVerdict` what the tree of a ranking proves, and `RankLow` the lower bound of a
//! ranking that is not finished.
//!
//! For programs the facts of the network of a claim are one JSON object. `Json` has JSON text and
//! its pieces, `Value` a number, rounded in decimal and exactly, and `Facts` the lines of the
//! object. `JsonLower` has the lower bound and the gap of a tree that is not finished, and
//! `JsonRanked` the networks of a ranking.
//!
//! Warnings say what is odd about a plant that has no fault. `Warned` says whether a kind of
//! warning is due at a material, a unit, its rates or an exclusion, kind by kind over the problem
//! and the units of its maximal structure. `Item` has which item a line of the text is of, and
//! which kinds are due at it. `Words` has the word and the sentence of each kind, and `Lint` all
//! lines, in the order of the text. `proofs/` lints small texts by computation.
//!
//! The sensitivity range of a price or cost has the values of that number, with all others
//! unchanged, at which a network stays optimal among the clash-free ones. [`Spot`] names the
//! number, [`SpotKind`] its kind, and [`Side`] the side of its present value on which another one
//! is. In `specs/`, `Spot` has the problem with another value in the spot. `Range` has the
//! network's cost there, when it is optimal, what a range is, and when one may be left open. `Rise`
//! has how little a cost can rise. The laws are in `stability_laws`.
//!
//! `stable FILE TREE` prints a table of ranges, and `json` prints it for programs. It has a row for
//! each price and cost of a network, with its range. [`Row`] is such a row, and [`End`] is an end
//! of its range. `RangeTable` has the grammar of the text, and its first fault, and `Object` the
//! lines of the JSON object. Nothing here says that a row is true.
//!
//! Modules, each with the types that code and definitions share: `amount`, `cost_part`, `column`
//! and `role` (numbers, columns and drawings), `verdict`, `headed_verdict`, `rank_verdict` and
//! `lower_bound` (what trees prove), `warning` and `item` (warnings), `spot`, `side`, `row` and
//! `end` (ranges).
#![tactic(auto)]

mod amount;
mod column;
mod cost_part;
mod end;
mod headed_verdict;
mod item;
mod lower_bound;
mod rank_verdict;
mod role;
mod row;
mod side;
mod spot;
mod verdict;
mod warning;

pub use amount::UnitAmount;
pub use column::{Measure, Sort};
pub use cost_part::CostPart;
pub use end::End;
pub use headed_verdict::HeadedVerdict;
pub use item::Item;
pub use lower_bound::LowerBound;
pub use rank_rules::{
    HeadRefusal, LineWhy, MergeFault, Place, RankWhy, Refusal, TreeKind, Why, sums_are_last,
    valid_is_proper,
};
pub use rank_verdict::RankVerdict;
pub use role::Role;
pub use row::Row;
pub use side::Side;
pub use spot::{Spot, SpotKind};
pub use verdict::Verdict;
pub use warning::Warning;
