//! Bounds, refutations, costs and feasibility of flows, exactly.
//!
//! The definitions, and the laws that make a bound a bound, are in `flow_rules`. [`bound_of`],
//! [`refutes`], [`cost_of`] and [`feasible`] take a problem and its graph, and no memory. Each
//! gives the value of its definition exactly if every number that is formed on the way is in range.
//! Else it gives, as [`PastSum`], the place of the first that is not. The numbers that a sum starts
//! from, such as costs and ranges, cannot leave the range. [`Program::of`] gives the numbers of a
//! node's program as lists, from which a simplex method starts. [`sets_of`], [`unit_numbers`],
//! [`row_range`], [`full_range`] and [`put_rates`] give the same numbers one unit or row at a time,
//! without memory.
//!
//! Modules: `costs`, `ranges` and `rates` read a problem; `node_sets` and `node_numbers` say what
//! it is at a node; `tables` finds a value by the number of a material or unit; `products`
//! multiplies; `bound`, `cost`, `feasibility` and `program` are the calls.
#![tactic(auto)]

mod bound;
mod cost;
mod costs;
mod feasibility;
mod node_numbers;
mod node_sets;
mod past_sum;
mod products;
mod program;
mod ranges;
mod rates;
mod tables;

pub use bound::{bound_of, refutes};
pub use cost::cost_of;
pub use costs::fixed_costs;
pub use exact_numbers::{
    CostOver, Frac, Mixed, PastEntry, Which, checked_difference, checked_product, checked_sum,
    combine, gcd, lowest_terms, primitive,
};
pub use feasibility::{feasible, is_within, rate_at, units_with};
pub use node_numbers::{UnitNumbers, full_range, row_range, unit_numbers};
pub use node_sets::{NodeSets, sets_of};
pub use past_sum::PastSum;
pub use pgraph::{
    Column, Cover, Covers, FlowStep, Graph, Kind, MatSet, Material, Node, OperatingUnit, Place,
    Problem, Site, Step, Term, UnitSet, Verdict, amount_text, refutation, relaxed_duality,
    sums_are_last, valid_is_proper, weak_duality,
};
pub use program::Program;
pub use ranges::Range;
pub use rates::put_rates;
pub use tables::{by_material, by_unit};
