//! A charge is exact, or names the first overflow; covers are exact.
//!
//! A charge is a bound of a node that lets a free unit owe its whole fixed cost or nothing. Its
//! definition, and the laws that make it a bound, are in `flow_rules`. [`charge_of`] gives the
//! charge for a [`Charge`]: multipliers, and covers. If a number on the way overflows, it returns
//! the place of the first, as a `PastSum`. [`Facts`] are what is known of sizes and uses, and they
//! may ask what follows if so much of a material is used, a [`Demand`]. A [`Cover`] is a set of
//! units of which each structure of the node has one: [`covers_node`] tests whether a set covers a
//! node, and [`is_cover`] whether it has the form of one. No call takes memory.
//!
//! [`is_free`] tests whether a unit is undecided. [`most_used`], [`makers_most`], [`rate_of`],
//! [`rounded_up`] and [`costs_of`] give numbers from which a charge is formed.
//!
//! Modules: `facts`, `cover`; `rows` and `paid` (sums over rows and covers); `asked` (the use that
//! is asked for); `useful` (how much of
//! a material can be used); `made` (how much of it can be made); `knees` (above which size an
//! output is worth nothing); `bending` (what the knees leave of what a unit owes); `unit` (the part
//! of a unit); `charge` (the whole sum); `tables` (multipliers by material); `products`.
#![tactic(auto)]

mod asked;
mod bending;
mod charge;
mod cover;
mod facts;
mod knees;
mod made;
mod paid;
mod products;
mod rows;
mod running;
mod tables;
mod unit;
mod useful;

pub use charge::{Charge, charge_of};
pub use cover::{covers_node, is_cover, is_free};
pub use facts::{Demand, Facts};
pub use flow_program::{
    CostOver, Frac, Mixed, NodeSets, bound_of, by_material, checked_product, cost_of, feasible,
    full_range, gcd, put_rates, refutes, sets_of, unit_numbers,
};
pub use knees::rounded_up;
pub use made::makers_most;
pub use structure_list::{
    Cover, Covers, Exclusion, Graph, Kind, MatSet, Material, Node, OpenFault, OperatingUnit,
    Problem, Site, Step, Steps, StructureList, Term, UnitSet, generate, maximal, print_token,
    read_token,
};
pub use unit::{Costs, costs_of};
pub use useful::{most_used, rate_of};
