//! Exactly valid parts make a problem, and its text is exact; a number makes a large problem.
//!
//! A synthesis problem is valid by its type. [`Problem::build`] judges parts, and names their first
//! fault with the item that has it. A problem that was built keeps its names by number and is read
//! by reference. It takes another price or yearly cost in place, gives its parts back as a copy,
//! and prints its one canonical text. Amounts are whole millionths of the file's unit. Contracts
//! see materials, units, exclusions, parts and problems as the records of `problem_rules`, and
//! names as lists of bytes.
//!
//! [`generate`] makes a problem from a number and a count of units, the same on each machine. Draws
//! of a linear congruence give prices, inputs, rates, costs and capacities; everything else is
//! regular. There are three raw materials R0, R1 and R2, then a chain of intermediates M0, M1 and
//! so on, one for each three units, and the product P, of which a network makes 10. The units take
//! the stages of the chain in turn. Contracts say which problem it is with `problem_rules`: `Draws`
//! (the states) and `Generated` (the problem).
//!
//! Modules: `material`, `term`, `unit` and `exclusion` (the items, each with its tests); `name` and
//! `name_table`; `parts`, `fault` and `judge` (the first fault); `problem`; `amount` and
//! `canonical` (its text); `draws`, `materials`, `units` and `generator_problem` (problems from a
//! number).
#![tactic(auto)]

mod amount;
mod canonical;
mod draws;
mod exclusion;
mod fault;
mod generator_problem;
mod judge;
mod material;
mod materials;
mod name;
mod name_table;
mod parts;
mod problem;
mod term;
mod unit;
mod units;

pub use amount::amount_text;
pub use exclusion::Exclusion;
pub use fault::BuildFault;
pub use generator_problem::{generate, generated_is_valid};
pub use material::{Kind, Material};
pub use name::is_name;
pub use parts::Parts;
pub use problem::Problem;
pub use term::Term;
pub use unit::OperatingUnit;
