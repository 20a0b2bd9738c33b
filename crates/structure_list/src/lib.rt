//! Each later clash-free structure comes once, in order; the maximal structure is exact.
//!
//! A listing may begin after any solution structure. A [`StructureList`] keeps the turns not yet
//! taken (`stack`): at each turn at which a unit was left out, the position that takes it in. The
//! next structure is the first one of the position on top (`search`). Each position is tight: what
//! is not left out makes all that it uses and all that is needed. So a unit is taken in without a
//! test, and one test finds what is kept without it (`turns`). Without exclusions no decision is
//! taken back on the way to a structure, which costs at most two tests for each unit of the maximal
//! structure. With exclusions a partial decision is given up as soon as two of its units exclude
//! each other.
//!
//! Decisions say which units make the needed materials, material by material and unit by unit. A
//! [`Decided`] takes the materials in the order of a trace: the least needed one that is not done
//! comes first. A [`Position`] goes on unit by unit: within a material the greatest number comes
//! first. Of two structures that agree up to a [`Turn`], the one without its unit comes first. So
//! [`compare_traces`] follows the turns to the first unit in which two structures differ.
//!
//! [`maximal`] gives the maximal structure. It first leaves out units that no solution structure
//! can have, material by material, until a material of what is left has a maker exactly if it is
//! not raw (`balance`). Then it keeps the units that lead to a product. If what is left has every
//! product, it is the union of all solution structures, clash-free or not, and is one itself. Else
//! there is none. [`viable`] says whether some solution structure takes some units in and leaves
//! others out. From such a set, [`left_out`] finds what is left without one unit; it looks only at
//! the materials that lose their last maker (`leaving`). Both count one step in the caller's
//! [`Steps`], and [`without_unit`] does the same uncounted.
//!
//! Only [`print_token`] takes memory.
//!
//! Modules: `list`, `stack`, `search` and `turns` (a listing); `decided`, `position`, `turn` and
//! `compare` (decisions and their order); `balance`, `union` and `leaving` (the maximal structure
//! and the tests); `steps` (a count of tests); `token` (the words that stand for sets of units).
#![tactic(auto)]

mod balance;
mod compare;
mod decided;
mod leaving;
mod list;
mod position;
mod search;
mod stack;
mod steps;
mod token;
mod turn;
mod turns;
mod union;

pub use compare::compare_traces;
pub use decided::Decided;
pub use leaving::{left_out, without_unit};
pub use list::{OpenFault, StructureList};
pub use pgraph::{
    Cover, Covers, Exclusion, Graph, Kind, MatSet, Material, Node, OperatingUnit, Place, Problem,
    Site, Step, Term, UnitSet, generate,
};
pub use position::Position;
pub use steps::Steps;
pub use token::{BadForm, print_token, read_token};
pub use turn::Turn;
pub use union::{maximal, viable};
