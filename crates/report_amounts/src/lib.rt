//! Exact numbers and tables of a network; that the total is units plus materials has no clause.
//!
//! The numbers are, for one year, the costs of a network's units, the flows and costs of its
//! materials, and their sums, all before any rounding. In `report_rules`, `Amounts` has each as a
//! fraction. A [`Number`] is a fraction in lowest terms, with numerator and denominator of at most
//! 127 bits. If a number that has to be formed for it has more bits, it is none, which is printed
//! as `past`; so is each sum over it. `Number` of `report_rules` says how numbers are formed and
//! printed: with six digits if they have more, or as a share in per cent. The gap to a lower bound
//! is rounded up.
//!
//! A fraction is printed as its nearest decimal, of given places or six digits, halves away from 0.
//! `Decimal` of `report_rules` has the text. A fraction is rounded at most once. With given places,
//! a `~` comes before a decimal that is not the fraction itself. With six digits there is no `~`. A
//! quotient to be printed is divided by the factors of its divisor one after another. So no product
//! of them is formed. A lower bound is rounded down.
//!
//! [`unit_table`] has the units with their sizes and fixed costs, [`material_table`] the materials
//! with what is left over of each, as comma-separated fields, which a spreadsheet opens. Their
//! bytes are those of `Table` in `report_rules`, as the crate `csv` writes them. All sums are those
//! by which the flows of a network are judged, so no sum overflows that did not overflow there. The
//! numbers of other texts on a network come from [`size_at`] and [`flow_of`] too, and its materials
//! from [`materials_in`].
//!
//! [`Marginals`] say what one more of each of a network's materials costs, and what one more of
//! each size saves. They come from multipliers of least flows for its units. `Marginal` of
//! `report_rules` has what they mean. [`marginals_of`] gives them, or says that a number overflows.
//!
//! Modules of numbers: `number`, such fractions; `amounts`, the numbers of units and their sums;
//! `costs`, those of materials; `sizes` and `flows`; `gap`, the gap to a lower bound; `ranks` and
//! `changes`, what a network costs more than the first of a ranking, and its units against those of
//! the first; `marginals`, what one more costs or saves, and `network`, which finds it. Modules of
//! decimals: `places`, digits after the point; `signed`, a rounded number with its sign;
//! `quotient`; `six`, six digits; `down`, six digits of a number that is rounded down. Modules of
//! tables: `rows`, records by the writer of `csv`; `units` and `materials`, the tables.
#![tactic(auto)]

mod amounts;
mod changes;
mod costs;
mod down;
mod flows;
mod gap;
mod marginals;
mod materials;
mod network;
mod number;
mod places;
mod quotient;
mod ranks;
mod rows;
mod signed;
mod six;
mod sizes;
mod units;

pub use amounts::{amount, share_of, size, unit_of, unit_sum};
pub use changes::{change_of, push_word};
pub use costs::{cost, cost_sum, flow_at, material_of, net, price};
pub use down::push_six_digits_down;
pub use flow_evaluator::{
    Graph, Kind, MatSet, Material, Network, OperatingUnit, Problem, Site, Term, UnitSet,
    checked_product, rate_at,
};
pub use flows::{flow_of, moved_at};
pub use gap::{gap_above, push_gap};
pub use marginals::{Marginals, Multipliers};
pub use materials::{kind_word, material_table, materials_in};
pub use network::marginals_of;
pub use number::Number;
pub use places::push_places;
pub use quotient::push_quotient;
pub use ranks::{above_first, place_of, share_above};
pub use report_rules::{
    CostPart, HeadedVerdict, LowerBound, Measure, RankVerdict, Role, Sort, UnitAmount, Verdict,
    valid_is_proper,
};
pub use signed::push_signed;
pub use six::{places_behind, push_six_digits, scale_of};
pub use sizes::size_at;
pub use units::unit_table;
