//! The report of a network as exact tables, and the bounds that clash if there is none.
//!
//! The report shows the units of a network, its materials and its money for one year. In
//! `report_rules`, `Report` has the lines, with the numbers of `report_amounts`. `Aligned` has the
//! lines of any table with aligned columns. [`report_of`] gives their bytes. `Ranked` has the table
//! of a ranking, and [`ranking_of`] gives it with the report of the first network.
//!
//! If a tree proves that no network meets the bounds, the multipliers of each of its refuted leaves
//! use some of them. `Clash` of `report_rules` has the lines, and [`clashes_of`] gives their bytes.
//! The checker gives the leaves of a copy of the tree in which all leaves are open, and so the node
//! of each leaf.
//!
//! Modules of the report: `measures`, the units of measure of headings; `plant`, a problem with
//! these; `row`, `column`, `line` and `table`, aligned tables; `cells`, more cells in a row;
//! `limits`, whether a number is at a bound; `tables`, a table with an empty line after it;
//! `units`, `materials` and `money`, the three tables; `foot`; `text`, the whole; `ranking`, the
//! table of a ranking. Modules of what clashes: `opened`, the copy of the tree; `leaves`, the
//! refuted leaves; `left`, what multipliers leave of a cost; `bounds`, the lines of bounds;
//! `clash_text`, the whole.
#![tactic(auto)]

mod bounds;
mod cells;
mod clash_text;
mod column;
mod foot;
mod leaves;
mod left;
mod limits;
mod line;
mod materials;
mod measures;
mod money;
mod opened;
mod plant;
mod ranking;
mod row;
mod table;
mod tables;
mod text;
mod units;

pub use cells::push_words;
pub use cert_check::Frac;
pub use clash_text::clashes_of;
pub use foot::{left_out, push_names_or_none};
pub use materials::material_limit;
pub use measures::{MeasureUnit, Measures};
pub use money::{push_low, push_total};
pub use plant::Plant;
pub use ranking::ranking_of;
pub use report_amounts::{
    HeadedVerdict, LowerBound, Marginals, Number, RankVerdict, Verdict, above_first, amount, cost,
    cost_sum, gap_above, kind_word, marginals_of, material_of, material_table, materials_in, net,
    price, push_gap, push_places, push_six_digits, share_above, share_of, size, size_at, unit_of,
    unit_sum, unit_table,
};
pub use row::Row;
pub use table::push_table;
pub use text::report_of;
pub use units::{NO_BOUND, unit_limit};
