//! The exact facts of a network as one JSON object, tables of ranges, and pieces of JSON text.
//!
//! The facts are those of one year. `Facts` of `report_rules` has the lines: those of the report,
//! in its order, with the numbers of `report_amounts`. [`facts_of`] gives their bytes, and
//! [`bare_of`] those of a claim without a network.
//!
//! `RangeTable` of `report_rules` has the grammar of the text that `stable FILE TREE` prints, and
//! `Object` the lines of its JSON object. [`read_table`] gives the rows of such a text, or exactly
//! its first fault, and [`table_json`] prints rows as JSON.
//!
//! The pieces are strings, numbers, arrays and objects, each a [`Json`]. `Json` and `Value` of
//! `report_rules` have their bytes. A number is printed twice: in decimal with 17 digits, and
//! exactly.
//!
//! Modules of facts: `members`, values under their keys; `head`, `units`, `materials` and `foot`,
//! the parts; `text`, the whole; `lower`, the lower bound and the gap; `ranking`, the networks of a
//! ranking. Modules of tables: `words`, the words of a line; `row`, a line; `read`, the text;
//! `object`, the JSON. Modules of pieces: `piece`, pieces and what they are made of; `digits`, a
//! fraction rounded to 17 digits; `value`, its text; `lines`, pieces in lines of their own.
#![tactic(auto)]

mod digits;
mod foot;
mod head;
mod lines;
mod lower;
mod materials;
mod members;
mod object;
mod piece;
mod ranking;
mod read;
mod row;
mod text;
mod units;
mod value;
mod words;

pub use lines::{push_array, push_comma_lines, push_line, push_with_commas};
pub use lower::{bound_member, first_gap_member, gap_member, low_member};
pub use members::{count_member, null_member, text_member};
pub use object::table_json;
pub use piece::Json;
pub use ranking::{first_of, networks_member};
pub use read::{is_table, read_table};
pub use report_tables::{
    HeadedVerdict, LowerBound, Marginals, Measures, Plant, RankVerdict, Verdict, marginals_of,
    ranking_of,
};
pub use text::{bare_of, facts_of};
