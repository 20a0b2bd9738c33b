//! The text PNS_tree_v1 of branch trees in code.
//!
//! [`print_tree`] writes the one text of a claim, a tree and a tail to a sink. [`print_headed`]
//! writes that of a tree with a head. The printers of parts write their lines of it. Each line is
//! handed over at once, so after an error of memory whole lines are printed. Texts that have other
//! lines besides those of a tree make them by the same calls: [`begin`], the fields that follow,
//! and [`put_line`].
//!
//! The definitions are those of `tree_text_rules`. Modules: `field` appends names and numbers to a
//! line, `column` columns and places; `put` hands lines to the sink, `line` one of a word and
//! fields, `part` those of each part, `front` those of a head; `print` has the calls.
#![tactic(auto)]

mod column;
mod fault;
mod field;
mod front;
mod line;
mod part;
mod print;
mod put;

pub use fault::PrintFault;
pub use field::{begin, push_count, push_field, push_number, push_numbers};
pub use flow_program::{CostOver, Mixed, bound_of, sets_of};
pub use front::Headed;
pub use pns_io::{
    Effort, Failed, FileShelf, MemShelf, MemSink, NoWatch, OutSink, Outputs, Progress,
    ReadAllFault, Shelf, Sink, Watch, read_all,
};
pub use print::{
    print_end, print_head, print_headed, print_network, print_place, print_rest, print_tail,
    print_tree,
};
pub use put::put_line;
