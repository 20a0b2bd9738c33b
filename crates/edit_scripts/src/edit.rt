//! The edits of a problem.
use crate::term::NamedTerm;
use pns_problem::Kind;

/// An edit of a problem, with the names of its materials, units and exclusions. Prices, bounds,
/// costs and rates are in millionths; `at` is a place, counted from 0.
#[derive(Drop)]
pub enum Edit {
    /// Sets the price of a material.
    Price {
        material: String,
        value: i64,
    },
    /// Sets both bounds of a material.
    Bounds {
        material: String,
        lower: i64,
        upper: i64,
    },
    /// Sets the kind of a material.
    Kind {
        material: String,
        kind: Kind,
    },
    /// Sets both capacities of a unit.
    Capacity {
        unit: String,
        lower: i64,
        upper: i64,
    },
    /// Sets the yearly fixed cost of a unit.
    Fix {
        unit: String,
        value: i64,
    },
    /// Sets the yearly proportional cost of a unit.
    Proportional {
        unit: String,
        value: i64,
    },
    /// Gives a material another name.
    RenameMaterial {
        old: String,
        new: String,
    },
    /// Gives a unit another name.
    RenameUnit {
        old: String,
        new: String,
    },
    /// Inserts a material at a place.
    AddMaterial {
        at: u32,
        name: String,
        kind: Kind,
        price: i64,
        lower: i64,
        upper: i64,
    },
    /// Removes a material that no unit has.
    RemoveMaterial {
        material: String,
    },
    /// Inserts a unit without investment costs at a place.
    AddUnit {
        at: u32,
        name: String,
        lower: i64,
        upper: i64,
        fix: i64,
        proportional: i64,
        inputs: Vec<NamedTerm>,
        outputs: Vec<NamedTerm>,
    },
    /// Removes a unit that no exclusion names.
    RemoveUnit {
        unit: String,
    },
    /// Inserts an exclusion of units, in any order, at a place.
    Exclude {
        at: u32,
        name: String,
        units: Vec<String>,
    },
    /// Removes an exclusion.
    Unexclude {
        name: String,
    },
    /// Sets both investment costs of a unit.
    Investment {
        unit: String,
        fix: i64,
        proportional: i64,
    },
    /// Sets the payout period in whole years.
    Payout {
        years: i64,
    },
}
