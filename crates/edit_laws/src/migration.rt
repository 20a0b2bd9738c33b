//! Laws of the migration from yearly costs to investment costs: the edits of a migration are taken,
//! and the problem after them has the same flows, with cost numerators that are years times the old
//! ones.
//!
//! `specs/MigrationLaws` states them. Each is the contract of a function that does nothing: a call
//! gives the law to the caller's proof.
ghost use Rattle.edit_laws.specs.MigrationLaws.{MigrationsAreFormed, MigrationsApply};
ghost use Rattle.edit_laws.specs.MigrationLaws.{MigrationKeepsFlows};

/// The edits of a migration have no fault of form, if no cost goes out of range.
pub fn migrations_are_formed()
    ensures { MigrationsAreFormed }
{}

/// A problem with a payout period of 1 year and no investment costs takes the edits of each
/// migration.
pub fn migrations_apply()
    ensures { MigrationsApply }
{}

/// The problem after a migration has the same flows for each set of units, and its cost numerators
/// are years times the old ones.
pub fn migration_keeps_flows()
    ensures { MigrationKeepsFlows }
{}
