//! The terms of a new unit.
use std::marker::Model;

/// The name of a material, and the rate in millionths at which a unit of size 1 uses or makes it.
#[derive(Drop)]
pub struct NamedTerm {
    pub name: String,
    pub rate: i64,
}

impl Model for NamedTerm {
    ghost use Rattle.std.specs.Prelude.{string_bytes};
    ghost use Rattle.text_lines.specs.edit_rules.Edit as rules;

    ghost Value = { rules.NamedTerm };

    ghost view = { λ t. record { name = string_bytes t.name; rate = t.rate } };
}
