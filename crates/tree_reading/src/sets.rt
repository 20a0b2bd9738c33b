//! The lines of the sets of a charge.
ghost use Rattle.std.specs.Prelude.{◌≡◌, [], Some, IfOk, IfSome, option_map};
ghost use Rattle.branch_tree.specs.pgraph.CoversView.{cover_of};
ghost use Rattle.tree_text_rules.specs.tree_rules.Known.{IsUnit, AreUnits, KnowsCover};
ghost use Rattle.tree_text_rules.specs.LineRead as reads;
ghost use Rattle.tree_text_rules.specs.Token as rules;
ghost use Rattle.tree_reading.specs.Apart.{formed_by, formed_if_read};
ghost use Rattle.tree_reading.specs.View.{tokens_in};

use crate::apart::{LineParts, some_token};
use crate::fault_order::both;
use crate::name::unit_of;
use crate::number::weight_of;
use crate::unit_list::units_of;
use branch_tree::{Cover, Problem, UnitSet};
use tree_text_rules::{TreeKind, Word};

// The units of a set, at least one.
fn some_units(problem: &Problem, fields: Option<&[u8]>) -> Result<UnitSet, TreeKind>
    ensures value { reads.some_units problem.now (tokens_in fields.entry) ≡ result }
    ensures known { IfOk result (AreUnits problem.now) }
    ensures some { IfOk result (λ us. us ≡ [] → ⊥) }
{
    if fields.is_none() {
        return Err(TreeKind::BadLine);
    }
    units_of(problem, fields)
}

// A unit beside a set, and the units of the set.
fn beside_units(
    problem: &Problem,
    unit: &[u8],
    names: Option<&[u8]>,
) -> Result<(u32, UnitSet), TreeKind>
    ensures value { rules.both (rules.unit_of problem.now unit.now)
        (reads.some_units problem.now (tokens_in names.entry)) ≡ result }
    ensures beside { IfOk result (λ found. IsUnit problem.now found.0) }
    ensures known { IfOk result (λ found. AreUnits problem.now found.1) }
    ensures some { IfOk result (λ found. found.1 ≡ [] → ⊥) }
{
    both(unit_of(problem, unit), some_units(problem, names))
}

// A weight and the units of a set.
fn set_of(problem: &Problem, fields: Option<&[u8]>) -> Result<Cover, TreeKind>
    ensures value { reads.set_of problem.now (tokens_in fields.entry)
        ≡ rules.mapped cover_of result }
    ensures known { IfOk result (λ c. KnowsCover problem.now (cover_of c)) }
{
    let (weight, names) = some_token(fields)?;
    let (weight, units) = both(weight_of(weight), some_units(problem, names))?;
    Ok(Cover {
        weight,
        beside: None,
        units,
    })
}

// A weight, the unit beside a set, and the units of the set.
fn set_beside(problem: &Problem, fields: Option<&[u8]>) -> Result<Cover, TreeKind>
    ensures value { reads.set_beside problem.now (tokens_in fields.entry)
        ≡ rules.mapped cover_of result }
    ensures known { IfOk result (λ c. KnowsCover problem.now (cover_of c)) }
{
    let (weight, behind) = some_token(fields)?;
    let (unit, names) = some_token(behind)?;
    let named = beside_units(problem, unit, names);
    let (weight, (unit, units)) = both(weight_of(weight), named)?;
    Ok(Cover {
        weight,
        beside: Some(unit),
        units,
    })
}

// The set of a line that begins as one.
fn set_in(problem: &Problem, line: &LineParts) -> Result<Cover, TreeKind>
    ensures value { IfSome (reads.cover_by problem.now line.now.word (tokens_in line.now.fields))
        (λ read. formed_by line.now.formed read ≡ rules.mapped cover_of result) }
    ensures known { IfOk result (λ c. KnowsCover problem.now (cover_of c)) }
{
    if !line.formed {
        return Err(TreeKind::BadLine);
    }
    match line.word {
        Some(Word::SomeOf) => set_of(problem, line.fields),
        Some(Word::With) => set_beside(problem, line.fields),
        _ => Err(TreeKind::BadLine),
    }
}

/// The set that a line says, or none if its first word is another.
pub fn set_line(problem: &Problem, line: &LineParts) -> Option<Result<Cover, TreeKind>>
    ensures value { formed_if_read line.now.formed
        (reads.cover_by problem.now line.now.word (tokens_in line.now.fields))
        ≡ option_map (rules.mapped cover_of) result }
    ensures known { IfSome result (λ read. IfOk read (λ c. KnowsCover problem.now (cover_of c))) }
{
    match line.word {
        Some(Word::SomeOf | Word::With) => Some(set_in(problem, line)),
        _ => None,
    }
}
