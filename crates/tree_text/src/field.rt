//! Names and numbers after the first word of a line, each after a space.
ghost use Rattle.std.specs.Prelude.{◌≡◌, ◌<◌, ◌≤◌, [], ◌∷◌, OnOk, decimal, map, length};
ghost use Rattle.std.specs.Prelude.{string_bytes};
ghost use Rattle.std.specs.Fmt.{signed_decimal};
ghost use Rattle.tree_text_rules.specs.Spelling.{unit_name, material_name, exclusion_name};
ghost use Rattle.tree_text_rules.specs.tree_rules.Known.{IsUnit, IsMaterial, IsExclusion, AreUnits};
ghost use Rattle.tree_text.specs.Printing.{appended};

use flow_program::{Problem, UnitSet};
use std::alloc::AllocError;

/// Begins a line anew by its first word.
pub fn begin(line: &mut String, word: &str) -> Result<(), AllocError>
    ensures { OnOk result (string_bytes line.new ≡ word.now) }
{
    line.clear();
    line.push_str(word)?;
    Ok(())
}

/// A field, unchanged.
pub fn push_field(line: &mut String, field: &str) -> Result<(), AllocError>
    ensures { OnOk result
        (string_bytes line.new ≡ appended (string_bytes line.old) (field.now ∷ [])) }
{
    line.push(' ')?;
    line.push_str(field)?;
    Ok(())
}

/// A count.
pub fn push_count(line: &mut String, count: u32) -> Result<(), AllocError>
    ensures { OnOk result
        (string_bytes line.new ≡ appended (string_bytes line.old) (decimal count ∷ [])) }
{
    line.push(' ')?;
    write!(line, "{count}")?;
    Ok(())
}

pub(crate) fn push_options(line: &mut String, options: u128) -> Result<(), AllocError>
    ensures { OnOk result
        (string_bytes line.new ≡ appended (string_bytes line.old) (decimal options ∷ [])) }
{
    line.push(' ')?;
    write!(line, "{options}")?;
    Ok(())
}

/// A whole number.
pub fn push_number(line: &mut String, number: i128) -> Result<(), AllocError>
    ensures { OnOk result
        (string_bytes line.new ≡ appended (string_bytes line.old) (signed_decimal number ∷ [])) }
{
    line.push(' ')?;
    write!(line, "{number}")?;
    Ok(())
}

/// Whole numbers, each after a space.
pub fn push_numbers(line: &mut String, numbers: &[i128]) -> Result<(), AllocError>
    ensures { OnOk result
        (string_bytes line.new
        ≡ appended (string_bytes line.old) (map signed_decimal numbers.now)) }
{
    'printing: for number in numbers {
        push_number(line, *number)?;
    }
    Ok(())
}

/// The name of a unit.
pub(crate) fn unit_name(problem: &Problem, unit: u32) -> &str
    requires { IsUnit problem.now unit }
    ensures { result.now ≡ unit_name problem.now unit }
{
    let unit = &problem.units()[unit as usize];
    &unit.name
}

/// The name of a material.
pub(crate) fn material_name(problem: &Problem, material: u32) -> &str
    requires { IsMaterial problem.now material }
    ensures { result.now ≡ material_name problem.now material }
{
    let material = &problem.materials()[material as usize];
    &material.name
}

/// The name of an exclusion.
pub(crate) fn exclusion_name(problem: &Problem, exclusion: u32) -> &str
    requires { IsExclusion problem.now exclusion }
    ensures { result.now ≡ exclusion_name problem.now exclusion }
{
    let exclusion = &problem.exclusions()[exclusion as usize];
    &exclusion.name
}

/// The names of the units of a set, in file order.
pub(crate) fn push_units(
    line: &mut String,
    problem: &Problem,
    units: UnitSet,
) -> Result<(), AllocError>
    requires { AreUnits problem.now units }
    ensures { OnOk result
        (string_bytes line.new
        ≡ appended (string_bytes line.old) (map (unit_name problem.now) units)) }
{
    for unit in units {
        push_field(line, unit_name(problem, unit))?;
    }
    Ok(())
}
