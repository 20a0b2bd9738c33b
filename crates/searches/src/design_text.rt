//! The text of a design.
ghost use Rattle.std.specs.Prelude.{◌≡◌, ◌≤◌, ◌<◌, ◌+◌, ◌++◌, ◌∷◌, [], IfOk, OnOk, codes};
ghost use Rattle.std.specs.Prelude.{decimal};
ghost use Rattle.std.specs.Prelude.{length, string_bytes};
ghost use Rattle.std.specs.Fmt.{signed_decimal};
ghost use Rattle.command_files.specs.studio_rules.Lines.{text_of};
ghost use Rattle.command_files.specs.studio_rules.DesignText.{spaced_units, spaced_numbers};
ghost use Rattle.command_files.specs.studio_rules.DesignText.{built_lines};
ghost use Rattle.command_files.specs.studio_rules.DesignText.{run_lines, runs_lines, design_lines};

use command_files::line::push_unit_names;
use command_files::{Design, Run};
use headed_search::{Problem, UnitSet};
use std::alloc::{AllocError, Global};

fn push_number(line: &mut String, number: i128) -> Result<(), AllocError>
    ensures { OnOk result
        (string_bytes line.new ≡ string_bytes line.old ++ 32 ∷ signed_decimal number) }
{
    line.push(' ')?;
    write!(line, "{number}")?;
    Ok(())
}

/// Appends the numbers, each after a space.
fn push_numbers(line: &mut String, numbers: &[i128]) -> Result<(), AllocError>
    ensures { OnOk result
        (string_bytes line.new ≡ string_bytes line.old ++ spaced_numbers numbers.now) }
{
    'printing: for number in numbers {
        push_number(line, *number)?;
    }
    Ok(())
}

/// Appends the names of the units, each after a space.
fn push_units(text: &mut Vec<u8>, problem: &Problem, units: UnitSet) -> Result<(), AllocError>
    ensures { OnOk result (text.new.items ≡ text.old.items ++ spaced_units problem.now units) }
{
    problem.is_valid();
    push_unit_names(text, problem.units(), units)
}

/// The line of a period with its number, and the first word of the next.
fn head_text(alloc: Global, number: u32) -> Result<String, AllocError>
    ensures { IfOk result
        (λ text. string_bytes text ≡ codes "period " ++ (decimal number ++ 10 ∷ codes "units")) }
{
    let text = format!(in alloc; "period {number}\nunits")?;
    Ok(text)
}

/// The line of sizes, from the end of the line of names on.
fn sizes_text(alloc: Global, sizes: &[i128]) -> Result<String, AllocError>
    ensures { IfOk result
        (λ text. string_bytes text ≡ (10 ∷ codes "sizes")
        ++ (spaced_numbers sizes.now ++ 10 ∷ [])) }
{
    let mut text = String::from_str(alloc, "\nsizes")?;
    push_numbers(&mut text, sizes)?;
    text.push('\n')?;
    Ok(text)
}

/// The divisor of all sizes, with the first word of its line, from the end of the line of names on.
fn over_text(alloc: Global, d: i128) -> Result<String, AllocError>
    ensures { IfOk result
        (λ text. string_bytes text ≡ (10 ∷ codes "capacities ") ++ signed_decimal d) }
{
    let text = format!(in alloc; "\ncapacities {d}")?;
    Ok(text)
}

/// The line of capacities, from the end of the line of names on.
fn capacities_text(alloc: Global, d: i128, capacities: &[i128]) -> Result<String, AllocError>
    ensures { IfOk result
        (λ text. string_bytes text ≡ ((10 ∷ codes "capacities ") ++ signed_decimal d)
        ++ spaced_numbers capacities.now) }
{
    let mut text = over_text(alloc, d)?;
    push_numbers(&mut text, capacities)?;
    Ok(text)
}

/// The line of the cost, from the end of the line of capacities on.
fn cost_text(alloc: Global, cost: i128) -> Result<String, AllocError>
    ensures { IfOk result
        (λ text. string_bytes text ≡ (10 ∷ codes "cost ") ++ (signed_decimal cost ++ 10 ∷ [])) }
{
    let text = format!(in alloc; "\ncost {cost}\n")?;
    Ok(text)
}

/// The lines of capacities and of the cost, from the end of the line of names on.
fn costs_text(alloc: Global, design: &Design) -> Result<(String, String), AllocError>
    ensures capacities { IfOk result
        (λ texts. string_bytes texts.0
        ≡ ((10 ∷ codes "capacities ") ++ signed_decimal design.now.d)
        ++ spaced_numbers design.now.capacities) }
    ensures cost { IfOk result
        (λ texts. string_bytes texts.1 ≡ (10 ∷ codes "cost ")
        ++ (signed_decimal design.now.cost ++ 10 ∷ [])) }
{
    let capacities = capacities_text(alloc, design.d, &design.capacities)?;
    let cost = cost_text(alloc, design.cost)?;
    Ok((capacities, cost))
}

fn push_text(text: &mut Vec<u8>, more: &str) -> Result<(), AllocError>
    ensures { OnOk result (text.new.items ≡ text.old.items ++ more.now) }
{
    text.extend_from_slice(more.as_bytes())?;
    Ok(())
}

/// Appends the lines of a period with its number.
fn push_run(
    alloc: Global,
    text: &mut Vec<u8>,
    problem: &Problem,
    number: u32,
    run: &Run,
) -> Result<(), AllocError>
    ensures { OnOk result
        (text.new.items ≡ text.old.items ++ text_of (run_lines problem.now number run.now)) }
{
    let head = head_text(alloc, number)?;
    let sizes = sizes_text(alloc, &run.sizes)?;
    push_text(text, head.as_str())?;
    push_units(text, problem, run.units)?;
    push_text(text, sizes.as_str())?;
    Ok(())
}

/// Appends the lines of all periods, which count from 1.
fn push_runs(
    alloc: Global,
    text: &mut Vec<u8>,
    problem: &Problem,
    runs: &[Run],
) -> Result<(), AllocError>
    requires { length runs.now ≤ 256 }
    ensures { OnOk result
        (text.new.items ≡ text.old.items ++ text_of (runs_lines problem.now 1 runs.now)) }
{
    let mut number: u32 = 1;
    'running: for run in runs {
        push_run(alloc, text, problem, number, run)?;
        number += 1;
    }
    Ok(())
}

/// Appends the lines before those of the periods.
fn push_built(
    alloc: Global,
    text: &mut Vec<u8>,
    problem: &Problem,
    design: &Design,
) -> Result<(), AllocError>
    ensures { OnOk result
        (text.new.items ≡ text.old.items ++ text_of (built_lines problem.now design.now)) }
{
    let texts = costs_text(alloc, design)?;
    push_text(text, "built")?;
    push_units(text, problem, design.built)?;
    push_text(text, texts.0.as_str())?;
    push_text(text, texts.1.as_str())?;
    Ok(())
}

/// The text of a design.
pub(crate) fn design_text(
    alloc: Global,
    problem: &Problem,
    design: &Design,
) -> Result<Vec<u8>, AllocError>
    requires { length design.now.runs ≤ 256 }
    ensures { IfOk result (λ text. text.items ≡ text_of (design_lines problem.now design.now)) }
{
    let mut text = Vec::new(alloc);
    push_built(alloc, &mut text, problem, design)?;
    push_runs(alloc, &mut text, problem, &design.runs)?;
    Ok(text)
}
