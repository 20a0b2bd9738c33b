//! The whole report.
ghost use Rattle.std.specs.Prelude.{◌≡◌, ◌<◌, ◌++◌, ◌∷◌, [], ℕ, true, IfOk, OnOk, length};
ghost use Rattle.std.specs.Prelude.{unsigned_abs, string_bytes};
ghost use Rattle.text_lines.specs.number_sets.Sets.{has};
ghost use Rattle.cert_check.specs.pns_problem.Printing.{printed};
ghost use Rattle.cert_check.specs.flow_rules.Net.{net_of, materials_of};
ghost use Rattle.cert_check.specs.tree_rules.Claim.{IsFeasible};
ghost use Rattle.report_amounts.specs.report_rules.Report.{counted, network_line, time_line};
ghost use Rattle.report_amounts.specs.report_rules.Report.{head_lines};
ghost use Rattle.report_amounts.specs.report_rules.Report.{report_lines};

use crate::foot::push_foot;
use crate::materials::push_materials;
use crate::measures::Measures;
use crate::money::push_money;
use crate::plant::Plant;
use crate::units::push_units;
use cert_check::{Network, Problem, Site};
use report_amounts::{Marginals, materials_in};
use std::alloc::{AllocError, Global};

fn push_counted(text: &mut String, words: &str, number: u64) -> Result<(), AllocError>
    ensures { OnOk result
        (string_bytes text.new ≡ string_bytes text.old ++ counted words.now number) }
{
    text.push_str(words)?;
    write!(text, "{number}")?;
    Ok(())
}

fn units_in(network: &Network) -> u64
    ensures { result ≡ length network.now.units }
{
    u64::from(network.units().count())
}

fn materials_count(site: &Site<'_>, network: &Network) -> u64
    requires known { (u : ℕ) → has network.now.units u ≡ true → u < length site.now.units }
    ensures { result ≡ length (materials_of (net_of site.now) (has network.now.units)) }
{
    u64::from(materials_in(site, network).count())
}

fn all_units(problem: &Problem) -> u64
    ensures { result ≡ length problem.now.units }
{
    problem.units().len() as u64
}

fn all_materials(problem: &Problem) -> u64
    ensures { result ≡ length problem.now.materials }
{
    problem.materials().len() as u64
}

fn years(problem: &Problem) -> u64
    ensures { result ≡ unsigned_abs problem.now.payout }
{
    problem.payout().unsigned_abs()
}

fn push_network(text: &mut String, site: &Site<'_>, network: &Network) -> Result<(), AllocError>
    requires known { (u : ℕ) → has network.now.units u ≡ true → u < length site.now.units }
    ensures { OnOk result
        (string_bytes text.new ≡ string_bytes text.old ++ network_line site.now network.now) }
{
    let problem = site.problem();
    push_counted(text, "Claimed network: ", units_in(network))?;
    push_counted(text, " of ", all_units(problem))?;
    push_counted(text, " units, ", materials_count(site, network))?;
    push_counted(text, " of ", all_materials(problem))?;
    push_counted(text, " materials, payout period ", years(problem))?;
    Ok(())
}

/// Appends for which time money is.
fn push_time(text: &mut String, measures: &Measures) -> Result<(), AllocError>
    ensures { OnOk result
        (string_bytes text.new ≡ string_bytes text.old ++ time_line measures.now) }
{
    text.push_str("Money is for ")?;
    measures.time().push_time(text)?;
    text.push_str(": costs are above 0, incomes below.")?;
    Ok(())
}

/// Appends the head and an empty line.
fn push_head(text: &mut String, plant: &Plant<'_>, network: &Network) -> Result<(), AllocError>
    requires known { (u : ℕ) → has network.now.units u ≡ true
        → u < length plant.now.site.now.units }
    ensures { OnOk result
        (string_bytes text.new ≡ string_bytes text.old
        ++ printed (head_lines plant.now.measures.now plant.now.site.now network.now)) }
{
    text.push_str("Rounded to 6 digits where needed; exact numbers: pns json\n")?;
    push_network(text, plant.site, network)?;
    text.push('\n')?;
    push_time(text, plant.measures)?;
    text.push_str("\n\n")?;
    Ok(())
}

/// Appends all lines.
pub(crate) fn push_report(
    alloc: Global,
    text: &mut String,
    plant: &Plant<'_>,
    network: &Network,
    marginals: &Marginals,
) -> Result<(), AllocError>
    requires feasible { IsFeasible plant.now.site.now network.now }
    ensures { OnOk result
        (string_bytes text.new ≡ string_bytes text.old
        ++ printed
        (report_lines plant.now.measures.now plant.now.site.now network.now marginals.now)) }
{
    push_head(text, plant, network)?;
    push_units(alloc, text, plant, network, marginals)?;
    push_materials(alloc, text, plant, network, marginals)?;
    push_money(alloc, text, plant, network)?;
    push_foot(text, plant.site.problem(), network)?;
    Ok(())
}

/// The report of a network with these marginals on its problem. The cell of a number that overflows
/// is `past`.
pub fn report_of(
    alloc: Global,
    plant: &Plant<'_>,
    network: &Network,
    marginals: &Marginals,
) -> Result<Vec<u8>, AllocError>
    requires feasible { IsFeasible plant.now.site.now network.now }
    ensures { IfOk result
        (λ bytes. bytes.items
        ≡ printed
        (report_lines plant.now.measures.now plant.now.site.now network.now marginals.now)) }
{
    let mut text = String::new(alloc);
    push_report(alloc, &mut text, plant, network, marginals)?;
    Ok(text.into_bytes())
}
