//! A list of networks as a table.
ghost use Rattle.std.specs.Prelude.{◌≡◌, ◌++◌, ◌<◌, ◌^◌, IfOk, OnOk, length, string_bytes};
ghost use Rattle.report_amounts.specs.pns_problem.Printing.{printed};
ghost use Rattle.report_amounts.specs.report_rules.Graph.{change_words, cost_words, listed_words};
ghost use Rattle.report_amounts.specs.report_rules.Graph.{label_line};
ghost use Rattle.report_amounts.specs.report_rules.Graph.{listed_lines, list_head, list_end};
ghost use Rattle.report_amounts.specs.report_rules.Graph.{list_lines};

use crate::numbers::push_cost;
use report_amounts::{Network, Problem, above_first, change_of, place_of};
use std::alloc::{AllocError, Global};

/// Appends a comma and the change, if there is any.
fn push_change(text: &mut String, change: &str) -> Result<(), AllocError>
    ensures { OnOk result
        (string_bytes text.new ≡ string_bytes text.old ++ change_words change.now) }
{
    if change.is_empty() {
        return Ok(());
    }
    text.push_str(", ")?;
    text.push_str(change)?;
    Ok(())
}

/// Appends what the network costs, and what that is above the cost of the first.
fn push_costs(
    text: &mut String,
    problem: &Problem,
    first: &Network,
    network: &Network,
) -> Result<(), AllocError>
    ensures { OnOk result
        (string_bytes text.new ≡ string_bytes text.old
        ++ cost_words problem.now first.now network.now) }
{
    push_cost(text, problem, network)?;
    text.push_str(", ")?;
    above_first(problem, first, network).push(text)?;
    Ok(())
}

/// The network at its place: its costs, and its units against the first.
fn listed_words(
    alloc: Global,
    problem: &Problem,
    first: &Network,
    place: u32,
    network: &Network,
) -> Result<String, AllocError>
    ensures { IfOk result
        (λ words. string_bytes words ≡ listed_words problem.now first.now place network.now) }
{
    let change = change_of(alloc, problem, first, network)?;
    let mut words = String::new(alloc);
    write!(words, "{place}")?;
    words.push_str(": ")?;
    push_costs(&mut words, problem, first, network)?;
    push_change(&mut words, &change)?;
    Ok(words)
}

/// Appends the words as a further line of the label, without its line feed.
fn push_label_line(text: &mut String, words: &str) -> Result<(), AllocError>
    ensures { OnOk result
        (string_bytes text.new ≡ string_bytes text.old ++ label_line words.now) }
{
    text.push_str("    + \"")?;
    text.push_str(words)?;
    text.push_str("\\l\"")?;
    Ok(())
}

/// Appends a line for each network.
fn push_listed(
    alloc: Global,
    text: &mut String,
    problem: &Problem,
    first: &Network,
    networks: &[Network],
) -> Result<(), AllocError>
    requires { length networks.now < 2 ^ 32 }
    ensures { OnOk result
        (string_bytes text.new ≡ string_bytes text.old
        ++ printed (listed_lines problem.now first.now 1 networks.now)) }
{
    'listing: for i in 0..networks.len() {
        let words = listed_words(alloc, problem, first, place_of(i), &networks[i])?;
        push_label_line(text, &words)?;
        text.push('\n')?;
    }
    Ok(())
}

/// What comes before the networks, and after them.
const HEAD: &str =
    "  networks [shape=note, fontsize=9, label=\"networks of the list, in one year; the first is drawn\\l\"\n    + \"place: cost, above the first, units taken in (+) and left out (-)\\l\"\n";

const END: &str = "  ];\n  { rank=source; networks; }\n";

/// Appends the list, of which this is the first.
fn push_table(
    alloc: Global,
    text: &mut String,
    problem: &Problem,
    first: &Network,
    networks: &[Network],
) -> Result<(), AllocError>
    requires { length networks.now < 2 ^ 32 }
    ensures { OnOk result
        (string_bytes text.new ≡ string_bytes text.old
        ++ printed (list_head ++ (listed_lines problem.now first.now 1 networks.now ++ list_end))) }
{
    text.push_str(HEAD)?;
    push_listed(alloc, text, problem, first, networks)?;
    text.push_str(END)?;
    Ok(())
}

/// Appends the list as a table; nothing if there is no network in it.
pub(crate) fn push_list(
    alloc: Global,
    text: &mut String,
    problem: &Problem,
    networks: &[Network],
) -> Result<(), AllocError>
    requires { length networks.now < 2 ^ 32 }
    ensures { OnOk result
        (string_bytes text.new ≡ string_bytes text.old
        ++ printed (list_lines problem.now networks.now)) }
{
    match networks.split_first() {
        Some((first, _)) => push_table(alloc, text, problem, first, networks),
        None => Ok(()),
    }
}
