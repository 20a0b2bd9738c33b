//! The line that says how far a search is.

ghost use Rattle.std.specs.Prelude.{◌<◌};

use std::alloc::{AllocError, Global};
use studio::{Progress, push_six_digits};

/// Half of what a cost is divided by. A payout period of 0 years counts as one.
fn half_of(years: u8) -> u64
    ensures { 0 < result }
{
    if years == 0 {
        500_000_000_000
    } else {
        500_000_000_000 * u64::from(years)
    }
}

/// Appends a cost in one year.
fn push_cost(text: &mut String, years: u8, cost: i128) -> Result<(), AllocError> {
    push_six_digits(text, half_of(years), cost, 1)
}

/// By how many thousandths of its size a cost is above the bound, rounded up.
fn gap_of(best: i128, bound: i128) -> Option<u128> {
    let size = best.unsigned_abs();
    if size == 0 {
        return None;
    }
    let apart = best.checked_sub(bound)?;
    let thousandfold = apart.unsigned_abs().checked_mul(1000)?;
    let gap = thousandfold / size;
    if thousandfold % size == 0 {
        Some(gap)
    } else {
        gap.checked_add(1)
    }
}

/// Appends the least cost that a network can have, and how far the best one is above it.
fn push_bound(text: &mut String, progress: &Progress, bound: i128) -> Result<(), AllocError> {
    let least = match progress.best {
        Some(best) => bound.min(best),
        None => bound,
    };
    text.push_str(", bound ")?;
    push_cost(text, progress.years, least)?;
    let Some(best) = progress.best else {
        return Ok(());
    };
    if let Some(gap) = gap_of(best, least) {
        let whole = gap / 10;
        let tenth = gap % 10;
        write!(text, ", gap {whole}.{tenth} %")?;
    }
    Ok(())
}

/// The line on a search after so many seconds. What is not known is left out.
pub(crate) fn line_of(
    alloc: Global,
    progress: &Progress,
    seconds: u64,
) -> Result<String, AllocError> {
    let nodes = progress.nodes;
    let open = progress.open;
    let mut text = format!(in alloc; "pns: {nodes} nodes, {open} open")?;
    if let Some(best) = progress.best {
        text.push_str(", best ")?;
        push_cost(&mut text, progress.years, best)?;
    }
    if let Some(bound) = progress.bound {
        push_bound(&mut text, progress, bound)?;
    }
    write!(text, ", {seconds} s\n")?;
    Ok(text)
}
