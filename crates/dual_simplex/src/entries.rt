//! The numbers of a program from which the rows of a tableau start. None of them can leave the
//! range.
ghost use Rattle.std.specs.Prelude.{◌≡◌, ◌<◌, ◌≤◌, ◌^◌, ◌*◌, ◌+◌, ◌+ℤ◌, ◌-ℤ◌, ◌*ℤ◌, neg_ℤ, length};
ghost use Rattle.std.specs.Prelude.{unsigned_abs};
ghost use Rattle.flow_program.specs.flow_rules.LinearProgram.{linear_of, low_flow};

use flow_program::Program;

/// The rate of a unit in a row.
pub(crate) fn rate(program: &Program, row: usize, unit: usize) -> i128
    requires row { row < length program.now.rows }
    requires unit { unit < length program.now.units }
    ensures value { result ≡ (linear_of program.now).rate row unit }
    ensures small { unsigned_abs result ≤ 10 ^ 15 }
{
    program.is_program();
    program.rates()[unit * program.floors().len() + row]
}

/// The least size of a unit.
fn low(program: &Program, unit: usize) -> i128
    requires unit { unit < length program.now.units }
    ensures value { result ≡ (linear_of program.now).low unit }
    ensures small { unsigned_abs result ≤ 10 ^ 15 }
{
    program.is_program();
    program.lows()[unit]
}

fn highs(program: &Program) -> &[i128]
    ensures value { result.now ≡ program.now.highs }
    ensures length { length result.now ≡ length program.now.units }
{
    program.is_program();
    program.highs()
}

fn high(program: &Program, unit: usize) -> i128
    requires unit { unit < length program.now.units }
    ensures value { result ≡ (linear_of program.now).high unit }
    ensures small { unsigned_abs result ≤ 10 ^ 15 }
{
    program.is_program();
    highs(program)[unit]
}

fn floor(program: &Program, row: usize) -> i128
    requires row { row < length program.now.rows }
    ensures value { result ≡ (linear_of program.now).floor row }
    ensures small { unsigned_abs result ≤ 10 ^ 21 }
{
    program.is_program();
    program.floors()[row]
}

fn ceilings(program: &Program) -> &[i128]
    ensures value { result.now ≡ program.now.ceilings }
    ensures length { length result.now ≡ length program.now.rows }
{
    program.is_program();
    program.ceilings()
}

fn ceiling(program: &Program, row: usize) -> i128
    requires row { row < length program.now.rows }
    ensures value { result ≡ (linear_of program.now).ceiling row }
    ensures small { unsigned_abs result ≤ 10 ^ 21 }
{
    program.is_program();
    ceilings(program)[row]
}

/// What a size of 1 costs.
pub(crate) fn cost(program: &Program, unit: usize) -> i128
    requires unit { unit < length program.now.units }
    ensures value { result ≡ (linear_of program.now).cost unit }
    ensures small { unsigned_abs result ≤ 10 ^ 36 }
{
    program.is_program();
    program.costs()[unit]
}

/// What is between the ends of a unit.
pub(crate) fn width_of(program: &Program, unit: usize) -> i128
    requires unit { unit < length program.now.units }
    ensures value { result ≡ (linear_of program.now).high unit -ℤ (linear_of program.now).low unit }
    ensures small { unsigned_abs result ≤ 10 ^ 36 }
{
    high(program, unit) - low(program, unit)
}

fn product(rate: i128, low: i128) -> i128
    requires rate { unsigned_abs rate ≤ 10 ^ 15 }
    requires low { unsigned_abs low ≤ 10 ^ 15 }
    ensures value { result ≡ rate *ℤ low }
    ensures small { unsigned_abs result ≤ 10 ^ 30 }
{
    rate * low
}

fn plus(sum: i128, product: i128) -> i128
    requires sum { unsigned_abs sum ≤ 128 * 10 ^ 30 }
    requires product { unsigned_abs product ≤ 10 ^ 30 }
    ensures value { result ≡ sum +ℤ product }
    ensures small { unsigned_abs result ≤ unsigned_abs sum + 10 ^ 30 }
{
    sum + product
}

/// What a row is at the lower ends of the units.
fn flow_at_lows(program: &Program, row: usize) -> i128
    requires row { row < length program.now.rows }
    ensures value { result ≡ low_flow (linear_of program.now) row }
    ensures small { unsigned_abs result ≤ 128 * 10 ^ 30 }
{
    program.is_program();
    let mut sum = 0;
    for unit in 0..program.lows().len() {
        let flow = product(rate(program, row, unit), low(program, unit));
        sum = plus(sum, flow);
    }
    sum
}

/// What a row is above its floor at the lower ends of the units.
pub(crate) fn above_floor(program: &Program, row: usize) -> i128
    requires row { row < length program.now.rows }
    ensures value { result
        ≡ neg_ℤ ((linear_of program.now).floor row -ℤ low_flow (linear_of program.now) row) }
    ensures small { unsigned_abs result ≤ 10 ^ 36 }
{
    flow_at_lows(program, row) - floor(program, row)
}

/// What is left of a row to its ceiling at the lower ends of the units.
pub(crate) fn below_ceiling(program: &Program, row: usize) -> i128
    requires row { row < length program.now.rows }
    ensures value { result ≡ (linear_of program.now).ceiling row -ℤ low_flow (linear_of program.now)
        row }
    ensures small { unsigned_abs result ≤ 10 ^ 36 }
{
    ceiling(program, row) - flow_at_lows(program, row)
}
