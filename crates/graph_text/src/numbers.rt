//! Sizes, flows, money, costs and the numbers of a plant.
ghost use Rattle.std.specs.Prelude.{◌≡◌, ◌++◌, ◌≤ℤ◌, ◌<ℤ◌, pos, unsigned_abs, codes, OnOk};
ghost use Rattle.std.specs.Prelude.{string_bytes};
ghost use Rattle.report_amounts.specs.integer_laws.Range.{InRange};
ghost use Rattle.report_amounts.specs.flow_rules.Net.{million};
ghost use Rattle.report_amounts.specs.report_rules.Number.{number_text};
ghost use Rattle.report_amounts.specs.report_rules.Amounts.{quotient};
ghost use Rattle.report_amounts.specs.report_rules.Drawn.{below, flow_text, way_words, money};
ghost use Rattle.report_amounts.specs.report_rules.Drawn.{money_label};
ghost use Rattle.report_amounts.specs.report_rules.Drawn.{net_label, width_words};
ghost use Rattle.report_amounts.specs.report_rules.Graph.{exact, told, cost_text};

use report_amounts::{Network, Number, Problem, push_signed, push_six_digits};
use std::alloc::AllocError;

/// A number of the plant, in millionths.
fn push_exact(text: &mut String, number: i64) -> Result<(), AllocError>
    ensures { OnOk result (string_bytes text.new ≡ string_bytes text.old ++ exact number) }
{
    push_signed(
        text,
        6,
        1_000_000,
        number < 0,
        u128::from(number.unsigned_abs()),
    )
}

/// Appends the words, and after them a number of the plant.
pub(crate) fn push_told(text: &mut String, words: &str, number: i64) -> Result<(), AllocError>
    ensures { OnOk result (string_bytes text.new ≡ string_bytes text.old ++ told words.now number) }
{
    text.push_str(words)?;
    push_exact(text, number)
}

fn without_sign(number: i128) -> i128
    requires { InRange number }
    ensures value { result ≡ pos (unsigned_abs number) }
    ensures in_range { InRange result }
{
    if number < 0 { -number } else { number }
}

/// A flow in 10^-12 over d, without its sign.
pub(crate) fn push_flow(text: &mut String, flow: i128, d: i128) -> Result<(), AllocError>
    requires in_range { InRange flow }
    requires positive { pos 1 ≤ℤ d }
    ensures { OnOk result
        (string_bytes text.new ≡ string_bytes text.old ++ flow_text flow (unsigned_abs d)) }
{
    push_six_digits(text, 500_000, without_sign(flow), d)
}

fn way(net: i128) -> &'static str
    ensures { result.now ≡ way_words net }
{
    if net < 0 { "in " } else { "out " }
}

/// num / den.
#[tactic(auto, unfolding(crate::specs::Unfolded::quotient))]
fn quotient(num: i128, den: i128) -> Number
    requires num_in_range { InRange num }
    requires den_in_range { InRange den }
    requires positive { pos 0 <ℤ den }
    ensures { result ≡ quotient num den }
{
    Number::of(num, den)
}

/// What is paid for a flow in 10^-12 over d at a price in millionths.
fn money(price: i64, flow: i128, d: i128) -> Number
    requires in_range { InRange flow }
    requires d_in_range { InRange d }
    requires positive { pos 1 ≤ℤ d }
    ensures { result ≡ money price flow d }
{
    let amount = quotient(without_sign(flow), d);
    amount.times(&quotient(i128::from(price), 1_000_000_000_000_000_000))
}

/// A price in millionths.
fn price_of(price: i64) -> Number
    ensures { result ≡ quotient price million }
{
    quotient(i128::from(price), 1_000_000)
}

/// A price and what is paid at it.
fn push_paid(text: &mut String, price: i64, flow: i128, d: i128) -> Result<(), AllocError>
    requires in_range { InRange flow }
    requires d_in_range { InRange d }
    requires positive { pos 1 ≤ℤ d }
    ensures { OnOk result
        (string_bytes text.new ≡ string_bytes text.old
        ++ (below
        ++ (codes "at "
        ++ (number_text (quotient price million)
        ++ (codes ": " ++ number_text (money price flow d)))))) }
{
    let each = price_of(price);
    let paid = money(price, flow, d);
    text.push_str("\\nat ")?;
    each.push(text)?;
    text.push_str(": ")?;
    paid.push(text)
}

/// A price, and what is paid at it. For a price of 0 nothing is appended.
fn push_money(text: &mut String, price: i64, flow: i128, d: i128) -> Result<(), AllocError>
    requires in_range { InRange flow }
    requires d_in_range { InRange d }
    requires positive { pos 1 ≤ℤ d }
    ensures { OnOk result
        (string_bytes text.new ≡ string_bytes text.old ++ money_label price flow d) }
{
    if price == 0 {
        Ok(())
    } else {
        push_paid(text, price, flow, d)
    }
}

/// What comes in or goes out, in 10^-12 over d, with the money for it.
fn push_some_net(text: &mut String, price: i64, net: i128, d: i128) -> Result<(), AllocError>
    requires in_range { InRange net }
    requires d_in_range { InRange d }
    requires positive { pos 1 ≤ℤ d }
    ensures { OnOk result
        (string_bytes text.new ≡ string_bytes text.old
        ++ (below
        ++ (way_words net ++ (flow_text net (unsigned_abs d) ++ money_label price net d)))) }
{
    text.push_str("\\n")?;
    text.push_str(way(net))?;
    push_flow(text, net, d)?;
    push_money(text, price, net, d)
}

/// The same. For an amount of 0 nothing is appended.
pub(crate) fn push_net(text: &mut String, price: i64, net: i128, d: i128) -> Result<(), AllocError>
    requires in_range { InRange net }
    requires d_in_range { InRange d }
    requires positive { pos 1 ≤ℤ d }
    ensures { OnOk result (string_bytes text.new ≡ string_bytes text.old ++ net_label price net d) }
{
    if net == 0 {
        Ok(())
    } else {
        push_some_net(text, price, net, d)
    }
}

/// Appends the cost in one year.
pub(crate) fn push_cost(
    text: &mut String,
    problem: &Problem,
    network: &Network,
) -> Result<(), AllocError>
    ensures { OnOk result
        (string_bytes text.new ≡ string_bytes text.old
        ++ cost_text problem.now network.now) }
{
    problem.is_valid();
    network.is_sized();
    let half = 500_000_000_000 * problem.payout().unsigned_abs();
    push_six_digits(text, half, network.cost(), network.d())
}

/// How wide the arc of a flow is, by the greatest one.
pub(crate) fn width(greatest: u128, flow: u128) -> &'static str
    ensures { result.now ≡ width_words greatest flow }
{
    if flow > greatest / 2 {
        "4"
    } else if flow > greatest / 4 {
        "3"
    } else if flow > greatest / 10 {
        "2"
    } else {
        "1"
    }
}
