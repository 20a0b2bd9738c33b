//! The JSON object of a table.
ghost use Rattle.std.specs.Prelude.{◌≡◌, ◌<ℤ◌, pos, IfOk, map, codes};
ghost use Rattle.report_rules.specs.integer_laws.Range.{InRange};
ghost use Rattle.tree_reading.specs.pns_problem.Printing.{printed};
ghost use Rattle.report_rules.specs.flow_rules.Net.{million};
ghost use Rattle.report_rules.specs.Amounts.{quotient};
ghost use Rattle.report_rules.specs.Json.{member, truth};
ghost use Rattle.report_rules.specs.Object as rules;

use crate::{Json, push_comma_lines, push_line, text_member};
use report_rules::{End, Row, Spot};
use report_tables::Number;
use std::alloc::{AllocError, Global};
use tree_reading::Problem;

fn kind_word(spot: Spot) -> &'static str
    ensures { result.now ≡ rules.kind_word spot }
{
    match spot {
        Spot::Price(_) => "price",
        Spot::Fix(_) => "fix",
        Spot::Proportional(_) => "proportional",
    }
}

fn name_of(problem: &Problem, spot: Spot) -> &str
    ensures { result.now ≡ rules.name_of problem.now spot }
{
    match spot {
        Spot::Price(x) => problem.material_name(x),
        Spot::Fix(u) | Spot::Proportional(u) => problem.unit_name(u),
    }
}

/// num / den.
#[tactic(auto, unfolding(crate::specs::Unfolded::quotient))]
fn quotient(num: i128, den: i128) -> Number
    requires num_in_range { InRange num }
    requires den_in_range { InRange den }
    requires positive { pos 0 <ℤ den }
    ensures { result ≡ quotient num den }
{
    Number::of(num, den)
}

/// A value in millionths.
fn money(value: i64) -> Number
    ensures { result ≡ quotient value million }
{
    quotient(i128::from(value), 1_000_000)
}

fn value_json(alloc: Global, value: i64) -> Result<Json, AllocError>
    ensures { IfOk result (λ json. json ≡ rules.value_json value) }
{
    Json::number(alloc, money(value).fraction())
}

fn end_json(alloc: Global, end: End) -> Result<Json, AllocError>
    ensures { IfOk result (λ json. json ≡ rules.end_json end) }
{
    match end {
        End::Value(value) => value_json(alloc, value),
        End::Limit | End::Unknown => Json::null(alloc),
    }
}

/// An end under its key.
fn end_member(alloc: Global, key: &str, end: End) -> Result<Json, AllocError>
    ensures { IfOk result (λ json. json ≡ member key.now (rules.end_json end)) }
{
    let value = end_json(alloc, end)?;
    Json::member(alloc, key, &value)
}

/// The value that there is now, under its key.
fn now_member(alloc: Global, row: &Row) -> Result<Json, AllocError>
    ensures { IfOk result
        (λ json. json ≡ member (codes "now") (rules.value_json row.now.value)) }
{
    let value = value_json(alloc, row.value)?;
    Json::member(alloc, "now", &value)
}

/// Whether something holds, under its key.
fn truth_member(alloc: Global, key: &str, holds: bool) -> Result<Json, AllocError>
    ensures { IfOk result (λ json. json ≡ member key.now (truth holds)) }
{
    let value = Json::truth(alloc, holds)?;
    Json::member(alloc, key, &value)
}

fn is_limit(end: End) -> bool
    ensures { result ≡ rules.is_limit end }
{
    match end {
        End::Limit => true,
        End::Value(_) | End::Unknown => false,
    }
}

fn is_unknown(end: End) -> bool
    ensures { result ≡ rules.is_unknown end }
{
    match end {
        End::Unknown => true,
        End::Value(_) | End::Limit => false,
    }
}

fn is_finished(row: &Row) -> bool
    ensures { result ≡ rules.is_finished row.now }
{
    !(is_unknown(row.from) || is_unknown(row.to))
}

fn row_json(alloc: Global, problem: &Problem, row: &Row) -> Result<Json, AllocError>
    ensures { IfOk result (λ json. json ≡ rules.row_json problem.now row.now) }
{
    let kind = text_member(alloc, "kind", kind_word(row.spot))?;
    let name = text_member(alloc, "name", name_of(problem, row.spot))?;
    let from = end_member(alloc, "from", row.from)?;
    let now = now_member(alloc, row)?;
    let to = end_member(alloc, "to", row.to)?;
    let from_limit = truth_member(alloc, "from_limit", is_limit(row.from))?;
    let to_limit = truth_member(alloc, "to_limit", is_limit(row.to))?;
    let finished = truth_member(alloc, "finished", is_finished(row))?;
    let members = [kind, name, from, now, to, from_limit, to_limit, finished];
    let json = Json::object(alloc, &members)?;
    Ok(json)
}

fn row_values(alloc: Global, problem: &Problem, rows: &[Row]) -> Result<Vec<Json>, AllocError>
    ensures { IfOk result (λ values. values.items ≡ map (rules.row_json problem.now) rows.now) }
{
    let mut values = Vec::new(alloc);
    'values: for row in rows {
        values.push(row_json(alloc, problem, row)?)?;
    }
    Ok(values)
}

/// The object of the rows of a table.
pub fn table_json(alloc: Global, problem: &Problem, rows: &[Row]) -> Result<Vec<u8>, AllocError>
    ensures { IfOk result
        (λ bytes. bytes.items ≡ printed (rules.table_lines problem.now rows.now)) }
{
    let values = row_values(alloc, problem, rows)?;
    let mut text = Vec::new(alloc);
    push_line(&mut text, b"{")?;
    push_line(&mut text, b"\"claim\": \"ranges\",")?;
    push_line(&mut text, b"\"ranges\": [")?;
    push_comma_lines(&mut text, &values)?;
    push_line(&mut text, b"]")?;
    push_line(&mut text, b"}")?;
    Ok(text)
}
