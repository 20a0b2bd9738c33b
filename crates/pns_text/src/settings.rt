//! The defaults, and the values of materials and units, given the defaults.
ghost use Rattle.std.specs.Prelude.{◌≡◌, ◌/◌, codes, option_map, pos, unsigned_abs};
ghost use Rattle.text_lines.specs.problem_rules.Problem.{intermediate};
ghost use Rattle.pns_problem.specs.Kind.{kind_of};
ghost use Rattle.text_lines.specs.text_rules.Value as value;
ghost use Rattle.text_lines.specs.text_rules.Value.{value_at, item_fields, default_fields};
ghost use Rattle.text_lines.specs.text_rules.Value.{number_at, kind_or};
ghost use Rattle.text_lines.specs.text_rules.Value.{settings_of, payout_from, is_material_turned};
ghost use Rattle.text_lines.specs.text_rules.Value.{is_unit_turned};

use crate::cut::Kept;
use crate::item::{Item, field_at};
use pns_problem::Kind;
use std::marker::Model;
use text_lines::amount::millionths;
use text_lines::field::{key_of, value_of};

/// What applies to materials and units whose lines do not say otherwise. Prices, bounds and costs
/// are in millionths.
#[derive(Drop)]
pub struct Settings {
    pub kind: Kind,
    pub price: i64,
    pub flow_lower: i64,
    pub flow_upper: i64,
    pub capacity_lower: i64,
    pub capacity_upper: i64,
    pub fix: i64,
    pub proportional: i64,
    pub investment_fix: i64,
    pub investment_proportional: i64,
}

impl Model for Settings {
    ghost use Rattle.text_lines.specs.text_rules.Value as rules;
    ghost use Rattle.pns_problem.specs.Kind.{kind_of};

    ghost Value = { rules.Settings };

    ghost view = { λ s. record {
      kind = kind_of s.kind;
      price = s.price;
      flow_lower = s.flow_lower;
      flow_upper = s.flow_upper;
      capacity_lower = s.capacity_lower;
      capacity_upper = s.capacity_upper;
      fix = s.fix;
      proportional = s.proportional;
      investment_fix = s.investment_fix;
      investment_proportional = s.investment_proportional;
    } };
}

// The kind that the word stands for.
fn kind_named(word: &[u8]) -> Kind
    ensures { kind_of result ≡ value.kind_of word.now }
{
    if word == b"raw_material".as_slice() {
        Kind::RawMaterial
    } else if word == b"product".as_slice() {
        Kind::Product
    } else {
        Kind::Intermediate
    }
}

// The value of the default of this key.
fn default_at<'a>(lines: &[Kept<'a>], key: &[u8]) -> Option<&'a [u8]>
    ensures { option_map (λ value. value.now) result ≡ value_at key.now (default_fields lines.now) }
{
    for line in lines {
        if line.is_default() && key_of(line.text()) == key {
            return Some(value_of(line.text()));
        }
    }
    None
}

// The number of the default of this key, or else the value that is built in.
fn default_number(lines: &[Kept<'_>], key: &[u8], built_in: i64) -> i64
    ensures { result ≡ number_at key.now (default_fields lines.now) built_in }
{
    match default_at(lines, key) {
        Some(text) => millionths(text),
        None => built_in,
    }
}

/// The number of the first item of this key, or else the default.
pub(crate) fn number_at(items: &[Item<'_>], key: &[u8], default: i64) -> i64
    ensures { result ≡ number_at key.now (item_fields items.now) default }
{
    match field_at(items, key) {
        Some(item) => item.number(),
        None => default,
    }
}

/// The kind of a material by its items, or else the default.
pub(crate) fn kind_at(items: &[Item<'_>], default: Kind) -> Kind
    ensures { kind_of result ≡ kind_or (value_at (codes "material_type") (item_fields items.now))
        (kind_of default) }
{
    match field_at(items, b"material_type") {
        Some(item) => kind_named(item.value()),
        None => default,
    }
}

// The kind of materials whose lines have no kind word.
fn default_kind(lines: &[Kept<'_>]) -> Kind
    ensures { kind_of result ≡ kind_or (value_at (codes "material_type") (default_fields lines.now))
        intermediate }
{
    match default_at(lines, b"material_type") {
        Some(word) => kind_named(word),
        None => Kind::Intermediate,
    }
}

// 10^9 in millionths: the upper bounds if nothing else is said.
const MUCH: i64 = 1_000_000_000_000_000;

/// The settings that the lines of defaults give.
pub(crate) fn settings_of(lines: &[Kept<'_>]) -> Settings
    ensures { result ≡ settings_of lines.now }
{
    Settings {
        kind: default_kind(lines),
        price: default_number(lines, b"material_price", 0),
        flow_lower: default_number(lines, b"material_flow_rate_lower_bound", 0),
        flow_upper: default_number(lines, b"material_flow_rate_upper_bound", MUCH),
        capacity_lower: default_number(lines, b"operating_unit_capacity_lower_bound", 0),
        capacity_upper: default_number(lines, b"operating_unit_capacity_upper_bound", MUCH),
        fix: default_number(lines, b"operating_unit_fix_cost", 0),
        proportional: default_number(lines, b"operating_unit_proportional_cost", 0),
        investment_fix: default_number(lines, b"operating_unit_investment_fix_cost", 0),
        investment_proportional: default_number(
            lines,
            b"operating_unit_investment_proportional_cost",
            0,
        ),
    }
}

// So many whole millions.
fn millions(amount: i64) -> i64
    ensures { result ≡ pos (unsigned_abs amount / 1000000) }
{
    (amount.unsigned_abs() / 1_000_000) as i64
}

/// The payout period in whole years.
pub(crate) fn payout_of(lines: &[Kept<'_>]) -> i64
    ensures { result ≡ payout_from lines.now }
{
    millions(default_number(lines, b"payout_period", 1_000_000))
}

impl Settings {
    /// Whether the lower bound of a material with these items is above its upper bound.
    pub(crate) fn is_material_turned(&self, items: &[Item<'_>]) -> bool
        ensures { result ≡ is_material_turned self.now (item_fields items.now) }
    {
        let upper = number_at(items, b"flow_rate_upper_bound", self.flow_upper);
        let lower = number_at(items, b"flow_rate_lower_bound", self.flow_lower);
        upper < lower
    }

    /// Whether the lower bound of a unit with these items is above its upper bound.
    pub(crate) fn is_unit_turned(&self, items: &[Item<'_>]) -> bool
        ensures { result ≡ is_unit_turned self.now (item_fields items.now) }
    {
        let upper = number_at(items, b"capacity_upper_bound", self.capacity_upper);
        let lower = number_at(items, b"capacity_lower_bound", self.capacity_lower);
        upper < lower
    }
}
