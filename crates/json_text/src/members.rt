//! Values under their keys.
ghost use Rattle.std.specs.Prelude.{◌≡◌, IfOk, codes};
ghost use Rattle.report_rules.specs.Json.{null, member};
ghost use Rattle.report_rules.specs.Facts as facts;

use crate::Json;
use report_tables::Number;
use std::alloc::{AllocError, Global};

/// The word `null` under the key.
pub fn null_member(alloc: Global, key: &str) -> Result<Json, AllocError>
    ensures { IfOk result (λ json. json ≡ member key.now null) }
{
    Json::member(alloc, key, &Json::null(alloc)?)
}

/// A string under the key.
pub fn text_member(alloc: Global, key: &str, words: &str) -> Result<Json, AllocError>
    ensures { IfOk result (λ json. json ≡ facts.text_member key.now words.now) }
{
    Json::member(alloc, key, &Json::string(alloc, words)?)
}

/// A whole number under the key.
pub fn count_member(alloc: Global, key: &str, number: u64) -> Result<Json, AllocError>
    ensures { IfOk result (λ json. json ≡ facts.count_member key.now number) }
{
    Json::member(alloc, key, &Json::count(alloc, number)?)
}

/// A number under the key.
pub(crate) fn number_member(alloc: Global, key: &str, number: &Number) -> Result<Json, AllocError>
    ensures { IfOk result (λ json. json ≡ facts.number_member key.now number.now) }
{
    Json::member(alloc, key, &Json::number(alloc, number.fraction())?)
}

#[tactic(auto, unfolding(crate::specs::Unfolded::limit_json))]
fn limit_json(alloc: Global, words: &str) -> Result<Json, AllocError>
    ensures { IfOk result (λ json. json ≡ facts.limit_json words.now) }
{
    if words == "-" {
        Json::null(alloc)
    } else {
        Json::string(alloc, words)
    }
}

/// The word on the bound that a number is at.
pub(crate) fn limit_member(alloc: Global, words: &str) -> Result<Json, AllocError>
    ensures { IfOk result (λ json. json ≡ facts.limit_member words.now) }
{
    Json::member(alloc, "limit", &limit_json(alloc, words)?)
}
