//! Names of units, materials and exclusions.
ghost use Rattle.std.specs.Prelude.{◌≡◌, ◌<◌, IfOk, length};
ghost use Rattle.tree_text_rules.specs.LineRead.{one};
ghost use Rattle.tree_text_rules.specs.Token as rules;
ghost use Rattle.tree_reading.specs.View.{tokens_in};

use crate::apart::only;
use branch_tree::Problem;
use std::str;
use tree_text_rules::TreeKind;

/// The number of the unit of this name.
pub fn unit_of(problem: &Problem, token: &[u8]) -> Result<u32, TreeKind>
    ensures value { result ≡ rules.unit_of problem.now token.now }
    ensures below { IfOk result (λ u. u < length problem.now.units) }
{
    problem.is_valid();
    match str::from_utf8(token) {
        Ok(name) => problem.unit_named(name).ok_or(TreeKind::UnknownName),
        Err(_) => Err(TreeKind::UnknownName),
    }
}

/// The number of the material of this name.
pub fn material_of(problem: &Problem, token: &[u8]) -> Result<u32, TreeKind>
    ensures value { result ≡ rules.material_of problem.now token.now }
    ensures below { IfOk result (λ x. x < length problem.now.materials) }
{
    problem.is_valid();
    match str::from_utf8(token) {
        Ok(name) => problem.material_named(name).ok_or(TreeKind::UnknownName),
        Err(_) => Err(TreeKind::UnknownName),
    }
}

/// The number of the unit whose name is the one token that is left.
#[tactic(auto, using(crate::proofs::Counted::not_one))]
pub fn one_unit(problem: &Problem, fields: Option<&[u8]>) -> Result<u32, TreeKind>
    ensures value { result ≡ one (rules.unit_of problem.now) (tokens_in fields.entry) }
    ensures below { IfOk result (λ u. u < length problem.now.units) }
{
    unit_of(problem, only(fields)?)
}

/// The number of the material whose name is the one token that is left.
#[tactic(auto, using(crate::proofs::Counted::not_one))]
pub fn one_material(problem: &Problem, fields: Option<&[u8]>) -> Result<u32, TreeKind>
    ensures value { result ≡ one (rules.material_of problem.now) (tokens_in fields.entry) }
    ensures below { IfOk result (λ x. x < length problem.now.materials) }
{
    material_of(problem, only(fields)?)
}

/// The number of the exclusion of this name. A problem has few, so they are searched one by one.
pub fn exclusion_of(problem: &Problem, token: &[u8]) -> Result<u32, TreeKind>
    ensures value { result ≡ rules.exclusion_of problem.now token.now }
    ensures below { IfOk result (λ k. k < length problem.now.exclusions) }
{
    problem.is_valid();
    let exclusions = problem.exclusions();
    let mut number: u32 = 0;
    'looking: for exclusion in exclusions {
        if exclusion.name.as_bytes() == token {
            return Ok(number);
        }
        number += 1;
    }
    Err(TreeKind::UnknownName)
}
