//! The operating units of a generated problem.
ghost use Rattle.std.specs.Prelude.{◌≡◌, ◌≤◌, ◌<◌, ◌∷◌, [], IfOk, OnOk};
ghost use Rattle.text_rules.specs.problem_rules.Draws.{next_state, state_after};
ghost use Rattle.text_rules.specs.problem_rules.Generated.{target, stage, input, term, unit};
ghost use Rattle.text_rules.specs.problem_rules.Generated.{units_of};

use crate::draws::Draws;
use crate::materials::{numbered, whole};
use crate::{OperatingUnit, Term};
use std::alloc::{AllocError, Global};

/// The material number of a target.
fn target(number: u32) -> u32
    requires { number < 128 }
    ensures { result ≡ target number }
{
    3 + number
}

/// What a unit of the stage uses.
fn input(at: u32, draws: &mut Draws) -> u32
    requires { at < 128 }
    ensures input { result ≡ input at draws.old.state }
    ensures advanced { draws.new.state ≡ next_state draws.old.state }
{
    if at == 0 {
        return draws.draw(3);
    }
    if draws.draw(4) < 3 { target(at - 1) } else { 2 }
}

/// One side of a unit, with one material.
fn side(alloc: Global, material: u32, rate: u32) -> Result<Vec<Term>, AllocError>
    ensures { IfOk result (λ v. v.items ≡ term material rate ∷ []) }
{
    let mut terms = Vec::new(alloc);
    terms.push(Term {
        material,
        rate: whole(rate),
    })?;
    Ok(terms)
}

fn unit(
    alloc: Global,
    count: u32,
    draws: &mut Draws,
    number: u32,
) -> Result<OperatingUnit, AllocError>
    requires { count < 128 }
    ensures unit { IfOk result (λ u. u ≡ unit count draws.old.state number) }
    ensures advanced { OnOk result (draws.new.state ≡ state_after 5 draws.old.state) }
{
    let at = number % (count + 1);
    let used = input(at, draws);
    let rate = 1 + draws.draw(2);
    let fix = 1 + draws.draw(50);
    let proportional = 1 + draws.draw(5);
    let upper = 100 + draws.draw(100);
    let name = numbered(alloc, "U", number)?;
    let inputs = side(alloc, used, 1)?;
    let outputs = side(alloc, target(at), rate)?;
    Ok(OperatingUnit {
        name,
        lower: 0,
        upper: whole(upper),
        fix: whole(fix),
        proportional: whole(proportional),
        investment_fix: 0,
        investment_proportional: 0,
        inputs,
        outputs,
    })
}

/// So many units, over so many intermediates.
pub(crate) fn units_of(
    alloc: Global,
    count: u32,
    draws: &mut Draws,
    units: u32,
) -> Result<Vec<OperatingUnit>, AllocError>
    requires { count < 128 }
    ensures { IfOk result (λ v. v.items ≡ units_of count draws.old.state units) }
{
    let mut made = Vec::new(alloc);
    'making: for number in 0..units {
        made.push(unit(alloc, count, draws, number)?)?;
    }
    Ok(made)
}
