//! Terms of one side of an operating unit, and the tests by which they are judged.
ghost use Rattle.std.specs.Prelude.{◌≡◌, ◌≤◌, false, IfOk, int_lt, pos};
ghost use Rattle.text_rules.specs.problem_rules.Problem.{rates_of};
ghost use Rattle.pns_problem.specs.Marks.{AreMarks};
ghost use Rattle.text_rules.specs.problem_rules.Validity.{is_out_of_range, any_out_of_range};
ghost use Rattle.text_rules.specs.problem_rules.Validity.{any_below_one};
ghost use Rattle.text_rules.specs.problem_rules.Validity.{names_no_material, repeats_material};
ghost use Rattle.text_rules.specs.problem_rules.Validity.{shares_material, is_empty};

use crate::amount::is_out_of_range;
use std::alloc::AllocError;
use std::marker::Model;

/// A material, by its number, and the rate in millionths at which a unit of size 1 uses or makes
/// it.
#[derive(Clone, Copy)]
pub struct Term {
    pub material: u32,
    pub rate: i64,
}

impl Model for Term {
    ghost use Rattle.text_rules.specs.problem_rules.Problem as rules;

    ghost Value = { rules.Term };

    ghost view = { λ t. record { material = t.material; rate = t.rate } };

    ghost inverse = { λ v. record { material = v.material; rate = v.rate } };
}

impl Term {
    fn is_out_of_range(&self) -> bool
        ensures { result ≡ is_out_of_range self.now.rate }
    {
        is_out_of_range(self.rate)
    }

    fn is_below_one(&self) -> bool
        ensures { result ≡ int_lt self.now.rate (pos 1) }
    {
        self.rate < 1
    }
}

pub(crate) fn any_out_of_range(terms: &[Term]) -> bool
    ensures { result ≡ any_out_of_range (rates_of terms.now) }
{
    'looking: for term in terms {
        if term.is_out_of_range() {
            return true;
        }
    }
    false
}

pub(crate) fn any_below_one(terms: &[Term]) -> bool
    ensures { result ≡ any_below_one (rates_of terms.now) }
{
    'looking: for term in terms {
        if term.is_below_one() {
            return true;
        }
    }
    false
}

pub(crate) fn names_no_material(materials: u32, terms: &[Term]) -> bool
    ensures { result ≡ names_no_material materials terms.now }
{
    'looking: for term in terms {
        if materials <= term.material {
            return true;
        }
    }
    false
}

/// Whether a material is there twice, in one pass over the terms.
pub(crate) fn repeats_material(materials: u32, terms: &[Term]) -> bool
    requires few { materials ≤ 256 }
    requires known { names_no_material materials terms.now ≡ false }
    ensures { result ≡ repeats_material terms.now }
{
    let mut marked = [false; 256];
    'looking: for term in terms {
        let number = term.material as usize;
        if marked[number] {
            return true;
        }
        marked[number] = true;
    }
    false
}

/// A mark for each material that is among the terms.
fn marks_of(materials: u32, terms: &[Term]) -> [bool; 256]
    requires few { materials ≤ 256 }
    requires known { names_no_material materials terms.now ≡ false }
    ensures { AreMarks result terms.now }
{
    let mut marked = [false; 256];
    'marking: for term in terms {
        marked[term.material as usize] = true;
    }
    marked
}

/// Whether a material of the outputs is among the inputs, in one pass over each.
pub(crate) fn shares_material(materials: u32, inputs: &[Term], outputs: &[Term]) -> bool
    requires few { materials ≤ 256 }
    requires inputs_known { names_no_material materials inputs.now ≡ false }
    requires outputs_known { names_no_material materials outputs.now ≡ false }
    ensures { result ≡ shares_material inputs.now outputs.now }
{
    let marked = marks_of(materials, inputs);
    'looking: for term in outputs {
        if marked[term.material as usize] {
            return true;
        }
    }
    false
}

pub(crate) fn is_empty(terms: &[Term]) -> bool
    ensures { result ≡ is_empty terms.now }
{
    terms.is_empty()
}

pub(crate) fn copy_terms(terms: &Vec<Term>) -> Result<Vec<Term>, AllocError>
    ensures { IfOk result (λ v. v.items ≡ terms.now.items) }
{
    let copy = terms.clone()?;
    Ok(copy)
}
