//! Operating units, and the tests by which they are judged.
ghost use Rattle.std.specs.Prelude.{◌≡◌, ◌≤◌, ◌||◌, false, IfOk, int_lt};
ghost use Rattle.text_rules.specs.problem_rules.Validity.{bounds_out_of_range, costs_out_of_range};
ghost use Rattle.text_rules.specs.problem_rules.Validity.{rates_out_of_range, unit_out_of_range};
ghost use Rattle.text_rules.specs.problem_rules.Validity.{unit_negative, names_no_material};
ghost use Rattle.text_rules.specs.problem_rules.Validity.{repeats_material};
ghost use Rattle.text_rules.specs.problem_rules.Validity.{shares_material, is_empty};

use crate::amount::is_out_of_range;
use crate::term::{
    Term, any_below_one, any_out_of_range, copy_terms, is_empty, names_no_material,
    repeats_material, shares_material,
};
use std::alloc::{AllocError, Global};
use std::marker::Model;

/// An operating unit. Bounds limit its size. Costs have a fixed part and a part for each unit of
/// size; they are paid once a year or, for the investment costs, once in the payout period. All are
/// in millionths.
#[derive(Drop)]
pub struct OperatingUnit {
    pub name: String,
    pub lower: i64,
    pub upper: i64,
    pub fix: i64,
    pub proportional: i64,
    pub investment_fix: i64,
    pub investment_proportional: i64,
    pub inputs: Vec<Term>,
    pub outputs: Vec<Term>,
}

impl Model for OperatingUnit {
    ghost use Rattle.std.specs.Prelude.{string_bytes};
    ghost use Rattle.text_rules.specs.problem_rules.Problem as rules;

    ghost Value = { rules.OperatingUnit };

    ghost view = { λ u. record {
      name = string_bytes u.name;
      lower = u.lower;
      upper = u.upper;
      fix = u.fix;
      proportional = u.proportional;
      investment_fix = u.investment_fix;
      investment_proportional = u.investment_proportional;
      inputs = u.inputs.items;
      outputs = u.outputs.items;
    } };
}

impl OperatingUnit {
    fn bounds_out_of_range(&self) -> bool
        ensures { result ≡ bounds_out_of_range self.now }
    {
        is_out_of_range(self.lower) || is_out_of_range(self.upper)
    }

    fn costs_out_of_range(&self) -> bool
        ensures { result ≡ costs_out_of_range self.now }
    {
        is_out_of_range(self.fix)
            || is_out_of_range(self.proportional)
            || is_out_of_range(self.investment_fix)
            || is_out_of_range(self.investment_proportional)
    }

    fn rates_out_of_range(&self) -> bool
        ensures { result ≡ rates_out_of_range self.now }
    {
        any_out_of_range(&self.inputs) || any_out_of_range(&self.outputs)
    }

    pub(crate) fn is_out_of_range(&self) -> bool
        ensures { result ≡ unit_out_of_range self.now }
    {
        self.bounds_out_of_range() || self.costs_out_of_range() || self.rates_out_of_range()
    }

    pub(crate) fn is_low_above_high(&self) -> bool
        ensures { result ≡ int_lt self.now.upper self.now.lower }
    {
        self.upper < self.lower
    }

    pub(crate) fn is_negative(&self) -> bool
        ensures { result ≡ unit_negative self.now }
    {
        self.lower < 0
            || self.upper < 0
            || self.fix < 0
            || self.investment_fix < 0
            || any_below_one(&self.inputs)
            || any_below_one(&self.outputs)
    }

    pub(crate) fn names_no_material(&self, materials: u32) -> bool
        ensures { result
            ≡ (names_no_material materials self.now.inputs || names_no_material materials
            self.now.outputs) }
    {
        names_no_material(materials, &self.inputs) || names_no_material(materials, &self.outputs)
    }

    pub(crate) fn repeats_material(&self, materials: u32) -> bool
        requires few { materials ≤ 256 }
        requires known { (names_no_material materials self.now.inputs || names_no_material materials
            self.now.outputs) ≡ false }
        ensures { result ≡ (repeats_material self.now.inputs || repeats_material self.now.outputs) }
    {
        repeats_material(materials, &self.inputs) || repeats_material(materials, &self.outputs)
    }

    pub(crate) fn shares_material(&self, materials: u32) -> bool
        requires few { materials ≤ 256 }
        requires known { (names_no_material materials self.now.inputs || names_no_material materials
            self.now.outputs) ≡ false }
        ensures { result ≡ shares_material self.now.inputs self.now.outputs }
    {
        shares_material(materials, &self.inputs, &self.outputs)
    }

    pub(crate) fn has_empty_side(&self) -> bool
        ensures { result ≡ (is_empty self.now.inputs || is_empty self.now.outputs) }
    {
        is_empty(&self.inputs) || is_empty(&self.outputs)
    }

    pub(crate) fn copy(&self) -> Result<OperatingUnit, AllocError>
        ensures { IfOk result (λ u. u ≡ self.now) }
    {
        let name = self.name.clone()?;
        let inputs = copy_terms(&self.inputs)?;
        let outputs = copy_terms(&self.outputs)?;
        Ok(OperatingUnit {
            name,
            lower: self.lower,
            upper: self.upper,
            fix: self.fix,
            proportional: self.proportional,
            investment_fix: self.investment_fix,
            investment_proportional: self.investment_proportional,
            inputs,
            outputs,
        })
    }
}

pub(crate) fn copy_units(
    alloc: Global,
    units: &[OperatingUnit],
) -> Result<Vec<OperatingUnit>, AllocError>
    ensures { IfOk result (λ v. v.items ≡ units.now) }
{
    let mut copies = Vec::new(alloc);
    'copying: for unit in units {
        let copy = unit.copy()?;
        copies.push(copy)?;
    }
    Ok(copies)
}
