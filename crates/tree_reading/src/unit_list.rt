//! Sets of units, which are in file order.
ghost use Rattle.std.specs.Prelude.{◌≡◌, ◌&&◌, Ok, Err, IfOk, IfErr, nat_le};
ghost use Rattle.tree_text_rules.specs.tree_rules.Known.{AreUnits};
ghost use Rattle.tree_text_rules.specs.Token as rules;
ghost use Rattle.tree_reading.specs.View.{tokens_in};

use crate::line::first_token;
use crate::name::unit_of;
use branch_tree::{Problem, UnitSet};
use tree_text_rules::TreeKind;

// Whether units rise with one more: they rise without it (`rises`), and `least` is the least number
// above them.
fn goes_on(rises: bool, least: u32, unit: u32) -> bool
    ensures { result ≡ (rises && nat_le least unit) }
{
    rises && least <= unit
}

/// The set of units of what is left of a line.
#[tactic(auto, using(crate::proofs::RisingUnits::all_read))]
pub fn units_of(problem: &Problem, fields: Option<&[u8]>) -> Result<UnitSet, TreeKind>
    ensures ok { IfOk result (λ us. rules.units_of problem.now (tokens_in fields.entry) ≡ Ok us) }
    ensures known { IfOk result (AreUnits problem.now) }
    ensures fault { IfErr result
        (λ kind. rules.units_of problem.now (tokens_in fields.entry) ≡ Err kind) }
{
    problem.is_valid();
    let mut units = UnitSet::empty();
    let mut least = 0;
    let mut rises = true;
    let mut rest = fields;
    'reading: while let Some(left) = rest {
        let (token, behind) = first_token(left);
        let unit = unit_of(problem, token)?;
        rises = goes_on(rises, least, unit);
        units = units.with(unit);
        least = least.max(unit + 1);
        rest = behind;
    }
    if rises {
        units.rises();
        Ok(units)
    } else {
        Err(TreeKind::Order)
    }
}
