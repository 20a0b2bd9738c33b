//! Terms with their materials by name and by number.
ghost use Rattle.std.specs.Prelude.{◌≡◌, ◌≤◌, false, Some, None, OnOk, IfOk, IfErr, length, cond};
ghost use Rattle.edit_laws.specs.edit_rules.Place.{numbered_terms, named_terms, lacks_material};
ghost use Rattle.edit_laws.specs.edit_rules.Fault.{unknown_name};
ghost use Rattle.pns_edits.specs.Answer.{Tells};
ghost use Rattle.pns_edits.specs.Terms.{AreTermsBelow};

use crate::place::material_place;
use edit_scripts::{LineFault, NamedTerm, Parts, Term};
use std::alloc::{AllocError, Global};

/// The terms with their materials by number, if the parts have them all.
pub(crate) fn numbered_terms(
    alloc: Global,
    parts: &Parts,
    terms: &[NamedTerm],
) -> Result<Vec<Term>, LineFault>
    requires { length parts.now.materials ≤ 256 }
    ensures ok { IfOk result (λ v. v.items ≡ numbered_terms parts.now terms.now) }
    ensures known { OnOk result (lacks_material parts.now terms.now ≡ false) }
    ensures unknown { IfErr result
        (Tells (cond (lacks_material parts.now terms.now) (Some unknown_name) None)) }
{
    let mut numbered = Vec::new(alloc);
    'numbering: for term in terms {
        let k = material_place(parts, &term.name)?;
        numbered.push(Term {
            material: k as u32,
            rate: term.rate,
        })?;
    }
    Ok(numbered)
}

/// The terms with their materials by name.
pub(crate) fn named_terms(
    alloc: Global,
    parts: &Parts,
    terms: &[Term],
) -> Result<Vec<NamedTerm>, AllocError>
    requires { AreTermsBelow (length parts.now.materials) terms.now }
    ensures { IfOk result (λ v. v.items ≡ named_terms parts.now terms.now) }
{
    let mut named = Vec::new(alloc);
    'naming: for term in terms {
        let name = parts.materials[term.material as usize].name.clone()?;
        named.push(NamedTerm {
            name,
            rate: term.rate,
        })?;
    }
    Ok(named)
}
