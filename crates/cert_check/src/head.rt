//! The lines of a head, one after another.
ghost use Rattle.std.specs.Prelude.{◌≡◌, IfOk, IfErr};
ghost use Rattle.tree_text_rules.specs.pns_rules.Shape.{shape_of};
ghost use Rattle.charges.specs.pgraph.View.{node_of};
ghost use Rattle.tree_text_rules.specs.tree_rules.Accepted.{first_node};
ghost use Rattle.cert_check.specs.Known.{KnowsInside};
ghost use Rattle.cert_check.specs.Shown.{cost_over};
ghost use Rattle.tree_text_rules.specs.tree_rules.Head.{known_first, after_lines, LinesPass};
ghost use Rattle.tree_text_rules.specs.tree_rules.HeadFaults.{IsFirstToFail};
ghost use Rattle.branch_tree.specs.HeadView.{lines_of};
ghost use Rattle.cert_check.specs.View.{known_of};

use crate::known::Known;
use crate::line::judge_line;
use branch_tree::HeadLine;
use charges::{CostOver, Site};
use tree_text_rules::LineWhy;

/// The first line of a head that fails, counted from 0, and why.
#[derive(Clone, Copy, Debug, PartialEq, Eq)]
pub struct HeadFault {
    pub line: usize,
    pub why: LineWhy,
}

/// Judges the lines of a head in order, and gives what is known after them, or the first that
/// fails.
pub fn judge_head(
    site: &Site<'_>,
    claimed: Option<CostOver>,
    lines: &[HeadLine],
) -> Result<Known, HeadFault>
    ensures passes { IfOk result
        (λ k. LinesPass site.now (cost_over claimed) (known_first site.now first_node)
        (lines_of lines.now)) }
    ensures known { IfOk result
        (λ k. known_of k ≡ after_lines site.now (known_first site.now first_node)
        (lines_of lines.now)) }
    ensures inside { IfOk result (λ k. KnowsInside (shape_of site.now) (node_of k.node)) }
    ensures fails { IfErr result
        (λ f. IsFirstToFail site.now (cost_over claimed) (known_first site.now first_node)
        (lines_of lines.now) f.line f.why) }
{
    let mut known = Known::first(site.problem());
    'lines: for i in 0..lines.len() {
        let line = &lines[i];
        match judge_line(site, &known, claimed, line) {
            Ok(next) => known = next,
            Err(why) => return Err(HeadFault { line: i, why }),
        }
    }
    Ok(known)
}
