//! Lines whose numbers are those of the plant.
ghost use Rattle.std.specs.Prelude.{IsTrue, IfSome};
ghost use Rattle.tree_parts.specs.problem_rules.Each.{Each};
ghost use Rattle.tree_parts.specs.tree_rules.Known.{IsUnit, IsMaterial, AreUnits, KnowsStep};
ghost use Rattle.tree_parts.specs.tree_rules.Known.{KnowsCover};
ghost use Rattle.tree_parts.specs.tree_rules.Known.{KnowsCharge};
ghost use Rattle.tree_parts.specs.pgraph.View.{step_of};
ghost use Rattle.tree_parts.specs.pgraph.CoversView.{cover_of, covers_of};
ghost use Rattle.tree_parts.specs.tree_rules.Charged.{handed};
ghost use Rattle.tree_parts.specs.tree_rules.HeadKnown.{KnowsLine, KnowsHead};
ghost use Rattle.tree_parts.specs.branch_tree.HeadView.{line_of, lines_of};

use tree_parts::{Cover, Covers, HeadLine, Scaled, Site, Step, UnitSet};

fn knows_unit(site: &Site<'_>, unit: u32) -> bool
    ensures { IsTrue result → IsUnit site.now unit }
{
    unit < site.graph().unit_count()
}

fn knows_material(site: &Site<'_>, material: u32) -> bool
    ensures { IsTrue result → IsMaterial site.now material }
{
    material < site.graph().material_count()
}

fn knows_units(site: &Site<'_>, units: UnitSet) -> bool
    ensures { IsTrue result → AreUnits site.now units }
{
    units.rises();
    units.within(UnitSet::below(site.graph().unit_count()))
}

fn knows_step(site: &Site<'_>, step: Step) -> bool
    ensures { IsTrue result → KnowsStep site.now (step_of step) }
{
    match step {
        Step::Raw(unit) => knows_unit(site, unit),
        Step::Rival(unit) => knows_unit(site, unit),
        Step::Starve(material) => knows_material(site, material),
        Step::Loose(units) => knows_units(site, units),
        Step::Sole { material, unit } => knows_material(site, material) && knows_unit(site, unit),
    }
}

/// Whether the plant has the unit beside a set, if there is one.
fn knows_beside(site: &Site<'_>, beside: Option<u32>) -> bool
    ensures { IsTrue result → IfSome beside (IsUnit site.now) }
{
    match beside {
        Some(unit) => knows_unit(site, unit),
        None => true,
    }
}

fn knows_cover(site: &Site<'_>, cover: &Cover) -> bool
    ensures { IsTrue result → KnowsCover site.now (cover_of cover.now) }
{
    cover.weight >= 0
        && !cover.units.is_empty()
        && knows_beside(site, cover.beside)
        && knows_units(site, cover.units)
}

fn knows_covers(site: &Site<'_>, covers: &[Cover]) -> bool
    ensures { IsTrue result → Each (KnowsCover site.now) (covers_of covers.now) }
{
    'covers: for i in 0..covers.len() {
        let cover = &covers[i];
        if !knows_cover(site, cover) {
            return false;
        }
    }
    true
}

fn knows_charge(site: &Site<'_>, scaled: &Scaled, covers: &Covers) -> bool
    ensures { IsTrue result → KnowsCharge site.now (handed scaled.now.d scaled.now.ys covers.now) }
{
    scaled.are_in_range();
    covers.are_kept();
    knows_covers(site, covers.covers())
}

fn knows_line(site: &Site<'_>, line: &HeadLine) -> bool
    ensures { IsTrue result → KnowsLine site.now (line_of line.now) }
{
    match line {
        HeadLine::Step(step) => knows_step(site, *step),
        HeadLine::Cap {
            unit,
            size,
            scaled,
            covers,
        } => *size >= 0 && knows_unit(site, *unit) && knows_charge(site, scaled, covers),
        HeadLine::Out {
            unit,
            scaled,
            covers,
        } => knows_unit(site, *unit) && knows_charge(site, scaled, covers),
        HeadLine::Trim(unit) => knows_unit(site, *unit),
        HeadLine::Use {
            material,
            amount,
            worth,
            scaled,
            covers,
        } => {
            *amount >= 0
                && *worth >= 0
                && knows_material(site, *material)
                && knows_charge(site, scaled, covers)
        }
    }
}

/// Whether the plant has each unit and material of the lines.
pub(crate) fn knows_lines(site: &Site<'_>, lines: &[HeadLine]) -> bool
    ensures { IsTrue result → KnowsHead site.now (lines_of lines.now) }
{
    'lines: for i in 0..lines.len() {
        let line = &lines[i];
        if !knows_line(site, line) {
            return false;
        }
    }
    true
}
