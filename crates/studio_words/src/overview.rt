//! The commands on one screen, and which program this is.
ghost use Rattle.std.specs.Prelude.{◌≡◌};
ghost use Rattle.studio_rules.specs.Overview.{overview, version};

use studio_rules::{OVERVIEW, VERSION};

/// The commands on one screen.
#[tactic(auto, unfolding(studio_rules::specs::Overview::overview))]
pub fn overview_text() -> &'static [u8]
    ensures { result.now ≡ overview }
{
    OVERVIEW
}

/// The program, its version, and the formats of its files.
#[tactic(auto, unfolding(studio_rules::specs::Overview::version))]
pub fn version_text() -> &'static [u8]
    ensures { result.now ≡ version }
{
    VERSION
}
