//! The canonical text of a plant can be read as a problem file.
ghost use Rattle.call_laws.specs.TextLaws.{CanonicalIsShort};

use studio::valid_is_well_formed;

/// The canonical text of a valid problem is within the limit of problem files.
pub fn canonical_is_short()
    ensures { CanonicalIsShort }
{
    valid_is_well_formed();
}
