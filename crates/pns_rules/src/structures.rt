ghost use Rattle.pns_rules.specs.Laws.{StructuresUnite};

/// The union of two solution structures is one.
pub fn structures_unite()
    ensures { StructuresUnite }
{}
