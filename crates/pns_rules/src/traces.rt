ghost use Rattle.pns_rules.specs.Laws.{TracesExist, TracesAreUnique, TracesTell};

/// Each unit set has one trace.
pub fn traces_exist()
    ensures exist { TracesExist }
    ensures unique { TracesAreUnique }
{}

/// Two solution structures with equal traces are equal.
pub fn traces_tell()
    ensures { TracesTell }
{}
