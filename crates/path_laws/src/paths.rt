//! Laws of the path: it is one path with one last basis, and the list of the values rises along it,
//! with its rank. `specs/PathLaws` states them, and `specs/Phases` what each basis of the path has.
ghost use Rattle.path_laws.specs.PathLaws.{TableauIsOne, NextIsOne, PathIsOne, LastIsOne};
ghost use Rattle.path_laws.specs.PathLaws.{BasisIsOfColumns, FeasibleIsLast, RefutingIsLast};
ghost use Rattle.path_laws.specs.PathLaws.{PastIsLast, StartIsFirstPhase, FirstPhaseSkips};
ghost use Rattle.path_laws.specs.PathLaws.{FirstPhasePivots, FirstPhaseGoesOn, FirstPhaseEnds};
ghost use Rattle.path_laws.specs.PathLaws.{ExchangeReaches, CostsAreNotNegative, VectorsKeepRising};
ghost use Rattle.path_laws.specs.PathLaws.{ValuesRiseByPivots, RankRises, ColumnsAreOrdered};
ghost use Rattle.path_laws.specs.PathLaws.{ColumnsDiffer};

/// A basis of the path has at most one tableau and at most one next basis. So the path is one, and
/// has one last basis.
pub fn path_is_one()
    ensures tableau { TableauIsOne }
    ensures next { NextIsOne }
    ensures path { PathIsOne }
    ensures last { LastIsOne }
    ensures columns { BasisIsOfColumns }
{}

/// A basis with least flows is the last of the path. So is one with a row that can't be met, and
/// one at whose pivot a number is out of range. The first two have no pivot.
pub fn ends_are_last()
    ensures feasible { FeasibleIsLast }
    ensures refuting { RefutingIsLast }
    ensures past { PastIsLast }
{}

/// While pivots of the first kind are left, one unit after the other is done. Once all are done,
/// the vectors rise.
pub fn first_phase()
    ensures start { StartIsFirstPhase }
    ensures skips { FirstPhaseSkips }
    ensures pivots { FirstPhasePivots }
    ensures goes_on { FirstPhaseGoesOn }
    ensures ends { FirstPhaseEnds }
{}

/// A pivot leads on along the path. If the vectors rise it is of the second kind; after it the
/// vectors rise, and the list of the values has risen, and so has its rank.
pub fn second_phase()
    ensures reaches { ExchangeReaches }
    ensures costs { CostsAreNotNegative }
    ensures vectors { VectorsKeepRising }
    ensures values { ValuesRiseByPivots }
    ensures rank { RankRises }
{}

/// The order by which the column that enters is chosen is an order, and no two columns are level in
/// it.
pub fn columns_are_ordered()
    ensures order { ColumnsAreOrdered }
    ensures level { ColumnsDiffer }
{}
