//! Laws of the tableaux of a linear program with ranges. `specs/TableauLaws` states them.
ghost use Rattle.path_laws.specs.TableauLaws.{TableauIsOne, StartIsIndependent, StartIsTableau};
ghost use Rattle.path_laws.specs.TableauLaws.{StartIsComplete, PivotKeepsIndependence};
ghost use Rattle.path_laws.specs.TableauLaws.{PivotKeepsTableau, PivotKeepsSolutions};

/// A basis has at most one tableau.
pub fn tableau_is_one()
    ensures { TableauIsOne }
{}

/// The columns of the start are a basis. The start rows are its tableau, and have no other
/// solutions than the equations.
pub fn start_is_tableau()
    ensures basis { StartIsIndependent }
    ensures tableau { StartIsTableau }
    ensures solutions { StartIsComplete }
{}

/// After a pivot the columns are a basis again. The rows that were combined with the pivot row are
/// its tableau, and they have the same solutions.
pub fn pivots_keep_tableaux()
    ensures basis { PivotKeepsIndependence }
    ensures tableau { PivotKeepsTableau }
    ensures solutions { PivotKeepsSolutions }
{}
