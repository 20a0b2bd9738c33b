ghost use Rattle.search_tree.specs.Laws.{PreorderIsTree, PreorderHasAll, PreorderProves};
ghost use Rattle.search_tree.specs.Laws.{NodesAreCells, CellsStand};

/// The cells in preorder are one whole tree, of as many nodes as there are cells.
pub fn preorder_is_tree()
    ensures tree { PreorderIsTree }
    ensures all { PreorderHasAll }
{}

/// If each cell fits, the tree proves the claim that passes.
pub fn preorder_proves()
    ensures { PreorderProves }
{}

/// Each place of the tree has a cell's node with its end, and the place of a cell has its own.
pub fn cells_stand()
    ensures nodes { NodesAreCells }
    ensures cells { CellsStand }
{}
