//! Laws over the definitions. Each function has an empty body; its contract is the law.
ghost use Rattle.leaf_rows.specs.Laws.{LeavesDetermine, FramesAreRows, SplitRowsAreRows};

/// A row that obeys the cells is the one that its leaves determine, and the rows of a pair's frames obey its cells.
pub fn rows_by_leaves()
    ensures only { LeavesDetermine }
    ensures frames { FramesAreRows }
    ensures split { SplitRowsAreRows }
{}
