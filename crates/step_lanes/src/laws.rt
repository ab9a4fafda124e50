//! Laws over the definitions. Each function has an empty body; its contract is the law.
ghost use Rattle.step_lanes.specs.Laws.{RowsGoOn, LaterRowsMaySplit};

/// A row that may split goes on to rows that may split, whatever the inputs.
pub fn rows_that_may_split()
    ensures next { RowsGoOn }
    ensures later { LaterRowsMaySplit }
{}
