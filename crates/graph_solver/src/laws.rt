//! Laws over the definitions. Each function has an empty body; its contract is the law.
ghost use Rattle.graph_solver.specs.Laws.{KeptStays};

/// What a solver was told of a graph holds of each that it grows to, and of each that takes in merges.
pub fn facts_stay()
    ensures { KeptStays }
{}
