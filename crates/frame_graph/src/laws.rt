//! Laws over the definitions. Each function has an empty body; its contract is the law.
ghost use Rattle.and_graph.specs.Graphs.{GrowsTo};
ghost use Rattle.frame_graph.specs.Laws.{BothHalves, EachPathIsRead, IsMerged, LeavesStay, MapsStay, OwedStays};

/// Some valuation of a graph has the bits of a path at the leaves.
pub fn each_path_is_read()
    ensures { EachPathIsRead }
{}

/// A place passes with its class's least place where the base and the step do.
pub fn both_halves()
    ensures { BothHalves }
{}

/// What a map, its leaves and what is owed say of a graph they say of each that it grows to, and of each that takes in merges.
pub fn maps_stay()
    ensures grown { MapsStay GrowsTo }
    ensures merged { MapsStay IsMerged }
    ensures leaves_grown { LeavesStay GrowsTo }
    ensures leaves_merged { LeavesStay IsMerged }
    ensures owed_grown { OwedStays GrowsTo }
    ensures owed_merged { OwedStays IsMerged }
{}
