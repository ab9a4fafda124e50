//! Laws over the definitions. The functions have empty bodies; their contracts are the laws.
ghost use Rattle.verdict_stamp.specs.Laws.{GreatestGrows, KnownPairsPass, VersionIsAllPairs};

/// The greatest correspondence for fewer frames is part of that for more, and each of its pairs passes for them.
pub fn known_passes()
    ensures grows { GreatestGrows }
    ensures passes { KnownPairsPass }
{}

/// What rests on a version rests on all of its needed pairs.
pub fn version_is_all_pairs()
    ensures { VersionIsAllPairs }
{}
