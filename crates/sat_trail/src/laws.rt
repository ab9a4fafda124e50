//! Laws over the definitions. Each function has an empty body; its contract is the law.
ghost use Rattle.sat_trail.specs.Laws.{ReasonsImply, RanksAreBounded, MoreRanksHigher, ImpliedRanksHigher};

/// Reasons imply: what satisfies the clauses and the decisions satisfies all of the trail.
pub fn reasons_imply()
    ensures { ReasonsImply }
{}

/// The rank of a trail, which a search raises with each literal and with each way back: it can't go on for ever.
pub fn ranks_rise()
    ensures bounded { RanksAreBounded }
    ensures more { MoreRanksHigher }
    ensures implied { ImpliedRanksHigher }
{}
