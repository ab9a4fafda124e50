//! Laws over the definitions. The function has an empty body; its contract is the law.
ghost use Rattle.refine_board.specs.Laws.{StaysSupported, SplitsTakeApart, LastingStay, DoneIsGreatest, NoLaterSplit, FewSplits, SameEnd, FewOffers, FewLate};

/// Every legal list of entries: whoever made them, and in whatever order.
pub fn any_schedule()
    ensures supported { StaysSupported }
    ensures apart { SplitsTakeApart }
    ensures lasting { LastingStay }
    ensures done { DoneIsGreatest }
    ensures later { NoLaterSplit }
    ensures few { FewSplits }
    ensures same { SameEnd }
    ensures offers { FewOffers }
    ensures orderly { FewLate }
{}
