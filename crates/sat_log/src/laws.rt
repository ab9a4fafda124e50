//! The law of derivations. The function has an empty body; its contract is the law.
ghost use Rattle.sat_log.specs.Laws.{Refuted};

/// An accepted log leaves no satisfying assignment.
#[tactic(auto, using(crate::proofs::Soundness::refuted))]
pub fn accepted_logs_refute()
    ensures { Refuted }
{}
