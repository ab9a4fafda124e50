//! A law over the definitions. The function has an empty body; its contract is the law.
ghost use Rattle.induction_base.specs.LeastRun.{OneLeastRun};

/// A pair has one least run for a frame and an output.
pub fn one_least_run()
    ensures { OneLeastRun }
{}
