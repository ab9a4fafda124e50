//! Laws over the definition. Each function has an empty body; its contract is the law.
ghost use Rattle.corr_certificate.specs.Laws.{GreatestAreStable, OneAnswer, SupportedAgree};

/// A text has one first fault, or none.
pub fn one_answer()
    ensures { OneAnswer }
{}

/// A certificate without a fault supports that the outputs agree in every frame of every run.
pub fn supported_outputs_agree()
    ensures { SupportedAgree }
{}

/// The classes of the greatest correspondence are a correspondence, as a certificate's writer asks.
pub fn greatest_classes_are_stable()
    ensures { GreatestAreStable }
{}
