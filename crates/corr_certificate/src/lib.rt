//! Certificates of a signal correspondence as text, and their reader: for each needed pair of the classes two derivations, one that
//! no run has the pair apart in its first k frames, and one that no path has it apart after k frames in which the classes hold.
//! Reading needs no solver and no thread: it checks the derivations line by line, and so each pair by k-induction. (Signal
//! correspondence: van Eijk, IEEE TCAD 19(7), 2000; derivations: LRAT, CADE 2017.)
#![tactic(auto)]

mod fault;
mod laws;
mod reading;

pub use fault::{CertFault, CertKind, Checked};
pub use laws::{greatest_classes_are_stable, one_answer, supported_outputs_agree};
pub use reading::verify;
