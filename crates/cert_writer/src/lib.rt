//! Certificates of a signal correspondence are written here: each needed pair of the classes is solved again, and the logs of its
//! two questions, trimmed, are the text's. What is written is read without a fault. (Signal correspondence: van Eijk, IEEE TCAD
//! 19(7), 2000; derivations: LRAT, CADE 2017.)
#![tactic(auto)]

mod writing;

pub use writing::write_cert;
