//! Logs of a certificate's questions, derived from what was derived before. That a place and its class's least are equal in a frame is
//! derived in two cases, and each line of a refutation gets the literals of the case that it rests on. The log of a place is then made of
//! the lines that it reaches. (Sweeping: Kuehlmann and Krohm, DAC 1997; its derivations: Chatterjee, Mishchenko, Brayton and Kuehlmann,
//! DAC 2007.)
//!
//! A log that is handed on is no more than likely: it is checked where it is used, so no contract says more here than that each
//! call is safe and returns.
#![tactic(auto)]

mod cone;
mod gates;
mod lemmas;
mod lines;
mod local;
mod places;
mod reaching;
mod taking;
mod twins;
mod whole_frames;

pub use lemmas::Lemmas;
