//! The simplest case that breaks the diagram: one with as few instructions in flight as may be.
//!
//! A solver gives some case. Here the question is asked again of those states in which truth latches are false, first
//! of those in which all are, then latch by latch in the order of the text. What comes is judged anew by running both
//! machines, so nothing rests on how it was found.
#![tactic(auto)]

mod latches;
mod narrowing;
mod question;
mod search;
mod verdict;

pub use question::DesignTexts;
pub use verdict::simplified;
