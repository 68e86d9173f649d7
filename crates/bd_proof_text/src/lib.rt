//! Proofs as texts, in textual LRAT: a text is read and checked line by line over a formula. What it comes to is a
//! function of the formula and the bytes (`specs/ProofText.antt`), and `read_proof` answers what that function says.
//!
//! A line goes to the check as soon as it is read, and only the log of lines is kept. Bytes are gone over thrice: for
//! the line's end, for a byte that may not stand, and for its tokens.
#![tactic(auto)]

mod fault;
mod line;
mod lines;
mod number;
mod reading;
mod token;

pub use fault::{Fault, ReadFault, Why};
pub use reading::read_proof;
pub use token::Place;
