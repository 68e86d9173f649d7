//! Proofs of other solvers: a text in textual LRAT is checked over the kept formula of a design. Nobody need believe
//! the solver.
#![tactic(auto)]

mod fault;
mod rechecking;

pub use bd_proof_text::Why;
pub use fault::ProofFault;
pub use rechecking::{recheck, recheck_in};
