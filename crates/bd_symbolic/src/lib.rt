//! Expressions and cycles of the two machines over terms, for all states at once.
//!
//! An expression is built form by form as its value is found, with terms in place of values. So the term denotes the
//! value in every world in which the terms that the names stand for denote what the names stand for. A cycle builds
//! each let once and then each next expression, all over the terms of the old state.
#![tactic(auto)]

mod build;
mod cycle;
mod eval;
mod first;
mod flush;
mod lets;
mod state;
mod visible;

pub use build::implies;
pub use cycle::{sym_spec_step, sym_step};
pub use eval::sym_eval;
pub use first::{sym_entries, sym_inputs, sym_state};
pub use flush::sym_flush;
pub use lets::sym_lets;
pub use state::{SymState, TermIds};
pub use visible::project;
