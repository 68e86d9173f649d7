//! Tseitin's form: clauses that are satisfiable exactly where a truth value can be true.
#![tactic(auto)]

mod definition;
mod form;
mod formula;
mod inputs;
mod row;

pub use form::clauses;
pub use formula::Formula;
pub use inputs::inputs_of;
pub use row::{AtomVar, AtomVars};
