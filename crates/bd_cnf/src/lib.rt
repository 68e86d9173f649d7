//! Formulas in conjunctive normal form: literals, clauses, assignments, and the DIMACS CNF text.
#![tactic(auto)]

mod assignment;
mod clause;
mod cnf;
mod dimacs;
mod lists;
mod lit;
mod packed_clauses;
mod packed_lit;
mod status;

pub use assignment::Assignment;
pub use clause::Clause;
pub use cnf::Cnf;
pub use dimacs::{dimacs_text, push_literals};
pub use lists::Clauses;
pub use lit::Lit;
pub use packed_clauses::PackedClauses;
pub use packed_lit::PackedLit;
pub use status::ClauseStatus;
