//! Solvers that settle a formula in conjunctive normal form and log what they add: `Plain`, which is
//! small, and `Cdcl`, which is fast. `solver.rt` says what a solver is, `plain.rt` and `cdcl.rt` how
//! each of them searches.
#![tactic(auto)]

mod cdcl;
mod conflict;
mod laws;
mod plain;
mod scripted;
mod solver;

pub use cdcl::Cdcl;
pub use laws::{needed_clauses_stay, spent_budgets_are_short};
pub use plain::Plain;
pub use scripted::Scripted;
pub use solver::{Found, HonestSolver, Solver};
