//! Unit propagation for conflict-driven solvers: clauses with two watched literals each, and a
//! trail with levels and reasons.
#![tactic(auto)]

mod load;
mod moves;
mod trail;
mod watch;
mod watcher;

pub use trail::{Assigned, AssignmentTrail};
pub use watch::Watch;
