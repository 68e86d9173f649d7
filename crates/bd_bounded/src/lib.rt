//! Bounded runs: whether a pipeline is right for so many cycles, from any state in which the start is true.
#![tactic(auto)]

mod answer;
mod running;

pub use answer::Bounded;
pub use running::{bounded, bounded_by};
