//! Positive equality (Bryant, German and Velev 2001): function symbols whose applications may be taken as different
//! from all else, and worlds in which they are.
#![tactic(auto)]

mod adding;
mod base_world;
mod diverse;
mod finding;
mod laws;
mod occurrences;
mod scalars;
mod symbols;

pub use diverse::{diversify, is_true};
pub use finding::{marked, positive};
pub use laws::diverse_decides;
pub use symbols::Positive;
