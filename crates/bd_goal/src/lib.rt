//! The questions about a design as one term each, for all cases at once.
//!
//! The correspondence formula says that no case breaks a condition (Burch and Dill 1994): the invariant in a state
//! implies that it holds after the cycle, and that for some allowed number of steps the specification joins what the
//! two states stand for. Where memories are compared, each is read at a fresh address. A formula with fresh addresses
//! is true for all of them exactly where the memories read equal at every word.
#![tactic(auto)]

mod abstracted;
mod bounded;
mod commute;
mod correspondence;
mod equal;
mod invariant;
mod laws;
mod question;

pub use bd_model::Abstraction;
pub use bounded::bounded_goal;
pub use correspondence::{agree_goal, goal, goal_by};
pub use invariant::meets;
pub use laws::{agree_decides, bounded_decides, goal_decides, meets_decides};
pub use question::Goal;
