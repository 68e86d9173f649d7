//! Terms in the order of a depth-first walk, whatever the order in which they were made.
#![tactic(auto)]

mod depth_first;
mod ordered;

pub use depth_first::walk;
pub use ordered::in_walk_order;
