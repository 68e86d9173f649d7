//! Terms without memories: every read goes down to the words that were written, and to the first contents.
#![tactic(auto)]

mod forwarding;
mod pass;
mod reads;

pub use pass::forward;
