//! The list type that every plural name of this project is an alias of.
#![tactic(auto)]

mod sequence;

pub use sequence::Sequence;
