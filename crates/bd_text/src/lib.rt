//! Texts of nested parentheses (S-expressions): reading them into trees with offsets, and writing
//! them.
#![tactic(auto)]

pub mod code;
pub mod fault;
pub mod laws;
pub mod line;
pub mod outline;
pub mod read;
pub mod tree;
pub mod write;

pub use code::Code;
pub use fault::TextFault;
pub use line::Line;
pub use read::read_trees;
pub use tree::{Bytes, Tree, Trees};
pub use write::write_tree;
