//! Terms of the logic of equality with uninterpreted functions and memories, each kept once in a graph.
#![tactic(auto)]

mod build;
mod graph;
mod id;
mod node;
mod reach;
mod simplify;

pub use graph::Graph;
pub use id::{Id, Ids};
pub use node::{Node, Sym};
pub use reach::{ReachedTerms, reached};
