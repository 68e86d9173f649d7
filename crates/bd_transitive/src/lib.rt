//! Transitivity of equality over a graph of edges: an elimination order of the graph with its fill-in, the
//! clauses of its triangles, and classes of vertices from edge values that meet these.
//!
//! It stands on two facts (Bryant and Velev, CAV 2000). Where each two later neighbours of a vertex are joined,
//! edge values in whose triangles not exactly two edges are true come from classes: go through the vertices
//! backwards, and give each the class of a later neighbour whose edge is true, or else a new one. And the other
//! way round, values that come from classes never have a triangle with exactly two true edges.
#![tactic(auto)]

mod clauses;
mod elimination;
mod equivalence;
mod fill;
mod graph;
mod laws;
mod min_degree;
mod rows;
mod span;

pub use clauses::triangles;
pub use elimination::order;
pub use equivalence::classes;
pub use graph::{Classes, Edge, EdgeValues, Edges, Order, Triangles, Vertices};
pub use laws::{classes_meet_triangles, meets_by_edges};
