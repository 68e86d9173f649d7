//! Edges, and what is made of them.
use bd_cnf::Clause;
use bd_list::Sequence;

/// An edge between two vertices, which may stand either way round.
#[derive(Clone, Copy, PartialEq, Eq)]
pub struct Edge {
    pub from: u64,
    pub to: u64,
}

/// A list of edges. The number of an edge is its place, from 0.
pub type Edges = Sequence<Edge>;

/// A list of vertices.
pub type Vertices = Sequence<u64>;

/// The clauses of triangles.
pub type Triangles = Sequence<Clause>;

/// A truth value for each edge of an order.
pub type EdgeValues = Sequence<bool>;

/// A class for each vertex of an order.
pub type Classes = Sequence<u64>;

/// Vertices in the order in which they are eliminated, and the edges between them.
#[derive(Drop)]
pub struct Order {
    pub vertices: Vertices,
    pub edges: Edges,
}
