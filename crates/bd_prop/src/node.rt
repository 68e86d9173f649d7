use crate::atom::Atom;
use crate::choices::Choices;

/// A node of a truth graph. Its children are named by their ids.
#[derive(PartialEq, Eq, Hash, Drop)]
pub enum PropNode {
    True,
    Atom(Atom),
    Not(usize),
    And(usize, usize),
    Or(usize, usize),
    /// The second where the first is true, else the third.
    Ite(usize, usize, usize),
    /// Choices that are taken one after another, down to a leaf, which is the value.
    Tree(Choices),
}
