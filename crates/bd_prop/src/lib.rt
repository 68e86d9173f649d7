//! Propositional formulas as a graph in which equal nodes have one id, and their denotations.
#![tactic(auto)]

mod atom;
mod choices;
mod form;
mod gathering;
mod inside;
mod node;
mod prop;
mod reach;

pub use atom::{Atom, AtomValues};
pub use choices::{Choice, Choices};
pub use gathering::{Gathered, gather};
pub use node::PropNode;
pub use prop::Prop;
pub use reach::{Marks, reached};
