//! A file as its items.

use crate::{Form, Items, Spot};
use bd_list::Sequence;

/// Which kind of machine a file describes.
#[derive(Clone, Copy, PartialEq, Eq)]
pub enum Kind {
    /// A pipeline.
    Pipeline,
    /// A specification.
    Specification,
}

/// A machine file.
#[derive(PartialEq, Eq, Drop)]
pub struct Ast {
    /// Of which kind.
    pub kind: Kind,
    /// Where its tree stands.
    pub offset: usize,
    /// Its items.
    pub items: Items,
}

/// An invariant file, or a file of starts.
#[derive(PartialEq, Eq, Drop)]
pub struct InvAst {
    /// Where its tree stands.
    pub offset: usize,
    /// Its lets.
    pub items: Items,
    /// Its expression.
    pub value: Form,
}

/// The expression of a visible entry in a completion.
#[derive(PartialEq, Eq, Drop)]
pub struct Abstract {
    /// Where its tree stands.
    pub offset: usize,
    /// The name of the entry.
    pub name: Spot,
    /// Its expression.
    pub value: Form,
}

/// Such expressions, in the order of the file.
pub type Abstracts = Sequence<Abstract>;

/// A completion file: what a state of the pipeline stands for, as expressions.
#[derive(PartialEq, Eq, Drop)]
pub struct CompAst {
    /// Where its tree stands.
    pub offset: usize,
    /// Its lets.
    pub lets: Items,
    /// Its expressions, one for each visible entry that it names.
    pub parts: Abstracts,
}
