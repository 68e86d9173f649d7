//! The trees of a text as far as they go, for whoever points into a text that may have a fault.
ghost use Rattle.std.specs.Prelude.{IfOk};
ghost use Rattle.bd_text.specs.Faults.{HasNoFault};
ghost use Rattle.bd_text.specs.Grammar.{Spells};
ghost use Rattle.bd_text.specs.View.{nodes_of};

use crate::fault::TextFault;
use crate::read::read_trees;
use crate::tree::{Tree, Trees};
use std::alloc::{AllocError, Global};

/// The trees of a text, none where it has a fault.
pub fn trees_of(alloc: Global, text: &[u8]) -> Result<Trees, AllocError>
    ensures { IfOk result (λ trees. HasNoFault text.now → Spells text.now (nodes_of trees)) }
{
    match read_trees(alloc, text) {
        Ok(trees) => Ok(trees),
        Err(TextFault::Bad { .. }) => Ok(Trees::from_vec(Vec::new(alloc))),
        Err(TextFault::Memory) => Err(AllocError),
    }
}

/// The parts of a list.
pub fn parts_of(tree: &Tree) -> Option<&[Tree]> {
    match tree {
        Tree::Atom { .. } => None,
        Tree::List { parts, .. } => Some(parts.as_slice()),
    }
}

/// The bytes of an atom.
pub fn atom_of(tree: &Tree) -> Option<&[u8]> {
    match tree {
        Tree::Atom { text, .. } => Some(text.as_slice()),
        Tree::List { .. } => None,
    }
}

/// The atom at a place among trees.
pub fn atom_at(parts: &[Tree], place: usize) -> Option<&[u8]> {
    atom_of(parts.get(place)?)
}

/// Whether a tree is a list that begins with this atom.
pub fn is_headed(tree: &Tree, head: &[u8]) -> bool {
    match parts_of(tree) {
        Some(parts) => atom_at(parts, 0) == Some(head),
        None => false,
    }
}
