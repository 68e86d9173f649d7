//! Trees of a text.

ghost use Rattle.std.specs.Prelude.{◌≡◌, ◌↔◌, IsTrue, option_map};
ghost use Rattle.std.specs.Option.{option_copied};
ghost use Rattle.bd_text.specs.Nodes.{node_at, node_count};
ghost use Rattle.bd_text.specs.View.{node_of, nodes_of, nodes_of_all};

use bd_list::Sequence;

/// The bytes of an atom.
pub type Bytes = Sequence<u8>;

/// A tree: an atom, or a list of trees.
#[derive(PartialEq, Eq, Drop)]
#[cycle(tree)]
pub enum Tree {
    /// A run of bytes other than parentheses, semicolons and separators.
    Atom {
        /// Where its first byte stands.
        offset: usize,
        /// The atom's bytes.
        text: Bytes,
    },
    /// Trees between `(` and `)`.
    List {
        /// Where its `(` stands.
        offset: usize,
        /// The trees inside, in order.
        parts: Trees,
    },
}

/// Trees, in the order of the text.
#[derive(PartialEq, Eq, Drop)]
#[cycle(tree)]
pub struct Trees {
    pub(crate) items: Vec<Tree>,
}

impl Trees {
    /// The trees of a `Vec`, with no copy.
    pub fn from_vec(items: Vec<Tree>) -> Trees
        ensures { nodes_of result ≡ nodes_of_all items.items }
    {
        Trees { items }
    }

    /// Gives the `Vec` back.
    pub fn into_vec(self) -> Vec<Tree>
        ensures { nodes_of_all result.items ≡ nodes_of self }
    {
        self.items
    }

    /// How many trees there are.
    pub fn len(&self) -> usize
        ensures { result ≡ node_count (nodes_of self.now) }
    {
        self.items.len()
    }

    /// Whether there is no tree.
    pub fn is_empty(&self) -> bool
        ensures { IsTrue result ↔ (node_count (nodes_of self.now) ≡ 0) }
    {
        self.len() == 0
    }

    /// The tree at an index.
    pub fn get(&self, index: usize) -> Option<&Tree>
        ensures { option_map node_of (option_copied result) ≡ node_at (nodes_of self.now) index }
    {
        self.items.get(index)
    }

    /// The trees as a slice.
    pub fn as_slice(&self) -> &[Tree]
        ensures { nodes_of_all result.now ≡ nodes_of self.now }
    {
        self.items.as_slice()
    }
}
