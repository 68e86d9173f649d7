//! Expressions as forms: names and lists, before names and sorts are looked at.

ghost use Rattle.std.specs.Prelude.{◌≡◌, ◌==◌};
ghost use Rattle.bd_syntax.specs.Forms.{expressions_of, expressions_of_all, expression_count};

use bd_text::Bytes;

/// An atom of a file, and where it stands.
#[derive(PartialEq, Eq, Drop)]
pub struct Spot {
    /// The offset of its first byte.
    pub offset: usize,
    /// Its bytes.
    pub text: Bytes,
}

/// An expression.
#[derive(PartialEq, Eq, Drop)]
#[cycle(form)]
pub enum Form {
    /// A name, `true` or `false`.
    Atom(Spot),
    /// An operator, or the name of a function or predicate, with its parts.
    List {
        /// Where its `(` stands.
        offset: usize,
        /// The operator or name.
        head: Spot,
        /// The parts after it.
        parts: Forms,
    },
}

/// Expressions, in the order of the file.
#[derive(PartialEq, Eq, Drop)]
#[cycle(form)]
pub struct Forms {
    items: Vec<Form>,
}

impl Forms {
    /// The expressions of a `Vec`, with no copy.
    pub fn from_vec(items: Vec<Form>) -> Forms
        ensures { expressions_of result ≡ expressions_of_all items.items }
    {
        Forms { items }
    }

    /// How many expressions there are.
    pub fn len(&self) -> usize
        ensures { result ≡ expression_count (expressions_of self.now) }
    {
        self.items.len()
    }

    /// Whether there is none.
    pub fn is_empty(&self) -> bool
        ensures { result ≡ (expression_count (expressions_of self.now) == 0) }
    {
        self.len() == 0
    }

    /// The expressions as a slice.
    pub fn as_slice(&self) -> &[Form]
        ensures { expressions_of_all result.now ≡ expressions_of self.now }
    {
        self.items.as_slice()
    }
}
