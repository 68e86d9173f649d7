//! What nodes of the truth graph are made for, and in which way.
ghost use Rattle.std.specs.Prelude.{◌≡◌};
ghost use Rattle.bd_equality.specs.inner.Split.{between};

use bd_terms::Id;

/// What a node is made for: a truth value, or an equation of two words, the one that stands earlier on the left.
#[derive(Clone, Copy, PartialEq, Eq, Hash)]
pub(crate) enum Wanted {
    Truth(Id),
    Equation(Id, Id),
}

/// Two rows of a symbol, by the places of the symbol and of the rows.
#[derive(Clone, Copy)]
pub(crate) struct RowPair {
    pub(crate) symbol: usize,
    pub(crate) left: usize,
    pub(crate) right: usize,
}

/// How it is made: as what it is, if it rests on no equation or on those that its form names; by a control of one of
/// two words; by the arguments of two rows; or as an equation that never holds.
#[derive(Clone, Copy)]
pub(crate) enum Way {
    Plain,
    Control(Id),
    Arguments(RowPair),
    Never,
}

/// What is still to be done: to look at what is wanted, or to make its node, when what it rests on has one.
#[derive(Clone, Copy)]
pub(crate) enum Visit {
    Enter(Wanted),
    Finish(Wanted, Way),
}

/// The equation of two words.
pub(crate) fn between(a: Id, b: Id) -> Wanted
    ensures { result ≡ between a b }
{
    if b.index() < a.index() {
        Wanted::Equation(b, a)
    } else {
        Wanted::Equation(a, b)
    }
}
