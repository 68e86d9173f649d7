use bd_list::Sequence;
use bd_prop::Atom;

/// The variable that stands for an atom.
#[derive(Clone, Copy, PartialEq, Eq)]
pub struct AtomVar {
    pub atom: Atom,
    pub var: u64,
}

/// A list of rows.
pub type AtomVars = Sequence<AtomVar>;
