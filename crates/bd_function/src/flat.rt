//! A formula without functions: variables, and for each symbol the variables of its applications.
ghost use Rattle.bd_function.specs.Flat.{HasSmallVariables, IsFlat};

use bd_list::Sequence;
use bd_terms::{Graph, Id, Ids, Sym};

/// An application: its arguments as terms of the flat graph, and its variable.
#[derive(Drop)]
pub struct FlatRow {
    pub args: Ids,
    pub var: u64,
}

/// A list of rows.
pub type FlatRows = Sequence<FlatRow>;

/// A symbol with the rows of its applications, in the order taken.
#[derive(Drop)]
pub struct FlatSym {
    pub sym: Sym,
    pub rows: FlatRows,
}

/// A list of symbols with their rows.
pub type FlatSyms = Sequence<FlatSym>;

/// A graph whose applications are those of variables alone, its root, which is a truth value, and the rows of the
/// symbols that were eliminated. No symbol has two entries, and a variable's number has 60 bits.
#[derive(Drop)]
pub struct Flat {
    pub graph: Graph,
    pub root: Id,
    pub syms: FlatSyms,
    ghost flat: { IsFlat graph root syms },
    ghost small: { HasSmallVariables graph },
}
