//! The plural name of this crate.
use crate::clause::Clause;
use bd_list::Sequence;

/// A list of clauses.
pub type Clauses = Sequence<Clause>;
