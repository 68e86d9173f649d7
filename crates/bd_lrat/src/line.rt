ghost use Rattle.std.specs.Prelude.{◌≡◌};

use crate::hints::Hints;
use bd_cnf::Clause;
use bd_list::Sequence;
use std::alloc::AllocError;

/// A hint of an addition.
#[derive(Clone, Copy, PartialEq, Eq, Hash)]
pub enum Hint {
    /// The id of a clause that is false, or true in one literal alone, where the line comes to it.
    Unit(u64),
    /// The id of a clause that a resolution on asymmetric tautologies would read: always refused.
    Rat(u64),
}

/// A list of ids of clauses.
pub type ClauseIds = Sequence<u64>;

/// A line of a log.
#[derive(Drop)]
pub enum Line {
    /// Adds a clause under an id.
    Add {
        id: u64,
        clause: Clause,
        hints: Hints,
    },
    /// Takes the clauses of those ids out. Its own id says nothing.
    Delete {
        id: u64,
        ids: ClauseIds,
    },
}

impl Clone for Line {
    ghost is_clone = { λ a b. b ≡ a };

    /// A copy of the line.
    fn clone(&self) -> Result<Self, AllocError> {
        match self {
            Line::Add { id, clause, hints } => {
                let clause = clause.clone()?;
                let hints = hints.clone()?;
                Ok(Line::Add {
                    id: *id,
                    clause,
                    hints,
                })
            }
            Line::Delete { id, ids } => {
                let ids = ids.clone()?;
                Ok(Line::Delete { id: *id, ids })
            }
        }
    }
}

impl Line {
    ghost use Rattle.bd_lrat.specs.Log.{adds_empty};

    /// Whether the line adds the empty clause.
    pub fn adds_empty(&self) -> bool
        ensures { result ≡ adds_empty self.now }
    {
        match self {
            Line::Add { clause, .. } => clause.lits().is_empty(),
            Line::Delete { .. } => false,
        }
    }
}
