use crate::lit::Lit;

/// How many literals of a clause aren't false.
#[derive(Clone, Copy)]
pub enum ClauseStatus {
    /// No literal: the clause is false.
    Falsified,
    /// This literal alone.
    Unit(Lit),
    /// Two literals or more.
    Unresolved,
}
