//! Laws of diagrams, which callers cite as facts.
ghost use Rattle.bd_diagram.specs.Laws.{AddressesFound, AlikeWhereCompared, CommutesWhereSame, SameWhereNoDifference};

/// Some allowed number of steps is the same exactly where `commute` holds.
pub fn commutes_where_same()
    ensures { CommutesWhereSame }
{}

/// States can't be told apart exactly where nothing is found that tells their values apart.
pub fn same_where_no_difference()
    ensures { SameWhereNoDifference }
{}

/// The addresses that are found are those, in a row of either, at which two memories read differently, each once.
pub fn addresses_found()
    ensures { AddressesFound }
{}

/// Two diagrams say the same of each number of steps exactly where the same differs in their cases.
pub fn alike_where_compared()
    ensures { AlikeWhereCompared }
{}
