//! What formulas and verdicts say: laws that are proved, and have no code.
ghost use Rattle.bd_verify.specs.Agreement.{VerdictsAgree};
ghost use Rattle.bd_verify.specs.Laws.{KeptDecides, PositiveHaveNoEdge, SpentIsBounded};

/// The formula that is kept of a question is satisfiable exactly where the answer is yes: where some fitting case breaks a
/// condition, or meets the invariant.
pub fn kept_decides()
    ensures { KeptDecides }
{}

/// In diverse mode no edge has an end that is the variable of an application of a positive symbol.
pub fn positive_have_no_edge()
    ensures { PositiveHaveNoEdge }
{}

/// Where the budget was spent, it is less than 3 to the number of the formula's variables.
pub fn spent_is_bounded()
    ensures { SpentIsBounded }
{}

/// Two verdicts on one design, neither of which is undecided, have one word, in both modes and by any solvers.
pub fn verdicts_agree()
    ensures { VerdictsAgree }
{}
