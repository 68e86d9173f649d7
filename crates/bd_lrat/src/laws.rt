//! Laws of logs, each the contract of a function that does nothing: what a refutation means, and at
//! small examples what *fresh*, *unsettled* and *covered* take and what they don't.
ghost use Rattle.std.specs.Prelude.{ℕ, List, [], ◌∷◌, Option};
ghost use Rattle.bd_cnf.specs.Problem.{Problem, problem};
ghost use Rattle.bd_lrat.specs.declared.line.Line.{Line};
ghost use Rattle.bd_lrat.specs.declared.line.Line.TheVariants.{Delete};
ghost use Rattle.bd_lrat.specs.Database.{Database, database_of, numbered};
ghost use Rattle.bd_lrat.specs.Deletions.{IsCovered, DeletesCovered, DeletionsAreFew};
ghost use Rattle.bd_lrat.specs.Log.{IsRefutation, IsUnsatisfiable, IsFresh, IsUnsettled, FreshLogsAreShort};
ghost use Rattle.bd_lrat.specs.Examples.{yes, square, square_line, square_and_unit, weakened_line, forced_apart, not_both};

/// Over a formula with an accepted log that adds the empty clause, no assignment makes every clause
/// true.
pub fn refutation_law()
    ensures { (p : Problem) (lines : List Line) → IsRefutation p lines → IsUnsatisfiable p }
{}

/// A log that is fresh over a formula adds fewer clauses of one literal or more than 3 to the number
/// of its variables.
pub fn fresh_logs_are_short()
    ensures { FreshLogsAreShort }
{}

/// A log whose deletions are covered deletes at most as often as there are clauses, those that it adds
/// among them.
pub fn deletions_are_few()
    ensures { DeletionsAreFew }
{}

/// A line that deletes nothing isn't covered, wherever it stands.
pub fn nothing_is_not_deleted()
    ensures { (db : Database) (added : Option ℕ) (id : ℕ) (lines : List Line) →
        ¬ DeletesCovered db added (Delete id [] ∷ lines) }
{}

/// Propagation from nothing finds no conflict in the square, and one decision leads to one.
pub fn square_is_unsettled()
    ensures { IsUnsettled (numbered square) }
{}

/// The first line of the square's refutation is fresh.
pub fn square_line_is_fresh()
    ensures { IsFresh (problem 2 square) (square_line ∷ []) }
{}

/// A clause of the formula with a literal more isn't fresh.
pub fn weakened_line_is_not_fresh()
    ensures { ¬ IsFresh (problem 3 square) (weakened_line ∷ []) }
{}

/// A formula in which two decisions, and no single one, lead to a conflict is unsettled.
pub fn two_decisions_unsettle()
    ensures { IsUnsettled (numbered forced_apart) }
{}

/// A formula in which the first decision gives the second variable the other value isn't unsettled.
pub fn reached_decision_settles()
    ensures { ¬ IsUnsettled (numbered not_both) }
{}

/// A clause of one literal covers any that has its literal.
pub fn true_clause_is_covered()
    ensures { IsCovered (numbered ((yes 1 ∷ []) ∷ [])) (yes 1 ∷ yes 2 ∷ []) }
{}

/// The square doesn't cover the clause of one literal by which propagation alone refutes it.
pub fn needed_clause_is_not_covered()
    ensures { ¬ IsCovered (numbered square) (yes 1 ∷ []) }
{}

/// A log over the square and a unit clause that begins by deleting that clause isn't a solver's, under any id and
/// whatever lines follow.
pub fn needed_clause_is_not_deleted()
    ensures { (added : Option ℕ) (id : ℕ) (lines : List Line) →
        ¬ DeletesCovered (database_of (problem 2 square_and_unit)) added
        (Delete id (5 ∷ []) ∷ lines) }
{}
