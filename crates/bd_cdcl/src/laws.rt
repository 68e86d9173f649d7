//! Laws of honest solvers, each the contract of a function that does nothing.
ghost use Rattle.std.specs.Prelude.{ℕ, List, [], ◌∷◌};
ghost use Rattle.bd_cnf.specs.Problem.{problem};
ghost use Rattle.bd_lrat.specs.declared.line.Line.{Line};
ghost use Rattle.bd_lrat.specs.declared.line.Line.TheVariants.{Delete};
ghost use Rattle.bd_lrat.specs.Examples.{square_and_unit};
ghost use Rattle.bd_cdcl.specs.declared.solver.Found.{Found};
ghost use Rattle.bd_cdcl.specs.Law.{IsLaw, SpentBudgetsAreShort};

/// An honest solver that says `Spent` had a budget below 3 to the number of the formula's variables:
/// there are no more clauses of one literal or more without a variable twice, and none is added twice.
pub fn spent_budgets_are_short()
    ensures { SpentBudgetsAreShort }
{}

/// Over four clauses that no assignment satisfies and a clause of one literal, by which propagation
/// alone refutes them, no honest solver begins with the deletion of that clause, whatever it
/// says, and does afterwards.
pub fn needed_clauses_stay()
    ensures { (budget : ℕ) (found : Found) (id : ℕ) (lines : List Line) →
        ¬ IsLaw (problem 2 square_and_unit) budget found (Delete id (5 ∷ []) ∷ lines) }
{}
