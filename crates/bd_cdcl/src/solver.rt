//! What a solver is: it answers a formula and logs the clauses that it adds. Whoever calls it need
//! not believe it, since the log can be checked line by line. An honest solver has a law as well:
//! its answer and log mean what they say, so that no caller has to provide for a wrong answer.
ghost use Rattle.std.specs.Prelude.{◌≡◌, ℕ, Bool, List, [], Option, IfOk, OnErr, IsTrue};
ghost use Rattle.bd_cnf.specs.Problem.{Problem};
ghost use Rattle.bd_lrat.specs.declared.line.Line.{Line};
ghost use Rattle.bd_lrat.specs.Database.{database_of};
ghost use Rattle.bd_lrat.specs.Log.{IsAcceptedLog};
ghost use Rattle.bd_cdcl.specs.Asks.{Asks};

use bd_cnf::{Assignment, Cnf};
use bd_lrat::Log;
use std::alloc::AllocError;

/// What a solver says of a formula.
#[derive(Drop)]
pub enum Found {
    /// The assignment satisfies it.
    Model(Assignment),
    /// No assignment satisfies it.
    Refuted,
    /// As many clauses were added as the budget allows, and one more conflict has come.
    Spent,
}

impl Clone for Found {
    ghost is_clone = { λ a b. b ≡ a };

    /// A copy of what was found.
    fn clone(&self) -> Result<Self, AllocError> {
        match self {
            Found::Model(assignment) => Ok(Found::Model(assignment.clone()?)),
            Found::Refuted => Ok(Found::Refuted),
            Found::Spent => Ok(Found::Spent),
        }
    }
}

/// The number after that one; the largest `u64` has none.
pub(crate) fn number_after(number: Option<u64>) -> Option<u64>
    ensures { Asks number result 1 }
{
    number.and_then(|number| number.checked_add(1))
}

/// Settles formulas.
pub trait Solver {
    ghost use Rattle.bd_cdcl.specs.declared.solver.Found.{Found};

    /// Whether it is honest: where it is, what it says is true.
    ghost honest: { Self → Bool };

    /// What it may say of a formula within a budget, with which log, and what it is after that: so
    /// an answer is of the very call that led from the one to the other.
    ghost says: { Self → Self → Problem → ℕ → Found → List Line → Type 0 };

    /// How many formulas it was asked to settle, where it tells that. It may stop telling, and never
    /// tells again. Code that is generic over the solver can't change the count but by asking.
    ghost asked: { Self → Option ℕ };

    /// Settles the formula, or adds `budget` clauses of one literal or more, which it logs with
    /// their hints. It starts anew each time. After an error nothing is said of the log of a solver
    /// that isn't honest.
    fn solve(&mut self, cnf: &Cnf, budget: u32, log: &mut Log) -> Result<Found, AllocError>
        requires { log.old ≡ [] }
        ensures says { IfOk result (λ found. says self.old self.new cnf.now budget found log.new) }
        ensures counted { Asks (asked self.old) (asked self.new) 1 }
        ensures refused { OnErr result (IsTrue (honest self.old) →
            IsAcceptedLog (database_of cnf.now) log.new) };
}

/// A solver that is honest.
pub trait HonestSolver: Solver {
    ghost use Rattle.bd_cdcl.specs.declared.solver.Found.{Found};
    ghost use Rattle.bd_cdcl.specs.Law.{IsLaw};

    /// The solver is always honest.
    ghost is_honest: { (solver : Self) → IsTrue (Self.honest solver) };

    /// Whatever the solver says meets the law.
    ghost law: { (before after : Self) (problem : Problem) (budget : ℕ) (found : Found)
        (log : List Line) → Self.says before after problem budget found log →
        IsLaw problem budget found log };
}
