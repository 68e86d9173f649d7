ghost use Rattle.std.specs.Prelude.{◌≡◌, ◌≤◌, OnOk, OnErr};
ghost use Rattle.bd_cnf.specs.Clause.{IsWithin, clauses_value};
ghost use Rattle.bd_cnf.specs.Problem.{problem, with_clause, AreWithin};
ghost use Rattle.bd_cnf.specs.Assignment.{value_of};

use crate::assignment::Assignment;
use crate::clause::Clause;
use crate::lists::Clauses;
use std::alloc::AllocError;
use std::marker::Model;

/// A conjunction of clauses, each variable of which is at most `vars`.
#[derive(Drop)]
pub struct Cnf {
    vars: u64,
    clauses: Clauses,
}

impl Model for Cnf {
    ghost use Rattle.bd_cnf.specs.Problem.{Problem, problem, AreWithin};

    ghost Value = { Problem };

    ghost view = { λ f. problem f.vars f.clauses };

    ghost invariant = { λ f. AreWithin f.vars f.clauses };
}

impl Clone for Cnf {
    ghost is_clone = { λ a b. b ≡ a };

    /// A copy of the formula.
    fn clone(&self) -> Result<Self, AllocError> {
        let clauses = self.clauses.clone()?;
        Ok(Cnf {
            vars: self.vars,
            clauses,
        })
    }
}

impl Cnf {
    /// The formula of those clauses. Takes no memory.
    pub fn new(vars: u64, clauses: Clauses) -> Cnf
        requires { AreWithin vars clauses }
        ensures { result ≡ problem vars clauses }
    {
        Cnf { vars, clauses }
    }

    /// The greatest variable that the formula may use: its variables are numbered from 1.
    pub fn vars(&self) -> u64
        ensures { result ≡ self.now.vars }
    {
        self.vars
    }

    /// The clauses, in order.
    pub fn clauses(&self) -> &[Clause]
        ensures value { result.now ≡ self.now.clauses }
        ensures within { AreWithin self.now.vars self.now.clauses }
    {
        self.clauses.as_slice()
    }

    /// Gives the clauses back. Takes no memory.
    pub fn into_clauses(self) -> Clauses
        ensures value { result ≡ self.clauses }
        ensures within { AreWithin self.vars self.clauses }
    {
        self.clauses
    }

    /// Puts a clause after the others.
    pub fn push(&mut self, clause: Clause) -> Result<(), AllocError>
        requires { IsWithin self.old.vars clause }
        ensures ok { OnOk result (self.new ≡ with_clause self.old clause) }
        ensures err { OnErr result (self.new ≡ self.old) }
    {
        self.clauses.push(clause)
    }

    /// Whether each clause has a true literal. Takes no memory.
    pub fn satisfied(&self, a: &Assignment) -> bool
        ensures { result ≡ clauses_value (value_of a.now) self.now.clauses }
    {
        self.clauses.as_slice().iter().all(|c| c.satisfied(a))
    }
}
