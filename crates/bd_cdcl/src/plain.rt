//! A solver that is small rather than fast: it finds units by passes over all clauses, decides the
//! least variable without a value, learns decision clauses, and goes back one level at each
//! conflict. It ends, since each conflict above level 0 adds a clause of the budget, and between
//! two conflicts the variables without a value become fewer.
ghost use Rattle.std.specs.Prelude.{true};

mod propagation;
mod search;

use self::search::{PlainSearch, copied};
use crate::solver::{Found, HonestSolver, Solver, number_after};
use bd_cnf::Cnf;
use bd_lrat::Log;
use bd_watch::AssignmentTrail;
use std::alloc::{AllocError, Global};

/// A solver by decisions and decision clauses, which it never deletes.
#[derive(Drop)]
pub struct Plain {
    alloc: Global,
    /// How many formulas it was asked to settle, as far as a `u64` counts.
    asked: Option<u64>,
}

impl Plain {
    /// The plain solver, which keeps nothing between two formulas. Takes no memory.
    pub fn new(alloc: Global) -> Plain {
        Plain {
            alloc,
            asked: Some(0),
        }
    }
}

impl Solver for Plain {
    ghost use Rattle.bd_cdcl.specs.Law.{IsLaw};

    ghost honest = { λ _. true };

    ghost says = { λ _ _ problem budget found log. IsLaw problem budget found log };

    ghost asked = { λ plain. plain.asked };

    /// Searches anew by decisions and their clauses.
    fn solve(&mut self, cnf: &Cnf, budget: u32, log: &mut Log) -> Result<Found, AllocError> {
        self.asked = number_after(self.asked);
        let mut search = PlainSearch {
            clauses: copied(self.alloc, cnf)?,
            learned: 0,
            trail: AssignmentTrail::new(self.alloc, cnf.vars())?,
        };
        search.finish(self.alloc, cnf, budget, log)
    }
}

impl HonestSolver for Plain {
    ghost use Rattle.std.specs.Prelude.{refl};

    ghost is_honest = { λ _. refl };

    ghost law = { λ _ _ _ _ _ _ said. said };
}
