//! What a search does between propagations: it decides, goes back and learns.
ghost use Rattle.std.specs.Prelude.{◌≡◌, ◌<◌, ◌^◌, Some, IsSome, false, length, OnOk};
ghost use Rattle.std.specs.FinMap.{get};
ghost use Rattle.bd_cnf.specs.Literal.{has_variable};
ghost use Rattle.bd_lrat.specs.Database.{numbered};
ghost use Rattle.bd_watch.specs.Levels.{literals};
ghost use Rattle.bd_watch.specs.Trails.{IsDecisionAt};
ghost use Rattle.bd_watch.specs.Watching.{clause_at};
ghost use Rattle.bd_watch.specs.Watch.{IsWatching, IsPropagated, DecidesIn, TakesBack, MayLearn, Learns};

use crate::trail::AssignmentTrail;
use crate::watch::Watch;
use bd_cnf::{Lit, PackedLit};
use std::alloc::AllocError;

impl Watch {
    /// The literals that are taken as true.
    pub fn trail(&self) -> &AssignmentTrail
        ensures { result.now ≡ self.now.trail }
    {
        &self.trail
    }

    /// How many clauses there are.
    pub fn len(&self) -> usize
        ensures value { result ≡ length self.now.clauses }
        ensures small { result < 2 ^ 63 }
    {
        self.clauses.len()
    }

    /// The clause of that id.
    pub fn clause(&self, id: u64) -> &[PackedLit]
        requires { IsSome (get (numbered self.now.clauses) id) }
        ensures { get (numbered self.now.clauses) id ≡ Some result.now }
    {
        self.clauses.get(id as usize - 1)
    }

    /// Decides a literal whose variable has no value, where all is propagated. Takes no memory.
    pub fn decide(&mut self, lit: Lit)
        requires watching { IsWatching self.old }
        requires propagated { IsPropagated self.old }
        requires within { lit.var < self.old.trail.limit }
        requires free { has_variable (literals self.old.trail.entries) lit.var ≡ false }
        ensures { DecidesIn self.old self.new lit }
    {
        self.trail.decide(lit);
    }

    /// Takes back a decision, and all that came after it.
    pub fn go_back_to(&mut self, place: usize)
        requires watching { IsWatching self.old }
        requires decision { IsDecisionAt self.old.trail.entries place }
        ensures { TakesBack self.old self.new place }
    {
        self.trail.truncate(place);
        self.head = place;
    }

    /// Puts a clause after the others, and takes its first literal as implied by it. After an error
    /// nothing is said of the clauses.
    pub fn learn(
        &mut self,
        clause: &[Lit],
        first: PackedLit,
        second: PackedLit,
    ) -> Result<(), AllocError>
        requires watching { IsWatching self.old }
        requires learned { MayLearn self.old clause.now first second }
        ensures { OnOk result (Learns self.old self.new clause.now first) }
    {
        let id = self.clauses.len() as u64 + 1;
        self.add(clause, first, second)?;
        self.trail.imply(first, id);
        Ok(())
    }
}
