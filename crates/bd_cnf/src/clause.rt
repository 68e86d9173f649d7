//! Clauses are kept by rising variable, with no variable twice. That is one form for each set of
//! literals that isn't a tautology, so clauses are equal where their lists are. Literals in any order
//! are sorted by variable; then equal variables stand side by side, and one pass in place keeps the
//! first literal of each: a second one is either the same, and dropped, or its negation, and the
//! clause is always true.
ghost use Rattle.std.specs.Prelude.{◌≡◌, ◌↔◌, IfOk, IfSome, IfNone, IsNone, IsTrue};
ghost use Rattle.std.specs.List.Sorted.{IsNonDecreasingBy};
ghost use Rattle.bd_cnf.specs.Clause.{IsRising, IsWithin, SameLiterals, IsTautology, clause_value, KeepsWithin, HasSameValue, IsAlwaysTrue};
ghost use Rattle.bd_cnf.specs.Assignment.{value_of};

use crate::assignment::Assignment;
use crate::lit::Lit;
use std::alloc::{AllocError, Global};
use std::marker::Model;

/// A disjunction of literals, by rising variable, with no variable twice. The empty one is false.
#[derive(Drop)]
pub struct Clause {
    lits: Vec<Lit>,
}

impl Model for Clause {
    ghost use Rattle.std.specs.Prelude.{List};
    ghost use Rattle.bd_cnf.specs.Literal.{Literal};
    ghost use Rattle.bd_cnf.specs.Clause.{IsRising};

    ghost Value = { List Literal };

    ghost view = { λ c. c.lits.items };

    ghost invariant = { λ c. IsRising c.lits.items };
}

impl Clone for Clause {
    ghost is_clone = { λ a b. b ≡ a };

    /// A copy of the clause.
    fn clone(&self) -> Result<Self, AllocError> {
        let lits = self.lits.clone()?;
        Ok(Clause { lits })
    }
}

impl Clause {
    /// The clause of the given literals, in any order and with repeats, which are dropped. `None`
    /// stands for a clause that is always true: one with a literal and its negation.
    pub fn of(alloc: Global, lits: &[Lit]) -> Result<Option<Clause>, AllocError>
        ensures literals { IfOk result (λ c. IfSome c (λ c. SameLiterals c lits.now)) }
        ensures rising { IfOk result (λ c. IfSome c IsRising) }
        ensures within { IfOk result (λ c. IfSome c (KeepsWithin lits.now)) }
        ensures none { IfOk result (λ c. IsNone c ↔ IsTautology lits.now) }
        ensures some_value { IfOk result (λ c. IfSome c (HasSameValue lits.now)) }
        ensures none_value { IfOk result (λ c. IfNone c (IsAlwaysTrue lits.now)) }
    {
        let copy = Vec::from_slice(alloc, lits)?;
        Ok(Clause::from_vec(copy))
    }

    /// The clause of literals given away, in any order and with repeats; `None` if always true. Takes no memory.
    pub fn from_vec(lits: Vec<Lit>) -> Option<Clause>
        ensures literals { IfSome result (λ c. SameLiterals c lits.items) }
        ensures rising { IfSome result IsRising }
        ensures within { IfSome result (KeepsWithin lits.items) }
        ensures none { IsNone result ↔ IsTautology lits.items }
        ensures some_value { IfSome result (HasSameValue lits.items) }
        ensures none_value { IfNone result (IsAlwaysTrue lits.items) }
    {
        let mut sorted = lits;
        sorted.sort_unstable_by_key(|l| l.var());
        merged(sorted)
    }

    /// The clause of literals that stand in order already. Takes no memory.
    pub fn from_rising(lits: Vec<Lit>) -> Clause
        requires { IsRising lits.items }
        ensures { result ≡ lits.items }
    {
        Clause { lits }
    }

    /// The clause's literals, by rising variable and each once.
    pub fn lits(&self) -> &[Lit]
        ensures value { result.now ≡ self.now }
        ensures rising { IsRising self.now }
    {
        self.lits.as_slice()
    }

    /// Whether each variable is at most `vars`.
    pub fn is_within(&self, vars: u64) -> bool
        ensures { IsTrue result ↔ IsWithin vars self.now }
    {
        self.lits.iter().all(|l| l.var() <= vars)
    }

    /// Whether some literal is true. Takes no memory.
    pub fn satisfied(&self, a: &Assignment) -> bool
        ensures { result ≡ clause_value (value_of a.now) self.now }
    {
        self.lits
            .iter()
            .any(|l| a.value(l.var()) == l.is_positive())
    }
}

/// The clause of literals that stand by variable: the first literal of each variable moves to the
/// front. `None` where one stands with its negation.
fn merged(sorted: Vec<Lit>) -> Option<Clause>
    requires { IsNonDecreasingBy (λ l. l.var) sorted.items }
    ensures rising { IfSome result IsRising }
    ensures literals { IfSome result (λ c. SameLiterals c sorted.items) }
    ensures none { IfNone result (IsTautology sorted.items) }
{
    let mut lits = sorted;
    let mut kept = 0;
    for place in 0..lits.len() {
        let lit = lits[place];
        let var = lit.var();
        match lits[..kept].last() {
            Some(&last) if last.var() == var => {
                if last.is_positive() != lit.is_positive() {
                    return None;
                }
            }
            _ => {
                lits[kept] = lit;
                kept += 1;
            }
        }
    }
    lits.truncate(kept);
    Some(Clause { lits })
}
