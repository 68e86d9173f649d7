//! The literals that a check takes as true: a value for each variable, and a trail of the literals in
//! order. The trail has room for one literal of each variable from the start, so a check takes no
//! memory, and clearing goes along the trail, not over all variables.
ghost use Rattle.std.specs.Prelude.{◌≡◌, ◌<◌, ◌+◌, ◌++◌, ◌∷◌, [], length, map, false, IfOk};
ghost use Rattle.std.specs.List.{All};
ghost use Rattle.bd_cnf.specs.Literal.{Literal, has_literal, negate};
ghost use Rattle.bd_cnf.specs.Clause.{IsRising};
ghost use Rattle.bd_cnf.specs.Trail.{is_false, trail_of, IsLeft};

use bd_cnf::Lit;
use std::alloc::{AllocError, Global};
use std::marker::Model;

/// The literals that a check takes as true.
#[derive(Drop)]
pub(crate) struct PropagationTrail {
    /// By variable, its value where it has one.
    values: Vec<Option<bool>>,
    /// The literals, in the order in which they were taken as true.
    literals: Vec<Lit>,
}

impl Model for PropagationTrail {
    ghost use Rattle.std.specs.Prelude.{length, vec_capacity};
    ghost use Rattle.bd_cnf.specs.Trail.{TrailView, IsTrail, trail_of};

    ghost Value = { TrailView };

    ghost view = { λ a. trail_of (length a.values.items) a.literals.items };

    ghost invariant = { λ a. IsTrail a.values.items a.literals.items (vec_capacity a.literals) };
}

impl PropagationTrail {
    /// No literal, with room for those of the variables up to `vars`.
    pub(crate) fn new(alloc: Global, vars: u64) -> Result<PropagationTrail, AllocError>
        ensures { IfOk result (λ t. t ≡ trail_of (vars + 1) []) }
    {
        let limit = vars.checked_add(1).ok_or(AllocError)? as usize;
        let values = vec![in alloc; None; limit]?;
        let literals = Vec::with_capacity(alloc, limit)?;
        Ok(PropagationTrail { values, literals })
    }

    /// Whether the literal is taken as true.
    pub(crate) fn is_true(&self, lit: Lit) -> bool
        requires { lit.var < self.now.limit }
        ensures { result ≡ has_literal self.now.literals lit }
    {
        self.values[lit.var() as usize] == Some(lit.is_positive())
    }

    /// Whether the literal's negation is taken as true.
    pub(crate) fn is_false(&self, lit: Lit) -> bool
        requires { lit.var < self.now.limit }
        ensures { result ≡ is_false self.now.literals lit }
    {
        self.is_true(lit.negated())
    }

    /// Takes a literal whose variable has no value yet. Takes no memory.
    pub(crate) fn assign(&mut self, lit: Lit)
        requires within { lit.var < self.old.limit }
        requires not_true { has_literal self.old.literals lit ≡ false }
        requires not_false { is_false self.old.literals lit ≡ false }
        ensures { self.new ≡ trail_of self.old.limit (self.old.literals ++ lit ∷ []) }
    {
        self.values[lit.var() as usize] = Some(lit.is_positive());
        self.literals.push_reserved(lit);
    }

    /// Takes the negations of a clause's literals. Takes no memory.
    pub(crate) fn assign_negations(&mut self, clause: &[Lit])
        requires none { self.old.literals ≡ [] }
        requires rising { IsRising clause.now }
        requires within { All (λ l. l.var < self.old.limit) clause.now }
        ensures { self.new ≡ trail_of self.old.limit (map negate clause.now) }
    {
        for lit in clause {
            self.assign(lit.negated());
        }
    }

    /// Takes back all literals, in the time of as many steps as there are literals.
    pub(crate) fn clear(&mut self)
        ensures { self.new ≡ trail_of self.old.limit [] }
    {
        unset(&mut self.values, &self.literals);
        self.literals.clear();
    }
}

/// Takes the values of the literals' variables out.
fn unset(values: &mut [Option<bool>], lits: &[Lit])
    requires within { All (λ l. l.var < length values.old) lits.now }
    requires left { IsLeft values.old lits.now }
    ensures { IsLeft values.new [] }
{
    for lit in lits {
        values[lit.var() as usize] = None;
    }
}
