//! The trail of a solver: the literals that it takes as true, in order, each with the clause that
//! implied it or, for a decision, none. Tables beside it say of each literal whether it is true, of
//! each variable where its literal stands, and where each level begins. So a literal is tested in
//! one step, and going back costs what is taken off.
ghost use Rattle.std.specs.Prelude.{◌≡◌, ℕ, ◌<◌, ◌≤◌, ◌+◌, ◌++◌, ◌∷◌, ◌^◌, [], length, not, take, true, false};
ghost use Rattle.std.specs.Prelude.{Some, None, IfOk, OnOk, IfSome, IfNone, option_to_list};
ghost use Rattle.bd_cnf.specs.Literal.{has_literal, has_variable};
ghost use Rattle.bd_cnf.specs.Assignment.{value_of};
ghost use Rattle.bd_cnf.specs.Standing.{IsBelow};
ghost use Rattle.bd_cnf.specs.Trail.{is_false};
ghost use Rattle.bd_watch.specs.Levels.{assigned, literals, decisions};
ghost use Rattle.bd_watch.specs.Trails.{leveled, extended, IsPlaceOf, IsLastStart, IsStartFrom, IsDecisionAt, GoesBack, MakesTrue, AllAssigned};

use bd_cnf::{Assignment, Lit, PackedLit};
use std::alloc::{AllocError, Global};
use std::marker::Model;

/// The id of the clause that implied a literal, if it is no decision. Ids are above 0, so that this
/// takes eight bytes where an `Option` takes sixteen.
#[derive(Clone, Copy)]
struct Reason {
    id: u64,
}

impl Model for Reason {
    ghost use Rattle.std.specs.Prelude.{ℕ, Option};
    ghost use Rattle.bd_watch.specs.inner.Reasons.{reason_of, id_of, id_of_reason};

    ghost Value = { Option ℕ };

    ghost view = { λ r. reason_of r.id };

    ghost inverse = { λ o. record { id = id_of o } };

    ghost inverse_ok = { λ a h i. record { id = id_of_reason a.id i } };
}

impl Reason {
    /// The reason of a decision.
    fn none() -> Reason
        ensures { result ≡ None }
    {
        Reason { id: 0 }
    }

    /// The clause of that id.
    fn clause(id: u64) -> Reason
        requires { 0 < id }
        ensures { result ≡ Some id }
    {
        Reason { id }
    }

    /// The id of the clause, if there is one.
    fn id(self) -> Option<u64>
        ensures { result ≡ self }
    {
        if self.id == 0 { None } else { Some(self.id) }
    }
}

/// A literal on a trail: a decision where it has no reason.
#[derive(Clone, Copy)]
pub struct Assigned {
    literal: PackedLit,
    reason: Reason,
}

impl Model for Assigned {
    ghost use Rattle.bd_watch.specs.Levels.{Assigned as Entry, assigned};

    ghost Value = { Entry };

    ghost view = { λ a. assigned a.literal a.reason };

    ghost inverse = { λ a. record { literal = a.literal; reason = a.reason } };
}

impl Assigned {
    /// The literal that was taken as true.
    pub fn literal(self) -> PackedLit
        ensures { result ≡ self.literal }
    {
        self.literal
    }

    /// The id of the clause that implied the literal, if it is no decision.
    pub fn reason(self) -> Option<u64>
        ensures { result ≡ self.reason }
    {
        self.reason.id()
    }
}

/// The literals that a solver takes as true, with what implied each.
#[derive(Drop)]
pub struct AssignmentTrail {
    /// By literal, whether it is on the trail.
    holds: Vec<bool>,
    /// By variable, where its literal stands, if it has one.
    places: Vec<u32>,
    /// Where the levels above 0 begin.
    starts: Vec<usize>,
    entries: Vec<Assigned>,
}

impl Model for AssignmentTrail {
    ghost use Rattle.std.specs.Prelude.{length, vec_capacity};
    ghost use Rattle.bd_watch.specs.Trails.{LeveledTrail, IsLeveled, leveled};

    ghost Value = { LeveledTrail };

    ghost view = { λ a. leveled (length a.places.items) a.entries.items };

    ghost invariant = { λ a. IsLeveled a.holds.items a.places.items a.starts.items a.entries.items
        (vec_capacity a.entries) (vec_capacity a.starts) };
}

impl AssignmentTrail {
    /// No literal, with room for those of the variables up to `vars`. More than 2^31 - 1 of them
    /// end as out of memory.
    pub fn new(alloc: Global, vars: u64) -> Result<AssignmentTrail, AllocError>
        ensures empty { IfOk result (λ t. t ≡ leveled (vars + 1) []) }
        ensures packable { OnOk result (vars < 2 ^ 31) }
    {
        if vars >= 1 << 31 {
            return Err(AllocError);
        }
        let limit = vars as usize + 1;
        Ok(AssignmentTrail {
            holds: vec![in alloc; false; 2 * limit]?,
            places: vec![in alloc; 0; limit]?,
            starts: Vec::with_capacity(alloc, limit)?,
            entries: Vec::with_capacity(alloc, limit)?,
        })
    }

    /// Whether the literal is true.
    pub fn has(&self, packed: PackedLit) -> bool
        requires { packed.var < self.now.limit }
        ensures { result ≡ has_literal (literals self.now.entries) packed }
    {
        self.holds[packed.index()]
    }

    /// How many variables there is room for, 0 among them.
    pub fn limit(&self) -> u64
        ensures { result ≡ self.now.limit }
    {
        self.places.len() as u64
    }

    /// The literal, packed.
    pub fn pack(&self, lit: Lit) -> PackedLit
        requires { lit.var < self.now.limit }
        ensures { result ≡ lit }
    {
        let _coded = &self.places;
        PackedLit::of(lit)
    }

    /// Whether the literal is true.
    pub fn is_true(&self, lit: Lit) -> bool
        requires { lit.var < self.now.limit }
        ensures { result ≡ has_literal (literals self.now.entries) lit }
    {
        self.has(self.pack(lit))
    }

    /// Whether the literal is false.
    pub fn is_false(&self, lit: Lit) -> bool
        requires { lit.var < self.now.limit }
        ensures { result ≡ is_false (literals self.now.entries) lit }
    {
        self.is_true(lit.negated())
    }

    /// The literals in order, with their reasons.
    pub fn as_slice(&self) -> &[Assigned]
        ensures entries { result.now ≡ self.now.entries }
        ensures below { IsBelow self.now.limit (literals self.now.entries) }
    {
        self.entries.as_slice()
    }

    /// Where the literal of a variable stands that has a value.
    pub fn place(&self, packed: PackedLit) -> usize
        requires { has_variable (literals self.now.entries) packed.var ≡ true }
        ensures { IsPlaceOf self.now.entries packed.var result }
    {
        self.places[packed.variable()] as usize
    }

    /// Where the current level begins, if it is above level 0.
    pub fn last_start(&self) -> Option<usize>
        ensures some { IfSome result (IsLastStart self.now.entries) }
        ensures none { IfNone result (decisions self.now.entries ≡ []) }
    {
        self.starts.last().copied()
    }

    /// Where the first level begins that begins at that place or later, if there is one.
    pub fn start_from(&self, place: usize) -> Option<usize>
        ensures some { IfSome result (IsStartFrom self.now.entries place) }
        ensures none { IfNone result ((start : ℕ) → IsDecisionAt self.now.entries start →
            start < place) }
    {
        let mut count = self.starts.len();
        while count > 0 && self.starts[count - 1] >= place {
            count -= 1;
        }
        if count == self.starts.len() {
            return None;
        }
        Some(self.starts[count])
    }

    /// Decides a literal whose variable has no value yet. Takes no memory.
    pub fn decide(&mut self, lit: Lit)
        requires within { lit.var < self.old.limit }
        requires unassigned { has_variable (literals self.old.entries) lit.var ≡ false }
        ensures decided { self.new ≡ extended self.old (assigned lit None) }
        ensures room { length self.new.entries ≤ self.new.limit }
    {
        self.starts.push_reserved(self.entries.len());
        let literal = PackedLit::of(lit);
        self.holds[literal.index()] = true;
        self.places[literal.variable()] = self.entries.len() as u32;
        self.entries.push_reserved(Assigned {
            literal,
            reason: Reason::none(),
        });
    }

    /// Takes a literal whose variable has no value yet as implied by the clause of that id. Takes
    /// no memory.
    pub fn imply(&mut self, literal: PackedLit, id: u64)
        requires id { 0 < id }
        requires within { literal.var < self.old.limit }
        requires unassigned { has_variable (literals self.old.entries) literal.var ≡ false }
        ensures implied { self.new ≡ extended self.old (assigned literal (Some id)) }
        ensures room { length self.new.entries ≤ self.new.limit }
    {
        let reason = Reason::clause(id);
        self.holds[literal.index()] = true;
        self.places[literal.variable()] = self.entries.len() as u32;
        self.entries.push_reserved(Assigned { literal, reason });
    }

    /// Takes the last literal back.
    fn pop(&mut self) -> Option<Assigned>
        ensures limit { self.new.limit ≡ self.old.limit }
        ensures entries { self.old.entries ≡ self.new.entries ++ option_to_list result }
        ensures below { IfSome result (λ last. last.literal.var < self.new.limit) }
        ensures none { IfNone result (self.old.entries ≡ []) }
    {
        let last = self.entries.pop()?;
        self.holds[last.literal.index()] = false;
        if last.reason().is_none() {
            self.starts.pop();
        }
        Some(last)
    }

    /// Takes the last decision back, and all that came after it: what it led to.
    pub fn go_back(&mut self) -> Option<Lit>
        ensures limit { self.new.limit ≡ self.old.limit }
        ensures decision { IfSome result (GoesBack self.old.entries self.new.entries) }
        ensures below { IfSome result (λ decision. decision.var < self.new.limit) }
        ensures level_zero { IfNone result (decisions self.old.entries ≡ []) }
    {
        while let Some(last) = self.pop() {
            if last.reason().is_none() {
                return Some(last.literal.lit());
            }
        }
        None
    }

    /// Takes back all literals from that place on.
    pub fn truncate(&mut self, place: usize)
        requires { place ≤ length self.old.entries }
        ensures { self.new ≡ leveled self.old.limit (take place self.old.entries) }
    {
        while self.entries.len() > place {
            self.pop();
        }
    }

    /// The decisions, in order.
    pub fn decisions(&self, alloc: Global) -> Result<Vec<Lit>, AllocError>
        ensures same { IfOk result (λ found. found.items ≡ decisions self.now.entries) }
        ensures below { OnOk result (IsBelow self.now.limit (decisions self.now.entries)) }
    {
        let mut found = Vec::new(alloc);
        for entry in &self.entries {
            if entry.reason().is_none() {
                found.push(entry.literal.lit())?;
            }
        }
        Ok(found)
    }

    /// Whether the variable has no value.
    pub fn is_free(&self, var: u64) -> bool
        requires from_one { 0 < var }
        requires within { var < self.now.limit }
        ensures { result ≡ not (has_variable (literals self.now.entries) var) }
    {
        let lit = Lit::new(var, true);
        !self.is_true(lit) && !self.is_false(lit)
    }

    /// The least variable that has no value.
    pub fn free_variable(&self) -> Option<u64>
        ensures from_one { IfSome result (λ var. 0 < var) }
        ensures below { IfSome result (λ var. var < self.now.limit) }
        ensures free { IfSome result (λ var. has_variable (literals self.now.entries) var ≡ false) }
        ensures none { IfNone result (AllAssigned self.now) }
    {
        for var in 1..self.places.len() as u64 {
            if self.is_free(var) {
                return Some(var);
            }
        }
        None
    }

    /// An assignment that makes each literal true.
    pub fn assignment(&self, alloc: Global) -> Result<Assignment, AllocError>
        ensures { IfOk result (λ a. MakesTrue (value_of a) (literals self.now.entries)) }
    {
        let mut assignment = Assignment::new(alloc);
        for entry in &self.entries {
            let lit = entry.literal.lit();
            assignment.set(lit.var(), lit.is_positive())?;
        }
        Ok(assignment)
    }
}
