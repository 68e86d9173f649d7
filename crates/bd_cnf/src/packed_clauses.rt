//! Clauses in one flat list of literals, so that they lie close together and stay in their order.
ghost use Rattle.std.specs.Prelude.{◌≡◌, ◌<◌, ◌++◌, ◌∷◌, [], ◌^◌, length, slice_index_or, OnOk, OnErr};
ghost use Rattle.bd_cnf.specs.Standing.{IsBelow};

use crate::lit::Lit;
use crate::packed_lit::PackedLit;
use std::alloc::{AllocError, Global};
use std::marker::Model;

/// Where a clause's literals lie.
#[derive(Clone, Copy)]
pub(crate) struct ClauseRange {
    start: usize,
    end: usize,
}

/// A list of clauses.
#[derive(Drop)]
pub struct PackedClauses {
    literals: Vec<PackedLit>,
    ranges: Vec<ClauseRange>,
}

impl Model for PackedClauses {
    ghost use Rattle.std.specs.Prelude.{List, map, length, All};
    ghost use Rattle.bd_cnf.specs.Literal.{Literal};
    ghost use Rattle.bd_cnf.specs.inner.Packing.{clause_in, IsRange};

    ghost Value = { List (List Literal) };

    ghost view = { λ p. map (clause_in p.literals.items) p.ranges.items };

    ghost invariant = { λ p. All (IsRange (length p.literals.items)) p.ranges.items };
}

impl PackedClauses {
    /// The list of no clause. Takes no memory.
    pub fn new(alloc: Global) -> PackedClauses
        ensures { result ≡ [] }
    {
        PackedClauses {
            literals: Vec::new(alloc),
            ranges: Vec::new(alloc),
        }
    }

    /// How many clauses there are.
    pub fn len(&self) -> usize
        ensures value { result ≡ length self.now }
        ensures small { result < 2 ^ 63 }
    {
        self.ranges.len()
    }

    /// The clause at that place.
    pub fn get(&self, place: usize) -> &[PackedLit]
        requires { place < length self.now }
        ensures { result.now ≡ slice_index_or self.now place [] }
    {
        let range = self.ranges[place];
        &self.literals[range.start..range.end]
    }

    /// Puts a copy of the clause after the others.
    pub fn push(&mut self, clause: &[Lit]) -> Result<(), AllocError>
        requires { IsBelow (2 ^ 31) clause.now }
        ensures ok { OnOk result (self.new ≡ self.old ++ clause.now ∷ []) }
        ensures err { OnErr result (self.new ≡ self.old) }
    {
        self.ranges.reserve(1)?;
        let start = self.literals.len();
        append(&mut self.literals, clause)?;
        let end = self.literals.len();
        self.ranges.push_reserved(ClauseRange { start, end });
        Ok(())
    }
}

/// Puts the literals after the others.
fn append(literals: &mut Vec<PackedLit>, clause: &[Lit]) -> Result<(), AllocError>
    requires { IsBelow (2 ^ 31) clause.now }
    ensures ok { OnOk result (literals.new.items ≡ literals.old.items ++ clause.now) }
    ensures err { OnErr result (literals.new.items ≡ literals.old.items) }
{
    literals.reserve(clause.len())?;
    for lit in clause {
        literals.push_reserved(PackedLit::of(*lit));
    }
    Ok(())
}
