//! The clauses that stand, one after another in the order in which they came. An addition copies its
//! clause after the others, and a deletion only marks it, so neither moves what stands, and a hint
//! costs no more than the place of its id and the literals there. Ids rise, so the list of ids is
//! searched by halves, and where no id was left out the id itself says the place.
ghost use Rattle.std.specs.Prelude.{◌≡◌, ◌<◌, ◌^◌, IfSome, IfNone, OnOk, OnErr};
ghost use Rattle.std.specs.Option.{option_copied};
ghost use Rattle.std.specs.FinMap as map;
ghost use Rattle.bd_cnf.specs.Standing.{IsBelow};
ghost use Rattle.bd_lrat.specs.Database.{remove_all};
ghost use Rattle.bd_lrat.specs.inner.Store.{store, IsOrdered, IsPlaceOf, HasNoPlace};

use bd_cnf::{Lit, PackedClauses, PackedLit};
use std::alloc::{AllocError, Global};
use std::marker::Model;

/// The clauses that stand, by their ids.
#[derive(Drop)]
pub(crate) struct ClauseStore {
    /// The greatest id that was given.
    last: u64,
    /// The ids that were given, in rising order.
    ids: Vec<u64>,
    /// By the place of the id, whether its clause stands.
    stands: Vec<bool>,
    /// By the place of the id.
    clauses: PackedClauses,
}

impl Model for ClauseStore {
    ghost use Rattle.bd_lrat.specs.inner.Store.{Store, coded_store, store, standing_of, IsStore};

    ghost Value = { Store };

    ghost coded = { coded_store };

    ghost view = { λ a. store a.last (standing_of a.ids.items a.stands.items a.clauses) };

    ghost invariant = { λ a. IsStore a.last a.ids.items a.stands.items a.clauses };
}

impl ClauseStore {
    /// The store in which no clause stands and no id was given.
    pub(crate) fn new(alloc: Global) -> ClauseStore
        ensures { result ≡ store 0 map.empty }
    {
        ClauseStore {
            last: 0,
            ids: Vec::new(alloc),
            stands: Vec::new(alloc),
            clauses: PackedClauses::new(alloc),
        }
    }

    /// The greatest id that was given, 0 where there is none.
    pub(crate) fn last(&self) -> u64
        ensures { result ≡ self.now.last }
    {
        self.last
    }

    /// The clause that stands under the id.
    pub(crate) fn get(&self, id: u64) -> Option<&[PackedLit]>
        ensures { option_copied result ≡ map.get self.now.clauses id }
    {
        let place = place_of(&self.ids, id)?;
        if self.stands[place] {
            Some(self.clauses.get(place))
        } else {
            None
        }
    }

    /// Puts a copy of the clause under an id above all others.
    pub(crate) fn insert(&mut self, id: u64, clause: &[Lit]) -> Result<(), AllocError>
        requires above { self.old.last < id }
        requires below { IsBelow (2 ^ 31) clause.now }
        ensures ok { OnOk result (self.new ≡ store id (map.insert self.old.clauses id clause.now)) }
        ensures err { OnErr result (self.new ≡ self.old) }
    {
        self.ids.reserve(1)?;
        self.stands.reserve(1)?;
        self.clauses.push(clause)?;
        self.ids.push_reserved(id);
        self.stands.push_reserved(true);
        self.last = id;
        Ok(())
    }

    /// Takes out the clauses of those ids, where they stand. Takes no memory.
    pub(crate) fn remove_all(&mut self, ids: &[u64])
        ensures { self.new ≡ store self.old.last (remove_all self.old.clauses ids.now) }
    {
        for id in ids {
            self.remove(*id);
        }
    }

    /// Takes out the clause under one id, if it stands.
    fn remove(&mut self, id: u64)
        ensures { self.new ≡ store self.old.last (map.remove self.old.clauses id) }
    {
        if let Some(place) = place_of(&self.ids, id) {
            self.stands[place] = false;
        }
    }
}

/// The place of an id, in constant time where none was left out below it.
fn place_of(ids: &[u64], id: u64) -> Option<usize>
    requires { IsOrdered ids.now }
    ensures some { IfSome result (IsPlaceOf ids.now id) }
    ensures none { IfNone result (HasNoPlace ids.now id) }
{
    let guess = id.saturating_sub(1) as usize;
    if ids.get(guess) == Some(&id) {
        return Some(guess);
    }
    match ids.binary_search(&id) {
        Ok(place) => Some(place),
        Err(_) => None,
    }
}
