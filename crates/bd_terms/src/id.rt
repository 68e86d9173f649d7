//! Names of nodes, and lists of them.
ghost use Rattle.std.specs.Prelude.{◌≡◌, ◌<◌, IfOk, length, map, nat_eq};
ghost use Rattle.std.specs.List.{All};
ghost use Rattle.std.specs.Cmp.{nat_eq_equiv, partial_equiv_from_equiv, unsigned_Decides};
ghost use Rattle.std.specs.Cmp.Lexicographic.{pointwise, lists_per, lists_equiv};
ghost use Rattle.std.specs.Hash as fed;
ghost use Rattle.std.specs.Hash.{items_Alike, same_Alike};
ghost use Rattle.bd_terms.specs.Renamed.{id_at};

use smallvec::SmallVec;
use std::alloc::{AllocError, Global};
use std::hash::{Hash, Hasher};
use std::marker::Model;

/// The place of a node in its graph, from 0. The default is place 0.
#[derive(Clone, Copy, Default, PartialEq, Eq, Hash)]
pub struct Id {
    index: usize,
}

impl Model for Id {
    ghost use Rattle.std.specs.Prelude.{ℕ};

    ghost Value = { ℕ };

    ghost view = { λ i. i.index };

    ghost inverse = { λ n. record { index = n } };
}

impl Id {
    /// The Id of the node at this place.
    pub(crate) fn new(index: usize) -> Id
        ensures { result ≡ index }
    {
        Id { index }
    }

    /// The place of the node in its graph, from 0.
    pub fn index(self) -> usize
        ensures { result ≡ self }
    {
        self.index
    }
}

/// The arguments of an application, mostly few.
#[derive(Drop)]
pub struct Ids {
    items: SmallVec<Id, 4>,
}

impl Model for Ids {
    ghost use Rattle.std.specs.Prelude.{List, ℕ};

    ghost Value = { List ℕ };

    ghost view = { λ a. a.items.items };
}

impl Ids {
    /// A copy of these Ids.
    pub fn from_slice(alloc: Global, ids: &[Id]) -> Result<Ids, AllocError>
        ensures { IfOk result (λ copy. copy ≡ ids.now) }
    {
        Ok(Ids {
            items: SmallVec::from_slice(alloc, ids)?,
        })
    }

    /// The Ids, in order.
    pub fn as_slice(&self) -> &[Id]
        ensures { result.now ≡ self.now }
    {
        self.items.as_slice()
    }

    /// The Ids that these have in another graph.
    pub fn renamed(&self, ids: &[Id]) -> Result<Ids, AllocError>
        requires { All (λ id. id < length ids.now) self.now }
        ensures { IfOk result (λ new. new ≡ map (id_at ids.now) self.now) }
    {
        let mut items = SmallVec::new(*self.items.allocator());
        for id in self.items.as_slice() {
            items.push(ids[id.index])?;
        }
        Ok(Ids { items })
    }
}

impl Clone for Ids {
    ghost is_clone = { λ old new. new ≡ old };

    /// A copy of the Ids.
    fn clone(&self) -> Result<Ids, AllocError> {
        Ids::from_slice(*self.items.allocator(), self.as_slice())
    }
}

impl PartialEq for Ids {
    ghost eq = { λ a b. pointwise nat_eq a b };

    ghost laws = { lists_per (partial_equiv_from_equiv nat_eq_equiv) };

    /// Whether both have the same Ids in order.
    fn eq(&self, other: &Ids) -> bool {
        self.items == other.items
    }
}

impl Eq for Ids {
    ghost laws = { lists_equiv nat_eq_equiv };
}

impl Hash for Ids {
    ghost hash_input = { λ a. fed.slice fed.usize a };

    ghost respects_eq = { (items_Alike (same_Alike fed.usize unsigned_Decides)).fed };

    /// Feeds the Ids to a hasher.
    fn hash<H: Hasher>(&self, state: &mut H) {
        self.items.hash(state);
    }
}
