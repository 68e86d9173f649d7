//! The hints of an addition. A long proof has hundreds of millions of them and hardly any but
//! `Unit`, so only the numbers are kept, eight bytes each, and apart from them, in rising order, the
//! places of the few that are `Rat`. A walk over the hints goes along both lists at once.
ghost use Rattle.std.specs.Prelude.{◌≡◌, ◌==◌, ◌<◌, ◌∷◌, [], ◌++◌, Some, length, map, slice_get, OnOk, OnErr};
ghost use Rattle.std.specs.Iterator.{YieldsFirst, item_count};
ghost use Rattle.bd_lrat.specs.declared.line.Hint.TheVariants.{Unit as UnitHint};

use crate::line::Hint;
use std::alloc::{AllocError, Global};
use std::marker::Model;

/// A list of hints.
#[derive(Drop)]
pub struct Hints {
    ids: Vec<u64>,
    /// The places, from 0, of the hints that are `Rat`.
    rats: Vec<u64>,
}

impl Model for Hints {
    ghost use Rattle.std.specs.Prelude.{List, length};
    ghost use Rattle.bd_lrat.specs.declared.line.Hint.{Hint};

    ghost Value = { List Hint };

    ghost use Rattle.bd_lrat.specs.inner.Rising.{RisesWithin};
    ghost use Rattle.bd_lrat.specs.inner.Hints.{hints_from};

    ghost view = { λ h. hints_from 0 h.ids.items h.rats.items };

    ghost invariant = { λ h. RisesWithin 0 (length h.ids.items) h.rats.items };
}

impl Clone for Hints {
    ghost is_clone = { λ a b. b ≡ a };

    /// A copy of the hints.
    fn clone(&self) -> Result<Self, AllocError> {
        let ids = self.ids.clone()?;
        let rats = self.rats.clone()?;
        Ok(Hints { ids, rats })
    }
}

impl Hints {
    /// No hint. Takes no memory.
    pub fn new(alloc: Global) -> Hints
        ensures { result ≡ [] }
    {
        Hints {
            ids: Vec::new(alloc),
            rats: Vec::new(alloc),
        }
    }

    /// A `Unit` hint for each id. Takes no memory.
    pub fn from_ids(alloc: Global, ids: Vec<u64>) -> Hints
        ensures { result ≡ map UnitHint ids.items }
    {
        Hints {
            ids,
            rats: Vec::new(alloc),
        }
    }

    /// Puts a hint after the others.
    pub fn push(&mut self, hint: Hint) -> Result<(), AllocError>
        ensures ok { OnOk result (self.new ≡ self.old ++ hint ∷ []) }
        ensures err { OnErr result (self.new ≡ self.old) }
    {
        match hint {
            Hint::Unit(id) => self.ids.push(id)?,
            Hint::Rat(id) => {
                self.rats.reserve(1)?;
                let place = self.ids.len() as u64;
                self.ids.push(id)?;
                self.rats.push_reserved(place);
            }
        }
        Ok(())
    }

    /// How many hints there are.
    pub fn len(&self) -> usize
        ensures { result ≡ length self.now }
    {
        self.ids.len()
    }

    /// Whether there is no hint.
    pub fn is_empty(&self) -> bool
        ensures { result ≡ (length self.now == 0) }
    {
        self.ids.is_empty()
    }

    /// The hint at this place, from 0.
    pub fn get(&self, place: usize) -> Hint
        requires { place < length self.now }
        ensures { slice_get self.now place ≡ Some result }
    {
        let id = self.ids[place];
        match self.rats.binary_search(&(place as u64)) {
            Ok(_) => Hint::Rat(id),
            Err(_) => Hint::Unit(id),
        }
    }

    /// The hints in order.
    pub fn iter(&self) -> HintsIter<'_>
        ensures { result ≡ self.now }
    {
        HintsIter {
            place: 0,
            ids: &self.ids,
            rats: &self.rats,
        }
    }
}

/// What is left of some hints, in order.
#[derive(Drop)]
pub struct HintsIter<'a> {
    place: u64,
    ids: &'a [u64],
    rats: &'a [u64],
}

impl<'a> Model for HintsIter<'a> {
    ghost use Rattle.std.specs.Prelude.{List, length, ◌+◌, ◌<◌, ◌^◌};
    ghost use Rattle.bd_lrat.specs.declared.line.Hint.{Hint};

    ghost Value = { List Hint };

    ghost use Rattle.bd_lrat.specs.inner.Hints.{hints_from};

    ghost view = { λ w. hints_from w.place w.ids.now w.rats.now };

    ghost invariant = { λ w. w.place + length w.ids.now < 2 ^ 64 };
}

impl<'a> Iterator for HintsIter<'a> {
    type Item = Hint;

    ghost next_gives = { YieldsFirst (λ hints. hints) };

    ghost remaining = { item_count (λ hints. hints) };

    /// The next hint of those left, if there is one.
    fn next(&mut self) -> Option<Hint> {
        let (&id, ids) = self.ids.split_first()?;
        let place = self.place;
        self.ids = ids;
        self.place += 1;
        match self.rats.split_first() {
            Some((&rat, rats)) if rat == place => {
                self.rats = rats;
                Some(Hint::Rat(id))
            }
            _ => Some(Hint::Unit(id)),
        }
    }
}
