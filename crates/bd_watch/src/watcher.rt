//! Which clauses watch a literal. Each watcher has a second literal of its clause beside it, the
//! blocker: while that is true, the clause need not be read.
ghost use Rattle.std.specs.Prelude.{◌≡◌, ◌<◌, ◌≤◌, ◌+◌, ◌^◌, ◌++◌, ◌∷◌, List, [], Some, length, slice_get, OnOk, OnErr, IfSome, IfNone};
ghost use Rattle.bd_cnf.specs.Literal.{Literal};
ghost use Rattle.bd_cnf.specs.Packed.{literal_index};
ghost use Rattle.bd_watch.specs.Watching.{IsOneOf, IsPair, IsRest};
ghost use Rattle.bd_watch.specs.inner.Watchers.{HasBlocker, Removes, AreTwo};

use bd_cnf::PackedLit;
use std::alloc::{AllocError, Global};
use std::marker::Model;

/// A clause that watches a literal, by its place, and another of its literals.
#[derive(Clone, Copy)]
pub(crate) struct Watcher {
    pub(crate) clause: u32,
    pub(crate) blocker: PackedLit,
    /// What a clause of two or three literals has besides the blocker and, if it has three, the
    /// literal that it watches. Of a longer one it is the blocker again.
    pub(crate) rest: PackedLit,
}

/// The two literals that a clause watches, and its third if it has just three: such a clause need
/// not be read where it is looked at.
#[derive(Clone, Copy)]
pub(crate) struct WatchedPair {
    pub(crate) first: PackedLit,
    pub(crate) second: PackedLit,
    pub(crate) third: Option<PackedLit>,
}

impl WatchedPair {
    /// Of the two literals that a clause watches, the other one, if this is one of them.
    pub(crate) fn other(self, packed: PackedLit) -> Option<PackedLit>
        ensures some { IfSome result (AreTwo self packed) }
        ensures none { IfNone result (IsOneOf self packed → ⊥) }
    {
        if self.first.is(packed) {
            return Some(self.second);
        }
        if self.second.is(packed) {
            return Some(self.first);
        }
        None
    }

    /// The watcher of the pair's first literal.
    pub(crate) fn watcher(&self, clause: u32) -> Watcher
        ensures clause { result.clause ≡ clause }
        ensures blocker { result.blocker ≡ self.now.second }
        ensures rest { (lits : List Literal) → IsPair lits self.now →
            IsRest lits (literal_index self.now.first) result }
    {
        let blocker = self.second;
        let rest = match self.third {
            Some(third) => third,
            None => blocker,
        };
        Watcher {
            clause,
            blocker,
            rest,
        }
    }
}

/// The watchers of a literal.
#[derive(Drop)]
pub(crate) struct WatchList {
    watchers: Vec<Watcher>,
}

impl Model for WatchList {
    ghost use Rattle.std.specs.Prelude.{List};
    ghost use Rattle.bd_watch.specs.declared.watcher.Watcher.{Watcher as Entry};

    ghost Value = { List Entry };

    ghost view = { λ a. a.watchers.items };
}

impl WatchList {
    /// The list of no watcher. It takes no memory.
    pub(crate) fn new(alloc: Global) -> WatchList
        ensures { result ≡ [] }
    {
        WatchList {
            watchers: Vec::new(alloc),
        }
    }

    /// The watcher at that place.
    pub(crate) fn get(&self, place: usize) -> Option<Watcher>
        ensures some { IfSome result (λ w. slice_get self.now place ≡ Some w) }
        ensures within { IfSome result (λ _. place < length self.now) }
        ensures small { IfSome result (λ _. place + 1 < 2 ^ 64) }
        ensures none { IfNone result (length self.now ≤ place) }
    {
        self.watchers.get(place).copied()
    }

    /// Gives the watcher at that place another blocker.
    pub(crate) fn renew(&mut self, place: usize, blocker: PackedLit)
        requires { place < length self.old }
        ensures { HasBlocker self.old place blocker self.new }
    {
        let clause = self.watchers[place].clause;
        self.watchers[place] = Watcher {
            clause,
            blocker,
            rest: blocker,
        };
    }

    /// Puts a watcher after the others.
    pub(crate) fn push(&mut self, watcher: Watcher) -> Result<(), AllocError>
        ensures ok { OnOk result (self.new ≡ self.old ++ watcher ∷ []) }
        ensures err { OnErr result (self.new ≡ self.old) }
    {
        self.watchers.push(watcher)?;
        Ok(())
    }

    /// Takes a watcher out, and puts the last one into its place.
    pub(crate) fn swap_remove(&mut self, place: usize)
        requires { place < length self.old }
        ensures { Removes self.old place self.new }
    {
        self.watchers.swap_remove(place);
    }
}
