//! States one after another.
ghost use Rattle.std.specs.Prelude.{◌≡◌, IfSome, List, ℕ};
ghost use Rattle.bd_model.specs.declared.table.Value.{Value};
ghost use Rattle.bd_slice.specs.inner.Followed.{Other, FollowsState};
ghost use Rattle.bd_slice.specs.inner.Lines.{FollowsLine};

use crate::kept::Kept;
use bd_model::Sequence;

/// A state, as it is kept.
pub type KeptState = Sequence<Kept>;

/// A list of states.
pub type KeptStates = Sequence<KeptState>;

/// States one after another: those passed, and the last.
#[derive(Drop)]
pub struct StatePath {
    pub passed: KeptStates,
    pub end: Vec<Kept>,
}

impl StatePath {
    /// The state at a place, where the last state has the place `last`.
    pub fn at(&self, place: u32, last: u32) -> Option<&[Kept]>
        ensures { IfSome result (λ state. (o : Other) (states : ℕ → List Value) →
            FollowsLine o self.now last states → FollowsState o state.now (states place)) }
    {
        if place == last {
            return Some(self.end.as_slice());
        }
        if place as usize >= self.passed.len() {
            return None;
        }
        let state = self.passed.get(place);
        let kept = state.as_slice();
        Some(kept)
    }
}
