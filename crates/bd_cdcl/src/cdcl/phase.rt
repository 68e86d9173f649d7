//! Saved phases: a variable that is decided again gets the sign that it had last (Pipatsrisawat and
//! Darwiche, 2007). So what was found for one part of the formula is kept while the search backjumps
//! and restarts elsewhere.
use bd_watch::Assigned;
use std::alloc::{AllocError, Global};

/// By variable, the sign that it had last: negative at first.
#[derive(Drop)]
pub(crate) struct SavedPhases {
    positive: Vec<bool>,
}

impl SavedPhases {
    /// The saved signs of the variables up to `vars`, each negative at first.
    pub(crate) fn new(alloc: Global, vars: u64) -> Result<SavedPhases, AllocError> {
        let count = vars.checked_add(1).ok_or(AllocError)? as usize;
        Ok(SavedPhases {
            positive: vec![in alloc; false; count]?,
        })
    }

    /// Saves the signs of literals that are taken off the trail.
    pub(crate) fn save(&mut self, entries: &[Assigned]) {
        for entry in entries {
            let packed = entry.literal();
            if let Some(positive) = self.positive.get_mut(packed.variable()) {
                *positive = packed.lit().is_positive();
            }
        }
    }

    /// The saved sign of a variable.
    pub(crate) fn of(&self, var: u64) -> bool {
        self.positive.get(var as usize) == Some(&true)
    }
}
