//! States of terms.
ghost use Rattle.std.specs.Prelude.{◌≡◌, IfOk};

use bd_list::Sequence;
use bd_terms::Id;
use std::alloc::AllocError;

/// A list of terms.
pub type TermIds = Sequence<Id>;

/// A term for each entry and each input, in the order of declaration.
#[derive(Drop)]
pub struct SymState {
    pub entries: TermIds,
    pub inputs: TermIds,
}

/// A copy of a list of terms.
pub(crate) fn copy_of(ids: &TermIds) -> Result<TermIds, AllocError>
    ensures { IfOk result (λ copy. copy ≡ ids.now) }
{
    ids.clone()
}
