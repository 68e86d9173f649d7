//! The hints by which a conflict is checked: the reasons of the trail in order, so that each is a
//! unit when its turn comes, and then the clause that is false (Wetzler, Heule and Hunt, 2014, for
//! the check of a clause by propagation; Cruz-Filipe and others, LRAT, 2017, for its hints).
ghost use Rattle.std.specs.Prelude.{◌≡◌, IfOk};
ghost use Rattle.bd_cdcl.specs.inner.Search.{conflict_hints};

use bd_lrat::{Hint, Hints};
use bd_watch::AssignmentTrail;
use std::alloc::{AllocError, Global};

/// The reasons of the trail, and then the clause that it makes false.
pub(crate) fn hints(
    alloc: Global,
    trail: &AssignmentTrail,
    conflict: u64,
) -> Result<Hints, AllocError>
    ensures { IfOk result (λ hints. hints ≡ conflict_hints trail.now.entries conflict) }
{
    let mut hints = Hints::new(alloc);
    for entry in trail.as_slice() {
        if let Some(id) = entry.reason() {
            hints.push(Hint::Unit(id))?;
        }
    }
    hints.push(Hint::Unit(conflict))?;
    Ok(hints)
}
