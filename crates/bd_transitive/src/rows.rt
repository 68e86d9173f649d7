//! Rows: for each place a list of what leads from it to later places.
ghost use Rattle.std.specs.Prelude.{◌≡◌, [], IfOk, replicate};

use bd_list::Sequence;
use std::alloc::{AllocError, Global};

/// A list for each place.
pub(crate) type PlaceRows = Vec<Sequence<usize>>;

/// As many empty rows.
pub(crate) fn empty_rows(alloc: Global, count: usize) -> Result<PlaceRows, AllocError>
    ensures { IfOk result (λ rows. rows.items ≡ replicate count []) }
{
    let mut rows = Vec::with_capacity(alloc, count)?;
    for place in 0..count {
        rows.push(Sequence::new(alloc))?;
    }
    Ok(rows)
}
