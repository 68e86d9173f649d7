//! Things that are counted for functions and predicates, each once for one whose applications are compared in it.
ghost use Rattle.std.specs.Prelude.{◌≡◌, ◌||◌, ◌<◌, ℕ, All, true, length, slice_index_or};
ghost use Rattle.bd_terms.specs.declared.node.Sym.TheVariants.{Function};
ghost use Rattle.bd_function.specs.Tables.{is_symbol};
ghost use Rattle.bd_about.specs.inner.Owned.{is_found, is_owned};
ghost use Rattle.bd_about.specs.inner.Tallied.{IsUpTo, named, no_tally};

use crate::owners::Owners;
use bd_terms::Sym;

/// How many things were counted, and the number of the last one, from 1.
#[derive(Clone, Copy, PartialEq, Eq)]
pub(crate) struct Tally {
    pub count: usize,
    pub last: usize,
}

/// The tally with the thing of a number counted once. Things are numbered from 1 and counted in order, so no more are
/// counted than the number of the last one.
fn counted(tally: Tally, thing: usize) -> Tally
    requires { IsUpTo thing tally }
    ensures counted { result ≡ named true thing tally }
    ensures up_to { IsUpTo thing result }
{
    if tally.last == thing {
        return tally;
    }
    let count = tally.count + 1;
    Tally { count, last: thing }
}

/// Counts a thing for the symbol that is named in it, if that is a function or predicate.
fn note(tallies: &mut Vec<Tally>, symbol: Option<Sym>, thing: usize)
    requires { All (IsUpTo thing) tallies.old.items }
    ensures size { length tallies.new.items ≡ length tallies.old.items }
    ensures up_to { All (IsUpTo thing) tallies.new.items }
    ensures tallies { (f : ℕ) → f < length tallies.old.items →
        slice_index_or tallies.new.items f no_tally
        ≡ named (is_found (λ s. is_symbol s (Function f)) symbol) thing
        (slice_index_or tallies.old.items f no_tally) }
{
    if let Some(Sym::Function(f)) = symbol {
        if let Some(tally) = tallies.get_mut(f as usize) {
            *tally = counted(*tally, thing);
        }
    }
}

/// Counts a thing for the symbols of two variables that are compared in it.
pub(crate) fn note_both(tallies: &mut Vec<Tally>, owners: &Owners, from: u64, to: u64, thing: usize)
    requires { All (IsUpTo thing) tallies.old.items }
    ensures size { length tallies.new.items ≡ length tallies.old.items }
    ensures up_to { All (IsUpTo thing) tallies.new.items }
    ensures tallies { (f : ℕ) → f < length tallies.old.items →
        slice_index_or tallies.new.items f no_tally
        ≡ named (is_owned owners.now (Function f) from || is_owned owners.now (Function f) to)
        thing (slice_index_or tallies.old.items f no_tally) }
{
    note(tallies, owners.get(from), thing);
    note(tallies, owners.get(to), thing);
}
