//! The numbers of the calls on an object in memory.
ghost use Rattle.std.specs.Prelude.{◌≡◌};
ghost use Rattle.bd_files.specs.Numbers.{number_after};

/// The number of the call that begins, after which `next` is that of the one to come. The calls
/// past the largest `u64` have none.
pub(crate) fn take_number(next: &mut Option<u64>) -> Option<u64>
    ensures this { result ≡ next.old }
    ensures next { next.new ≡ number_after next.old }
{
    let number = *next;
    *next = number.and_then(|number| number.checked_add(1));
    number
}
