//! Whether the same differs in two cases, after each number of steps.
ghost use Rattle.std.specs.Prelude.{◌≡◌, ◌↔◌, IsTrue};
ghost use Rattle.std.specs.List.{AllZip};
ghost use Rattle.bd_diagram.specs.Alike.{IsSameDifference, IsAlike};

use crate::comparison::Comparison;
use crate::difference::Difference;

/// Whether two lists of comparisons say the same of each number of steps: whether it is allowed, and what differs.
pub fn are_alike(first: &[Comparison], second: &[Comparison]) -> bool
    ensures { IsTrue result ↔ AllZip IsAlike first.now second.now }
{
    if first.len() != second.len() {
        return false;
    }
    for (comparison, other) in first.iter().zip(second) {
        if !is_alike(comparison, other) {
            return false;
        }
    }
    true
}

/// Whether two comparisons agree on whether the number of steps is allowed and on what differs.
fn is_alike(first: &Comparison, second: &Comparison) -> bool
    ensures { IsTrue result ↔ IsAlike first.now second.now }
{
    first.allowed == second.allowed
        && same_differences(first.differences.as_slice(), second.differences.as_slice())
}

/// Whether two states differ from theirs at the same entries and addresses, entry by entry.
fn same_differences(first: &[Difference], second: &[Difference]) -> bool
    ensures { IsTrue result ↔ AllZip IsSameDifference first.now second.now }
{
    if first.len() != second.len() {
        return false;
    }
    for (difference, other) in first.iter().zip(second) {
        if !same_difference(difference, other) {
            return false;
        }
    }
    true
}

/// Whether two entries differ alike: not at all, as latches, or as memories at the same addresses.
fn same_difference(first: &Difference, second: &Difference) -> bool
    ensures { IsTrue result ↔ IsSameDifference first.now second.now }
{
    match (first, second) {
        (Difference::Nothing, Difference::Nothing) => true,
        (Difference::Latch, Difference::Latch) => true,
        (Difference::Memory(memory), Difference::Memory(other)) => {
            memory.elsewhere == other.elsewhere
                && memory.addresses.as_slice() == other.addresses.as_slice()
        }
        _ => false,
    }
}
