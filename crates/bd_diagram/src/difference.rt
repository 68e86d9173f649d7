//! Where two values part.
ghost use Rattle.std.specs.Prelude.{◌≡◌, ◌==◌, IfOk, OnOk};
ghost use Rattle.std.specs.List.{list_any};
ghost use Rattle.bd_diagram.specs.Differs.{difference, differences, memory_difference, differing_after};

use bd_model::{Memory, Sequence, Slot, Value, Words};
use std::alloc::{AllocError, Global};

/// Where two memories part: the addresses of their rows at which they read differently, and whether they do at the
/// addresses that are in no row.
#[derive(PartialEq, Drop)]
pub struct MemoryDifference {
    pub addresses: Words,
    pub elsewhere: bool,
}

/// What tells two values apart: nothing, that they are different scalars, or the words of two memories.
#[derive(PartialEq, Drop)]
pub enum Difference {
    Nothing,
    Latch,
    Memory(MemoryDifference),
}

/// A list of differences.
pub type Differences = Sequence<Difference>;

/// What tells the values of two states apart, place by place.
pub fn differences_of(
    alloc: Global,
    first: &[Value],
    second: &[Value],
) -> Result<Differences, AllocError>
    ensures { IfOk result (λ ds. ds ≡ differences first.now second.now) }
{
    let mut differences = Vec::new(alloc);
    for (value, other) in first.iter().zip(second) {
        differences.push(difference_of(alloc, value, other)?)?;
    }
    Ok(Sequence::from_vec(differences))
}

/// What tells two values apart.
fn difference_of(alloc: Global, first: &Value, second: &Value) -> Result<Difference, AllocError>
    ensures { IfOk result (λ d. d ≡ difference first.now second.now) }
{
    match (first, second) {
        (Value::Memory(memory), Value::Memory(other)) => {
            memory_difference_of(alloc, memory, other)
        }
        (Value::Scalar(scalar), Value::Scalar(other)) if scalar == other => Ok(Difference::Nothing),
        _ => Ok(Difference::Latch),
    }
}

/// What tells two memories apart: the addresses of rows where they read differently, and their defaults.
fn memory_difference_of(
    alloc: Global,
    first: &Memory,
    second: &Memory,
) -> Result<Difference, AllocError>
    ensures { IfOk result (λ d. d ≡ memory_difference first.now second.now) }
{
    let mut addresses = Vec::new(alloc);
    note_differing(&mut addresses, first, second, first.rows.as_slice())?;
    note_differing(&mut addresses, first, second, second.rows.as_slice())?;
    let elsewhere = first.default != second.default;
    if addresses.is_empty() && !elsewhere {
        return Ok(Difference::Nothing);
    }
    Ok(Difference::Memory(MemoryDifference {
        addresses: Sequence::from_vec(addresses),
        elsewhere,
    }))
}

/// Notes the addresses of these rows at which the memories read differently, each once.
fn note_differing(
    addresses: &mut Vec<u64>,
    first: &Memory,
    second: &Memory,
    rows: &[Slot],
) -> Result<(), AllocError>
    ensures { OnOk result (addresses.new.items
        ≡ differing_after first.now second.now addresses.old.items rows.now) }
{
    for row in rows {
        let address = row.address;
        if first.at(address) != second.at(address) && !has(addresses.as_slice(), address) {
            addresses.push(address)?;
        }
    }
    Ok(())
}

/// Whether a word is in a list.
fn has(words: &[u64], word: u64) -> bool
    ensures { result ≡ list_any (λ w. w == word) words.now }
{
    words.contains(&word)
}
