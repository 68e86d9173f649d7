//! Memories that writes make.
//!
//! A write stands over the memory that it changes: one that was handed in, or one that an earlier write made. So a let
//! that writes a memory costs one write, however many rows there are below it, and rows are copied only where a memory
//! is handed out.
ghost use Rattle.std.specs.Prelude.{◌≡◌, ◌<◌, ◌≤◌, false, IfOk, IfSome, IsNone, length, slice_index_or};
ghost use Rattle.bd_model.specs.Table.{read, write};
ghost use Rattle.bd_model.specs.Value.{memory_of, scalar_of, truth};
ghost use Rattle.bd_sim.specs.declared.writes.Kept.TheVariants as Kept;
ghost use Rattle.bd_sim.specs.declared.writes.Memories.{Memories};
ghost use Rattle.bd_sim.specs.inner.Writes.{memory_after, memory_at, kept_value, or_zeros, Grows, IsMade, with_slots};

use bd_model::{Memory, Scalar, Sequence, Slot, Value};
use std::alloc::{AllocError, Global};

/// A memory: that of zeros, one of a state's entries, one of the lets that were handed in, or one that a write made.
#[derive(Clone, Copy)]
pub enum Chain {
    Zeros,
    Entry(u32),
    Given(u32),
    Written(usize),
}

/// A write over the memory below it.
#[derive(Clone, Copy)]
pub struct Write {
    pub below: Chain,
    pub slot: Slot,
}

/// What a let is kept as.
#[derive(Clone, Copy)]
pub enum Kept {
    Scalar(Scalar),
    Memory(Chain),
}

impl Kept {
    /// The scalar, false where it is a memory.
    pub fn scalar(self) -> Scalar
        ensures { (m : Memories) → result ≡ scalar_of (kept_value m self) }
    {
        match self {
            Kept::Scalar(scalar) => scalar,
            Kept::Memory(_) => Scalar::Bool(false),
        }
    }

    /// The memory, that of zeros where it is a scalar.
    pub fn memory(self) -> Chain
        ensures value { (m : Memories) → memory_at m result ≡ memory_of (kept_value m self) }
        ensures made { (m : Memories) → IsMade m self → IsMade m (Kept.Memory result) }
    {
        match self {
            Kept::Scalar(_) => Chain::Zeros,
            Kept::Memory(chain) => chain,
        }
    }
}

/// The values that were handed in, and the writes over their memories.
#[derive(Drop)]
pub struct Memories<'a> {
    pub state: &'a [Value],
    pub given: &'a [Value],
    pub writes: Vec<Write>,
}

/// A write, and how many come before it.
struct LastWrite {
    write: Write,
    place: usize,
}

impl<'a> Memories<'a> {
    /// The write that made a memory, if one of the first `count` did.
    fn last_write(&self, count: usize, chain: Chain) -> Option<LastWrite>
        requires { count ≤ length self.now.writes.items }
        ensures made { IfSome result (λ w. memory_after self.now count chain
            ≡ write (memory_after self.now w.place w.write.below)
            w.write.slot.address w.write.slot.value) }
        ensures fewer { IfSome result (λ w. w.place < count) }
        ensures none { IsNone result → memory_after self.now count chain
            ≡ memory_after self.now 0 chain }
    {
        match chain {
            Chain::Written(place) => {
                if place >= count {
                    return None;
                }
                Some(LastWrite {
                    write: self.writes[place],
                    place,
                })
            }
            _ => None,
        }
    }

    /// The memory with a word more, over the one below it.
    pub fn write(&mut self, below: Chain, slot: Slot) -> Result<Chain, AllocError>
        ensures value { IfOk result (λ c. memory_at self.new c
            ≡ write (memory_at self.old below) slot.address slot.value) }
        ensures made { IfOk result (λ c. IsMade self.new (Kept.Memory c)) }
        ensures grows { IfOk result (λ c. Grows self.old self.new) }
    {
        let place = self.writes.len();
        self.writes.push(Write { below, slot })?;
        Ok(Chain::Written(place))
    }

    /// What a memory has at an address.
    pub fn read(&self, chain: Chain, address: u64) -> u64
        ensures { result ≡ read (memory_at self.now chain) address }
    {
        let mut count = self.writes.len();
        let mut chain = chain;
        while let Some(LastWrite { write, place }) = self.last_write(count, chain) {
            if write.slot.address == address {
                return write.slot.value;
            }
            chain = write.below;
            count = place;
        }
        self.handed(chain).map_or(0, |memory| memory.at(address))
    }

    /// A memory with all its rows.
    pub fn whole(&self, alloc: Global, chain: Chain) -> Result<Memory, AllocError>
        ensures { IfOk result (λ m. m ≡ memory_at self.now chain) }
    {
        let mut slots = Vec::new(alloc);
        let mut count = self.writes.len();
        let mut chain = chain;
        while let Some(LastWrite { write, place }) = self.last_write(count, chain) {
            slots.push(write.slot)?;
            chain = write.below;
            count = place;
        }
        over(slots, self.handed(chain))
    }

    /// The value of a let, with all rows of a memory.
    pub fn value(&self, alloc: Global, kept: Kept) -> Result<Value, AllocError>
        ensures { IfOk result (λ v. v ≡ kept_value self.now kept) }
    {
        match kept {
            Kept::Scalar(scalar) => Ok(Value::Scalar(scalar)),
            Kept::Memory(chain) => Ok(Value::Memory(self.whole(alloc, chain)?)),
        }
    }

    /// The memory that was handed in, where it isn't that of zeros.
    fn handed(&self, chain: Chain) -> Option<&Memory>
        ensures { memory_after self.now 0 chain ≡ or_zeros result }
    {
        match chain {
            Chain::Entry(i) => memory_of(self.state, i as usize),
            Chain::Given(i) => memory_of(self.given, i as usize),
            _ => None,
        }
    }
}

/// The memory that slots make over another one, or over that of zeros: the first slot with an address counts.
fn over(slots: Vec<Slot>, below: Option<&Memory>) -> Result<Memory, AllocError>
    ensures { IfOk result (λ m. m ≡ with_slots slots.items (or_zeros below.entry)) }
{
    let mut slots = slots;
    let mut default = 0;
    if let Some(memory) = below {
        default = memory.default;
        slots.extend_from_slice(memory.rows.as_slice())?;
    }
    Ok(Memory {
        default,
        rows: Sequence::from_vec(slots),
    })
}

/// The memory that the entry at a place holds, if it holds one.
fn memory_of(values: &[Value], i: usize) -> Option<&Memory>
    ensures { memory_of (slice_index_or values.now i (truth false)) ≡ or_zeros result }
{
    match values.get(i) {
        Some(Value::Memory(memory)) => Some(memory),
        _ => None,
    }
}
