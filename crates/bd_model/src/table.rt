//! Words and truth values, and tables and memories of them.
//!
//! The first row that matches counts, so a write is a row put in front, and a memory's rows may name one address more
//! than once. Two memories read equal at every word exactly where their defaults are equal and they agree at the
//! address of each of their rows: words have no bound, so some address is in no row. Rows that two memories have in
//! common at their ends, as those of a memory and of what was written over it, need no comparison: past an address
//! that no earlier row has, both read the same.
ghost use Rattle.std.specs.Prelude.{◌≡◌, ◌≤◌, ◌-◌, length, drop};

use crate::design::Sort;
use bd_list::Sequence;
use std::alloc::AllocError;

/// A truth value or a word.
#[derive(Clone, Copy, Debug, PartialEq, Eq)]
pub enum Scalar {
    Bool(bool),
    Word(u64),
}

impl Scalar {
    ghost use Rattle.bd_model.specs.Fits.{scalar_sort};
    ghost use Rattle.bd_model.specs.Value.{scalar_truth, scalar_word};

    /// The sort of the scalar: word or bool.
    pub fn sort(self) -> Sort
        ensures { result ≡ scalar_sort self }
    {
        match self {
            Scalar::Bool(_) => Sort::Bool,
            Scalar::Word(_) => Sort::Word,
        }
    }

    /// The truth value. A word counts as false.
    pub fn truth(self) -> bool
        ensures { result ≡ scalar_truth self }
    {
        match self {
            Scalar::Bool(truth) => truth,
            Scalar::Word(_) => false,
        }
    }

    /// The word. A truth value counts as 0.
    pub fn word(self) -> u64
        ensures { result ≡ scalar_word self }
    {
        match self {
            Scalar::Bool(_) => 0,
            Scalar::Word(word) => word,
        }
    }
}

/// A list of words.
pub type Words = Sequence<u64>;

/// The value of a table at some arguments.
#[derive(PartialEq, Drop)]
pub struct Row {
    pub args: Words,
    pub value: Scalar,
}

impl Clone for Row {
    ghost use Rattle.std.specs.Prelude.{◌≡◌};

    ghost is_clone = { λ old new. new ≡ old };

    /// A copy of the row.
    fn clone(&self) -> Result<Row, AllocError> {
        Ok(Row {
            args: self.args.clone()?,
            value: self.value,
        })
    }
}

impl Row {
    ghost use Rattle.std.specs.Prelude.{◌≡◌};
    ghost use Rattle.bd_model.specs.Value.{slot_of};

    /// The row of a memory that a table's row stands for: its first argument is the address.
    pub fn slot(&self) -> Slot
        ensures { result ≡ slot_of self.now }
    {
        Slot {
            address: self.args.as_slice().first().copied().unwrap_or(0),
            value: self.value.word(),
        }
    }
}

/// A list of rows.
pub type Rows = Sequence<Row>;

/// What a function or predicate symbol stands for: the first row with the arguments counts, else the default.
#[derive(PartialEq, Drop)]
pub struct Table {
    pub default: Scalar,
    pub rows: Rows,
}

impl Clone for Table {
    ghost use Rattle.std.specs.Prelude.{◌≡◌};

    ghost is_clone = { λ old new. new ≡ old };

    /// A copy of the table, with its rows.
    fn clone(&self) -> Result<Table, AllocError> {
        Ok(Table {
            default: self.default,
            rows: self.rows.clone()?,
        })
    }
}

impl Table {
    ghost use Rattle.std.specs.Prelude.{◌≡◌};
    ghost use Rattle.bd_model.specs.Table.{at};

    /// The value that a table has at these arguments.
    pub fn at(&self, args: &[u64]) -> Scalar
        ensures { result ≡ at self.now args.now }
    {
        for row in self.rows.as_slice() {
            if row.args.as_slice() == args {
                return row.value;
            }
        }
        self.default
    }
}

/// The word that a memory has at an address.
#[derive(Clone, Copy, PartialEq, Eq)]
pub struct Slot {
    pub address: u64,
    pub value: u64,
}

/// A list of slots.
pub type Slots = Sequence<Slot>;

/// A machine's memory: the first row with the address counts, else the default.
#[derive(PartialEq, Drop)]
pub struct Memory {
    pub default: u64,
    pub rows: Slots,
}

impl Clone for Memory {
    ghost use Rattle.std.specs.Prelude.{◌≡◌};

    ghost is_clone = { λ old new. new ≡ old };

    /// A copy of the memory, with its rows.
    fn clone(&self) -> Result<Memory, AllocError> {
        Ok(Memory {
            default: self.default,
            rows: self.rows.clone()?,
        })
    }
}

impl Memory {
    ghost use Rattle.std.specs.Prelude.{◌≡◌, ◌↔◌, IsTrue, All};
    ghost use Rattle.bd_model.specs.Table.{read, ReadSame};

    /// The word that a memory has at this address.
    pub fn at(&self, addr: u64) -> u64
        ensures { result ≡ read self.now addr }
    {
        for slot in self.rows.as_slice() {
            if slot.address == addr {
                return slot.value;
            }
        }
        self.default
    }

    /// Whether two memories read equal at every address.
    pub fn same(&self, other: &Memory) -> bool
        ensures { IsTrue result ↔ ReadSame self.now other.now }
    {
        let mine = self.rows.as_slice();
        let others = other.rows.as_slice();
        let common = common_end(mine, others);
        self.default == other.default
            && self.agrees(other, &mine[..mine.len() - common])
            && self.agrees(other, &others[..others.len() - common])
    }

    /// Whether both memories have the same word at the address of each of these rows.
    fn agrees(&self, other: &Memory, slots: &[Slot]) -> bool
        ensures { IsTrue result
            ↔ All (λ s. read self.now s.address ≡ read other.now s.address) slots.now }
    {
        slots
            .iter()
            .all(|slot| self.at(slot.address) == other.at(slot.address))
    }
}

/// How many slots the two lists have in common at their ends.
fn common_end(a: &[Slot], b: &[Slot]) -> usize
    ensures first { result ≤ length a.now }
    ensures second { result ≤ length b.now }
    ensures same { drop (length a.now - result) a.now ≡ drop (length b.now - result) b.now }
{
    let mut common = 0;
    while common < a.len()
        && common < b.len()
        && a[a.len() - 1 - common] == b[b.len() - 1 - common]
    {
        common += 1;
    }
    common
}

/// What an entry of a state holds.
#[derive(PartialEq, Drop)]
pub enum Value {
    Scalar(Scalar),
    Memory(Memory),
}

impl Clone for Value {
    ghost use Rattle.std.specs.Prelude.{◌≡◌};

    ghost is_clone = { λ old new. new ≡ old };

    /// A copy of what an entry holds.
    fn clone(&self) -> Result<Value, AllocError> {
        match self {
            Value::Scalar(scalar) => Ok(Value::Scalar(*scalar)),
            Value::Memory(memory) => Ok(Value::Memory(memory.clone()?)),
        }
    }
}

impl Value {
    ghost use Rattle.std.specs.Prelude.{◌↔◌, IsTrue};
    ghost use Rattle.bd_model.specs.Fits.{value_sort};
    ghost use Rattle.bd_model.specs.Same.{SameValue};

    /// The sort of what an entry holds.
    pub fn sort(&self) -> Sort
        ensures { result ≡ value_sort self.now }
    {
        match self {
            Value::Scalar(scalar) => scalar.sort(),
            Value::Memory(_) => Sort::Memory,
        }
    }

    /// Whether the two can't be told apart: equal scalars, or memories that read equal at every address.
    pub fn same(&self, other: &Value) -> bool
        ensures { IsTrue result ↔ SameValue self.now other.now }
    {
        match (self, other) {
            (Value::Scalar(x), Value::Scalar(y)) => x == y,
            (Value::Memory(m), Value::Memory(n)) => m.same(n),
            _ => false,
        }
    }
}
