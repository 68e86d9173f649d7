//! A pipeline and its instruction set machine.
use crate::expr::{Expr, Exprs};
use bd_list::Sequence;

/// The sort of an expression or an entry.
#[derive(Clone, Copy, PartialEq, Eq)]
pub enum Sort {
    Bool,
    Word,
    Memory,
}

/// The bytes of a name.
pub type Name = Sequence<u8>;

/// A list of numbers of entries or symbols.
pub type Places = Sequence<u32>;

/// A function of words, or a predicate of words.
#[derive(PartialEq, Drop)]
pub struct Symbol {
    pub name: Name,
    pub arity: u32,
    pub predicate: bool,
}

/// A list of symbols.
pub type Symbols = Sequence<Symbol>;

/// A latch, of sort word or bool, or a memory.
#[derive(PartialEq, Drop)]
pub struct Entry {
    pub name: Name,
    pub sort: Sort,
}

/// A list of entries.
pub type Entries = Sequence<Entry>;

/// An input, and the flush expression that gives its value in flush cycles.
#[derive(PartialEq, Drop)]
pub struct Port {
    pub name: Name,
    pub sort: Sort,
    pub idle: Expr,
}

/// A list of inputs.
pub type Ports = Sequence<Port>;

/// A let: a value that later expressions name by its number.
#[derive(PartialEq, Drop)]
pub struct Local {
    pub sort: Sort,
    pub value: Expr,
}

/// A list of lets, in which each may use the earlier ones.
pub type Locals = Sequence<Local>;

/// Where the condition is true before a cycle, that cycle has to stand for exactly this many steps of the
/// specification.
#[derive(PartialEq, Drop)]
pub struct Exact {
    pub count: u32,
    pub when: Expr,
}

/// A list of exact items.
pub type Exacts = Sequence<Exact>;

/// A list of groups of constants, by symbol number; the constants of one group differ from one another.
pub type Distinct = Sequence<Places>;

/// A machine: its entries, inputs and lets, and the next value of each entry.
#[derive(PartialEq, Drop)]
pub struct Machine {
    pub entries: Entries,
    pub ports: Ports,
    pub locals: Locals,
    pub nexts: Exprs,
}

/// A pipeline, its specification and an invariant. `visible` has for each entry of the specification its
/// place in the pipeline; `flush` is the number of flush cycles, and `steps` the most steps of the
/// specification that one cycle of the pipeline may stand for.
#[derive(PartialEq, Drop)]
pub struct Design {
    pub pipe: Machine,
    pub spec: Machine,
    pub symbols: Symbols,
    pub visible: Places,
    pub flush: u32,
    pub steps: u32,
    pub inv_locals: Locals,
    pub inv: Expr,
    pub exact: Exacts,
    pub distinct: Distinct,
}
