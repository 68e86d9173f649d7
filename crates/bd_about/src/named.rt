//! What an expression names.

/// An entry, input or let of the machine in which an expression stands, or a symbol of the design, by its number.
#[derive(Clone, Copy, PartialEq, Eq)]
pub enum Named {
    Entry(u32),
    Input(u32),
    Local(u32),
    Symbol(u32),
}
