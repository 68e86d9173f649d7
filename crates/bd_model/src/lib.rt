//! Values, machines, designs and cases, and what it means that a pipeline is right.
#![tactic(auto)]

mod abstraction;
mod case;
mod design;
mod expr;
mod fits;
mod laws;
mod table;

pub use abstraction::Abstraction;
pub use bd_list::Sequence;
pub use case::{
    Case, Condition, InputLists, Inputs, Interp, Judged, LetValues, State, States, Trail,
    TrailJudged,
};
pub use design::{
    Design, Distinct, Entries, Entry, Exact, Exacts, Local, Locals, Machine, Name, Places, Port,
    Ports, Sort, Symbol, Symbols,
};
pub use expr::{Expr, Exprs};
pub use laws::{
    agreement_keeps_right, always_judged, broken_breaks, cycles_compose, cycles_compose_by,
    judged_once, trails_decide,
};
pub use table::{Memory, Row, Rows, Scalar, Slot, Slots, Table, Value, Words};
