//! Function and predicate symbols eliminated from a formula (Bryant, German and Velev 2001), and tables back from
//! values of the variables that stand in their place.
#![tactic(auto)]

mod eliminate;
mod flat;
mod nested;
pub mod scalars;
mod symbol_tables;
mod values;

pub use eliminate::flatten;
pub use flat::{Flat, FlatRow, FlatRows, FlatSym, FlatSyms};
pub use symbol_tables::{FlatTables, SymTable, tables};
pub use values::{Marked, Values};
