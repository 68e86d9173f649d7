//! Cases and trails as text: what a cycle or a run of a pipeline starts from, written and read.
//!
//! A case gives a table for each function and predicate, a value for each latch, memory and input; a trail gives a
//! value of each input for every cycle, and a case is a trail of one. All of these are read and written as tables, a
//! latch without rows, a memory with one address, and an input with a row for each cycle, so an entry has one form.
//! What a text reads as is a function of its trees (`specs/Reading.antt`), and each reader gives what that function
//! gives. Reading what was written of a case or a trail gives it back.
#![tactic(auto)]

mod entry;
mod frame;
mod kind;
pub mod laws;
mod line;
mod read;
mod value;
mod whole;
mod write;

pub use read::{read_case, read_trail};
pub use write::{case_text, state_text, trail_text};

/// Why a case isn't read.
pub type CaseFault = bd_syntax::FormFault;

/// Why a trail isn't read.
pub type TrailFault = bd_syntax::FormFault;
