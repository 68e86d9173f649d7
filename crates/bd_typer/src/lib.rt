//! Names and sorts: from the forms of files to a design, and to what a completion abstracts to, or to their first
//! fault.
//!
//! The files are gone through in passes. The declarations of all of them come first, then their expressions, and then
//! the specification against the pipeline. What a file's names mean is a function of its items
//! (`specs/NameMap.antt`), an expression is typed and built in one walk (`specs/Typing.antt`), and what files denote is
//! one definition over these (`specs/Joined.antt`). Names are found in maps, and lists gone through by loops; only
//! expressions are gone into by recursion, as deep as they nest.
#![tactic(auto)]

mod across;
mod completions;
mod declarations;
mod design;
mod expression;
mod fault;
mod inputs;
mod joining;
pub mod laws;
mod names;
mod operation;
mod premise;
mod scope;
mod walk;

pub use design::{completed_design, design_of, design_with};
pub use fault::{DesignFault, Text, TypeFault};
pub use joining::{Joined, join, join_completion};
pub use premise::Premise;
