//! The forms of machine, invariant and completion files: from trees to items and expressions, or the first fault.
//!
//! Forms are looked at from left to right, and a list's own shape before its parts, so the first fault is met
//! first. What a file reads as is a function of its trees (`specs/Reading.antt`), and each reader gives what
//! that function gives. Expressions are read by recursion, as deep as the file nests, and lists by loops. An
//! atom is copied once, into the form, and trees not at all. Names and sorts are not looked at here.
#![tactic(auto)]

mod ast;
pub mod atoms;
mod completion;
mod expression;
mod fault;
mod form;
mod head;
mod item;
pub mod laws;
pub mod lists;
mod name;
mod number;
mod operator;
mod read;
mod read_item;

pub use ast::{Abstract, Abstracts, Ast, CompAst, InvAst, Kind};
pub use completion::read_completion;
pub use fault::{FormFault, bad};
pub use form::{Form, Forms, Spot};
pub use item::{Item, Items, Spots};
pub use name::is_name;
pub use operator::Operator;
pub use read::{read_invariant, read_machine, read_start};
