//! Files and sinks whose every fault is counted: what a program may load, save and put, and in
//! memory two of them that fail where they are told to.
//!
//! A program that answers "the device failed" could say so of devices that did not. Here it can't:
//! a fault raises a count that the object alone keeps, code that is generic over the object has no
//! way to raise it, and a contract that names the count ties the answer to it. For files the object
//! also keeps the blame, the kind and name of the last call that failed, so that the answer speaks
//! of a call on that very name.
#![tactic(auto)]

mod calls;
mod devices;
mod fault_log;
mod noted;
mod page;
mod pieces;
mod shelf;

pub use devices::{FileCall, Files, LoadError, PutError, SaveError, Sink};
pub use fault_log::FaultLog;
pub use page::Page;
pub use pieces::put_pieces;
pub use shelf::{Shelf, first_bytes};
