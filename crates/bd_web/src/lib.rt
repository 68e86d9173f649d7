//! The program and its companion for a web page: the words and the files come as bytes, and so do the outputs and the
//! files that the run leaves.
#![tactic(auto)]

mod back;
mod cut;
mod fault;
mod folder;
mod handed;
mod page;
mod program;

pub use fault::Fault;
pub use page::bd_web_run;
