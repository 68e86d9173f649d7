//! Pipelines by number: a design of any depth from 2 to 12, with full forwarding or with one path of
//! it left out, as the text of the two machines.
#![tactic(auto)]

mod generated;

pub use generated::design_text;
