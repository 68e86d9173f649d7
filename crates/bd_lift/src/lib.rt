//! Back from a satisfying assignment to a case: classes of the edges' values give words to the variables (Bryant and
//! Velev 2000), the variables give tables to the symbols (Bryant, German and Velev 2001), and the tables make a case.
#![tactic(auto)]

mod build;
mod decode;
mod first;
mod laws;
mod lifting;

pub use laws::{decoded_edges_tell, decoded_have_sorts, decoded_others_differ, lifted_denotes};
pub use lifting::{lift, lift_trail};
