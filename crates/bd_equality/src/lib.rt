//! Equality between words as propositional logic, in which whether two variables are equal is an atom.
#![tactic(auto)]

mod apart;
mod encoded;
mod encoding;
mod equality;
mod leaf;
mod pairs;
mod parts;
mod rows;
mod settled;
mod split;
mod trees;
mod wanted;
mod ways;

pub use encoded::{Encoded, encode};
