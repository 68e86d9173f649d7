//! The two ways round the commuting diagram of a case, and where they part (Burch and Dill 1994).
#![tactic(auto)]

mod abstracted;
mod alike;
mod comparison;
mod diagram;
mod difference;
mod flushing;
mod laws;

pub use abstracted::{contrast_with, diagram_between};
pub use alike::are_alike;
pub use comparison::{Comparison, Comparisons};
pub use diagram::{Diagram, diagram_of};
pub use difference::{Difference, Differences, MemoryDifference};
pub use flushing::Flushing;
pub use laws::{
    addresses_found, alike_where_compared, commutes_where_same, same_where_no_difference,
};
