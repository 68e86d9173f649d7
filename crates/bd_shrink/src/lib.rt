//! A case that breaks a condition, made small: rows are left out and values set to 0 as long as it breaks the same
//! condition and the same differs.
#![tactic(auto)]

mod apart;
mod fate;
mod laws;
mod pass;
mod remnant;
mod search;
mod shrinking;
mod whole;

pub use fate::Fate;
pub use laws::remnant_is_part;
pub use shrinking::shrink;
