//! What a question comes out as.
use bd_terms::Id;

/// The term of a question, and how many fresh addresses it may read memories at: those with a number below.
#[derive(Clone, Copy)]
pub struct Goal {
    pub root: Id,
    pub addresses: u32,
}
