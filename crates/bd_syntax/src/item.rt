//! The items of a machine or invariant file.

use crate::{Form, Spot};
use bd_list::Sequence;
use bd_model::Sort;

/// Atoms of a file, in its order.
pub type Spots = Sequence<Spot>;

/// An item. Each has the offset of its `(`.
#[derive(PartialEq, Eq, Drop)]
pub enum Item {
    /// `(latch NAME SORT)`, of sort word or bool.
    Latch {
        offset: usize,
        name: Spot,
        sort: Sort,
    },
    /// `(memory NAME)`.
    Memory {
        offset: usize,
        name: Spot,
    },
    /// `(input NAME SORT EXPR)`, of sort word or bool, with its value in flush cycles.
    Input {
        offset: usize,
        name: Spot,
        sort: Sort,
        idle: Form,
    },
    /// `(function NAME N)`, of 0 to 8 words.
    Function {
        offset: usize,
        name: Spot,
        arity: u32,
    },
    /// `(predicate NAME N)`, of 0 to 8 words.
    Predicate {
        offset: usize,
        name: Spot,
        arity: u32,
    },
    /// `(let NAME SORT EXPR)`.
    Let {
        offset: usize,
        name: Spot,
        sort: Sort,
        value: Form,
    },
    /// `(next NAME EXPR)`.
    Next {
        offset: usize,
        name: Spot,
        value: Form,
    },
    /// `(flush N)`, from 0 to 64.
    Flush {
        offset: usize,
        count: u32,
    },
    /// `(steps N)`, from 0 to 8.
    Steps {
        offset: usize,
        count: u32,
    },
    /// `(exact N EXPR)`: so many steps, from 0 to 8, where the expression is true.
    Exact {
        offset: usize,
        count: u32,
        when: Form,
    },
    /// `(distinct NAME NAME ..)`, of two or more names.
    Distinct {
        offset: usize,
        names: Spots,
    },
}

/// Items, in the order of the file.
pub type Items = Sequence<Item>;
