//! What is known of the world from which a diverse one is made.
ghost use Rattle.std.specs.Prelude.{◌<◌, length, IfOk};
ghost use Rattle.bd_function.specs.Tables.{world_of_tables};
ghost use Rattle.bd_diverse.specs.inner.Rows.{IsOld};

use crate::finding::positive;
use crate::scalars::{greatest_constant, greatest_word, scalars};
use crate::symbols::Positive;
use bd_function::SymTable;
use bd_model::Scalar;
use bd_terms::{Graph, Id};
use std::alloc::{AllocError, Global};

/// What is known of the world that makes the root false.
#[derive(Drop)]
pub(crate) struct BaseWorld {
    /// What the terms denote there.
    pub(crate) scalars: Vec<Scalar>,
    pub(crate) positive: Positive,
    /// No word there that counts exceeds it.
    pub(crate) bound: u64,
}

/// What is known of the world of the tables: what each term denotes, the positive symbols, and a bound for its words.
pub(crate) fn known(
    alloc: Global,
    graph: &Graph,
    root: Id,
    tables: &[SymTable],
) -> Result<BaseWorld, AllocError>
    requires { root < length graph.now }
    ensures { IfOk result (λ old. IsOld (world_of_tables tables.now) graph.now root old) }
{
    let positive = positive(alloc, graph, root)?;
    let scalars = scalars(alloc, graph, tables)?;
    let bound = greatest_word(&scalars).max(greatest_constant(tables));
    Ok(BaseWorld {
        scalars,
        positive,
        bound,
    })
}
