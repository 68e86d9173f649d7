//! A diverse world from one that makes the root false: one pass in rising order.
ghost use Rattle.std.specs.Prelude.{◌≡◌, ◌<◌, IsTrue, length, IfOk};
ghost use Rattle.bd_terms.specs.Denotation.{truth};
ghost use Rattle.bd_function.specs.Flat.{ReachesNoMemory};
ghost use Rattle.bd_function.specs.Tables.{world_of_tables};
ghost use Rattle.bd_diverse.specs.Diverse.{IsDiverse, KeepsApart};
ghost use Rattle.bd_diverse.specs.inner.Rows.{IsOld, SpreadsAll};

use crate::adding::{spread_term, start};
use crate::base_world::{BaseWorld, known};
use crate::scalars::scalars;
use bd_function::{FlatTables, SymTable};
use bd_model::Scalar;
use bd_terms::{Graph, Id, reached};
use std::alloc::{AllocError, Global};

/// The tables of a diverse world that makes the root false, as the given ones do: the first reached application of a
/// positive symbol to equal words has a value of its own, and all else the value that it had. A value past 64 bits ends
/// as out of memory.
pub fn diversify(
    alloc: Global,
    graph: &Graph,
    root: Id,
    tables: &FlatTables,
) -> Result<FlatTables, AllocError>
    requires root { root < length graph.now }
    requires memory { ReachesNoMemory graph.now root }
    requires is_false { ¬ IsTrue (truth (world_of_tables tables.now) graph.now root) }
    ensures is_false { IfOk result (λ ts.
        ¬ IsTrue (truth (world_of_tables ts) graph.now root)) }
    ensures diverse { IfOk result (λ ts. IsDiverse (world_of_tables ts) graph.now root) }
    ensures apart { IfOk result (λ ts.
        KeepsApart (world_of_tables tables.now) (world_of_tables ts)) }
{
    let old = known(alloc, graph, root, tables.as_slice())?;
    let spread = spread(alloc, graph, root, tables.as_slice(), &old)?;
    Ok(FlatTables::from_vec(spread))
}

/// Whether the root is true in the world of the tables.
pub fn is_true(
    alloc: Global,
    graph: &Graph,
    root: Id,
    tables: &FlatTables,
) -> Result<bool, AllocError>
    requires root { root < length graph.now }
    requires memory { ReachesNoMemory graph.now root }
    ensures { IfOk result (λ b. b ≡ truth (world_of_tables tables.now) graph.now root) }
{
    let scalars = scalars(alloc, graph, tables.as_slice())?;
    let scalar = scalars
        .get(root.index())
        .copied()
        .unwrap_or(Scalar::Bool(false));
    Ok(scalar.truth())
}

/// The tables of the world in which positive applications have values of their own.
fn spread(
    alloc: Global,
    graph: &Graph,
    root: Id,
    tables: &[SymTable],
    old: &BaseWorld,
) -> Result<Vec<SymTable>, AllocError>
    requires root { root < length graph.now }
    requires memory { ReachesNoMemory graph.now root }
    requires old { IsOld (world_of_tables tables.now) graph.now root old.now }
    ensures { IfOk result (λ ts.
        SpreadsAll (world_of_tables tables.now) old.now graph.now root
        (world_of_tables ts.items)) }
{
    let marks = reached(graph, root)?;
    let mut spread = start(alloc, tables)?;
    let mut done = Vec::with_capacity(alloc, graph.len())?;
    for index in 0..graph.len() {
        let id = graph.id(index);
        let scalar = if marks.has(id) {
            spread_term(alloc, tables, old, &done, &mut spread, graph.node(id))?
        } else {
            Scalar::Bool(false)
        };
        done.push(scalar)?;
    }
    Ok(spread)
}
