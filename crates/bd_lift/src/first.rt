//! Tables without rows that can't be read: the first row with the arguments counts, so of rows with the same arguments
//! the first one stays.
ghost use Rattle.std.specs.Prelude.{◌≡◌, [], ◌∷◌, ◌++◌, All, Contains, IfOk, OnOk, map};
ghost use Rattle.bd_lift.specs.Counting.{ArgumentsDiffer};
ghost use Rattle.bd_lift.specs.inner.First.{AreAlike, AreEnough, HaveSameValues, RowsDiffer, entry_row};

use bd_function::{FlatTables, SymTable};
use bd_model::{Row, Rows, Scalar, Table, Words};
use indexmap::IndexMap;
use std::alloc::{AllocError, Global};

/// The tables with their first rows alone.
pub(crate) fn first_tables(alloc: Global, tables: FlatTables) -> Result<FlatTables, AllocError>
    ensures alike { IfOk result (λ first. AreAlike tables first) }
    ensures differ { IfOk result RowsDiffer }
{
    let mut first = Vec::with_capacity(alloc, tables.len())?;
    for SymTable { sym, table } in tables.into_vec() {
        let Table { default, rows } = table;
        let kept = first_rows(alloc, rows)?;
        first.push(SymTable {
            sym,
            table: Table {
                default,
                rows: kept,
            },
        })?;
    }
    Ok(FlatTables::from_vec(first))
}

/// The rows without those whose arguments an earlier row has.
fn first_rows(alloc: Global, rows: Rows) -> Result<Rows, AllocError>
    ensures enough { IfOk result (λ first. AreEnough rows first) }
    ensures differ { IfOk result ArgumentsDiffer }
{
    let mut first = IndexMap::new(alloc);
    for row in rows.into_vec() {
        put_first(&mut first, row)?;
    }
    rows_of(alloc, first)
}

/// Puts the row after the others, unless one of them has its arguments.
fn put_first(first: &mut IndexMap<Vec<u64>, Scalar>, row: Row) -> Result<(), AllocError>
    ensures same { OnOk result (HaveSameValues (map entry_row first.new.entries)
        (map entry_row first.old.entries ++ row ∷ [])) }
    ensures among { OnOk result (All (Contains (map entry_row first.old.entries ++ row ∷ []))
        (map entry_row first.new.entries)) }
{
    let Row { args, value } = row;
    if !first.contains_key(args.as_slice()) {
        first.insert(args.into_vec(), value)?;
    }
    Ok(())
}

/// The rows of a map from arguments to values, in the map's order.
fn rows_of(alloc: Global, first: IndexMap<Vec<u64>, Scalar>) -> Result<Rows, AllocError>
    ensures entries { IfOk result (λ rows. rows ≡ map entry_row first.entries) }
    ensures differ { IfOk result ArgumentsDiffer }
{
    let mut rows = Vec::with_capacity(alloc, first.len())?;
    for (args, value) in first {
        rows.push(Row {
            args: Words::from_vec(args),
            value,
        })?;
    }
    Ok(Rows::from_vec(rows))
}
