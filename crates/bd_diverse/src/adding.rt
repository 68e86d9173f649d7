//! The tables of a diverse world, a row at a time.
ghost use Rattle.std.specs.Prelude.{◌≡◌, ◌<◌, ◌≤◌, ◌+◌, [], suc, length, map, IfOk, OnOk};
ghost use Rattle.bd_terms.specs.declared.node.Sym.{Sym as TheSym};
ghost use Rattle.bd_function.specs.Tables.{world_of_tables};
ghost use Rattle.bd_diverse.specs.inner.Spread.{spread_value, with_row};
ghost use Rattle.bd_function.specs.inner.Scalars.{word_at};
ghost use Rattle.bd_diverse.specs.inner.Rows.{AddsTerm, AddsUse, place_of, row_pushed, start_table};

use crate::base_world::BaseWorld;
use crate::scalars::{connective, value_at, words};
use bd_function::SymTable;
use bd_model::{Row, Rows, Scalar, Table, Words};
use bd_terms::{Id, Node, Sym};
use std::alloc::{AllocError, Global};

/// The tables that a new world begins with: no rows, and as default what each symbol has at no arguments.
pub(crate) fn start(alloc: Global, tables: &[SymTable]) -> Result<Vec<SymTable>, AllocError>
    ensures { IfOk result (λ ts. ts.items ≡ map start_table tables.now) }
{
    let mut started = Vec::with_capacity(alloc, tables.len())?;
    for table in tables {
        started.push(empty(alloc, table.sym, table.table.at(&[])))?;
    }
    Ok(started)
}

/// A symbol's table without rows.
fn empty(alloc: Global, sym: Sym, default: Scalar) -> SymTable
    ensures { result ≡ record { sym = sym; table = record { default = default; rows = [] } } }
{
    SymTable {
        sym,
        table: Table {
            default,
            rows: Rows::new(alloc),
        },
    }
}

/// What a term denotes in the new world, from the terms before it. An application puts a row into its symbol's table.
pub(crate) fn spread_term(
    alloc: Global,
    tables: &[SymTable],
    old: &BaseWorld,
    done: &[Scalar],
    spread: &mut Vec<SymTable>,
    node: &Node,
) -> Result<Scalar, AllocError>
    ensures { IfOk result (λ x.
        AddsTerm (world_of_tables tables.now) old.now done.now node.now
        (world_of_tables spread.old.items) (world_of_tables spread.new.items) x) }
{
    match node {
        Node::App(sym, args) => {
            let args = args.as_slice();
            let value = spread_use(alloc, tables, old, done, spread, *sym, args)?;
            Ok(Scalar::Word(value.word()))
        }
        Node::Pred(sym, args) => {
            let args = args.as_slice();
            let value = spread_use(alloc, tables, old, done, spread, *sym, args)?;
            Ok(Scalar::Bool(value.truth()))
        }
        _ => Ok(connective(done, node)),
    }
}

/// The value of an application in the new world, after its row has been put after those of its symbol.
fn spread_use(
    alloc: Global,
    tables: &[SymTable],
    old: &BaseWorld,
    done: &[Scalar],
    spread: &mut Vec<SymTable>,
    sym: Sym,
    args: &[Id],
) -> Result<Scalar, AllocError>
    ensures { IfOk result (λ x.
        AddsUse (world_of_tables tables.now) old.now done.now sym args.now
        (world_of_tables spread.old.items) (world_of_tables spread.new.items) x) }
{
    let value = row_value(alloc, tables, old, done.len(), sym, args)?;
    let row_words = words(alloc, done, args)?;
    let row = Row {
        args: Words::from_vec(row_words),
        value,
    };
    add_row(alloc, spread, sym, row)?;
    let words = words(alloc, done, args)?;
    Ok(value_at(spread, sym, &words))
}

/// The value in an application's row: one of its own if the symbol is positive, and else the one that it had before.
fn row_value(
    alloc: Global,
    tables: &[SymTable],
    old: &BaseWorld,
    place: usize,
    sym: Sym,
    args: &[Id],
) -> Result<Scalar, AllocError>
    ensures { IfOk result (λ x.
        x ≡ spread_value old.now.positive old.now.bound (world_of_tables tables.now) place sym
        (map (word_at old.now.scalars.items) args.now)) }
{
    if old.positive.has(sym) {
        let own = own(old.bound, place)?;
        Ok(Scalar::Word(own))
    } else {
        let words = words(alloc, &old.scalars, args)?;
        Ok(value_at(tables, sym, &words))
    }
}

/// The value of its own that the application at a place has. A number past 64 bits ends as out of memory.
fn own(bound: u64, place: usize) -> Result<u64, AllocError>
    ensures { IfOk result (λ word. word ≡ suc (bound + place)) }
{
    let next = bound.checked_add(1).ok_or(AllocError)?;
    next.checked_add(place as u64).ok_or(AllocError)
}

/// Puts a row after those of the symbol, which gets a table if it has none.
fn add_row(alloc: Global, tables: &mut Vec<SymTable>, sym: Sym, row: Row) -> Result<(), AllocError>
    ensures { OnOk result ((s : TheSym) →
        world_of_tables tables.new.items s
        ≡ with_row (world_of_tables tables.old.items) sym row s) }
{
    let place = place(tables, sym);
    if place == tables.len() {
        tables.push(empty(alloc, sym, Scalar::Bool(false)))?;
    }
    push_row(tables, place, row)
}

/// The place of the symbol's table, or the number of tables if it has none.
fn place(tables: &[SymTable], sym: Sym) -> usize
    ensures place { result ≡ place_of tables.now sym }
    ensures inside { result ≤ length tables.now }
{
    for index in 0..tables.len() {
        if tables[index].sym == sym {
            return index;
        }
    }
    tables.len()
}

/// Puts a row after those of the table at the place.
fn push_row(tables: &mut Vec<SymTable>, place: usize, row: Row) -> Result<(), AllocError>
    requires { place < length tables.old.items }
    ensures { OnOk result (tables.new.items ≡ row_pushed tables.old.items place row) }
{
    tables[place].table.rows.push(row)?;
    Ok(())
}
