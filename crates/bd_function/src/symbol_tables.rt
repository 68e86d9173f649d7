//! The way back: from values of the variables to a table for each symbol. One pass over the graph in rising order gives
//! each term its value.
ghost use Rattle.std.specs.Prelude.{◌≡◌, map, IfOk};
ghost use Rattle.bd_model.specs.Value.{scalar_truth, scalar_word};
ghost use Rattle.bd_terms.specs.Graph.{IsGraph};
ghost use Rattle.bd_terms.specs.Denotation.{values as denotations};
ghost use Rattle.bd_function.specs.Flat.{IsFlat, KeepsFirst, under};
ghost use Rattle.bd_function.specs.Tables.{default_of, sym_tables, world_of_tables, zero_like};
ghost use Rattle.bd_function.specs.Values.{scalar_of};
ghost use Rattle.bd_function.specs.inner.Scalars.{as_denoted, node_scalar, row_from, sym_table_from, symbol_value};

use crate::flat::{Flat, FlatRow, FlatSym};
use crate::scalars::{scalar_at, truth_at, word_at};
use crate::values::Values;
use bd_list::Sequence;
use bd_model::{Row, Rows, Scalar, Table, Words};
use bd_terms::{Id, Node, Sym};
use std::alloc::{AllocError, Global};

/// A symbol with the table that it stands for.
#[derive(PartialEq, Drop)]
pub struct SymTable {
    pub sym: Sym,
    pub table: Table,
}

/// A list of symbols with their tables.
pub type FlatTables = Sequence<SymTable>;

/// A table for each symbol, with its rows in their order, so that the first of equal applications counts. In the world
/// of these tables the formula that was flattened denotes what the flat one denotes under the values.
pub fn tables(alloc: Global, flat: &Flat, values: &Values) -> Result<FlatTables, AllocError>
    ensures exact { IfOk result (λ ts.
        ts ≡ sym_tables (scalar_of values.now) flat.now.graph flat.now.syms) }
    ensures first { IfOk result (λ ts.
        KeepsFirst (world_of_tables ts) (scalar_of values.now) flat.now.graph flat.now.syms) }
{
    let scalars = scalars(alloc, flat, values)?;
    let mut tables = Vec::with_capacity(alloc, flat.syms.len())?;
    for sym in flat.syms.as_slice() {
        let table = sym_table(alloc, values, &scalars, sym)?;
        tables.push(table)?;
    }
    Ok(FlatTables::from_vec(tables))
}

/// What each term of the flat graph denotes under values of its variables.
fn scalars(alloc: Global, flat: &Flat, values: &Values) -> Result<Vec<Scalar>, AllocError>
    ensures denotes { IfOk result (λ done. map as_denoted done.items
        ≡ denotations (under (scalar_of values.now)) flat.now.graph) }
{
    let mut done = Vec::with_capacity(alloc, flat.graph.len())?;
    for index in 0..flat.graph.len() {
        let scalar = evaluate(values, &done, flat.graph.node(flat.graph.id(index)));
        done.push(scalar)?;
    }
    Ok(done)
}

/// What a node of the flat graph denotes, from what those before it do. A memory or a read counts as false.
fn evaluate(values: &Values, done: &[Scalar], node: &Node) -> Scalar
    ensures { result ≡ node_scalar (scalar_of values.now) done.now node.now }
{
    match node {
        Node::True => Scalar::Bool(true),
        Node::Not(a) => Scalar::Bool(!truth_at(done, *a)),
        Node::And(a, b) => Scalar::Bool(truth_at(done, *a) && truth_at(done, *b)),
        Node::Or(a, b) => Scalar::Bool(truth_at(done, *a) || truth_at(done, *b)),
        Node::Ite(control, yes, no) => {
            let term = if truth_at(done, *control) { yes } else { no };
            scalar_at(done, *term)
        }
        Node::Eq(a, b) => Scalar::Bool(word_at(done, *a) == word_at(done, *b)),
        Node::App(sym, _) => Scalar::Word(symbol_value(values, *sym).word()),
        Node::Pred(sym, _) => Scalar::Bool(symbol_value(values, *sym).truth()),
        Node::Read(..) | Node::Write(..) | Node::Init(_) => Scalar::Bool(false),
    }
}

/// The value of a symbol of no arguments: a variable's own, false for any other.
fn symbol_value(values: &Values, sym: Sym) -> Scalar
    ensures { result ≡ symbol_value (scalar_of values.now) sym }
{
    match sym {
        Sym::Var(var) => values.value(var),
        _ => Scalar::Bool(false),
    }
}

/// The table of a symbol's rows, under values of the variables.
fn sym_table(
    alloc: Global,
    values: &Values,
    done: &[Scalar],
    sym: &FlatSym,
) -> Result<SymTable, AllocError>
    ensures { IfOk result (λ t. t ≡ sym_table_from (scalar_of values.now) done.now sym.now) }
{
    let mut rows = Vec::with_capacity(alloc, sym.rows.len())?;
    for flat_row in sym.rows.as_slice() {
        let row = row(alloc, values, done, flat_row)?;
        rows.push(row)?;
    }
    let default = default_of(&rows);
    Ok(SymTable {
        sym: sym.sym,
        table: Table {
            default,
            rows: Rows::from_vec(rows),
        },
    })
}

/// The row of an application: what its arguments denote, and its variable's value.
fn row(alloc: Global, values: &Values, done: &[Scalar], row: &FlatRow) -> Result<Row, AllocError>
    ensures { IfOk result (λ r. r ≡ row_from (scalar_of values.now) done.now row.now) }
{
    let mut args = Vec::with_capacity(alloc, row.args.as_slice().len())?;
    for arg in row.args.as_slice() {
        args.push(word_at(done, *arg))?;
    }
    Ok(Row {
        args: Words::from_vec(args),
        value: values.value(row.var),
    })
}

/// A table's value where no row matches: 0 or false, but the first row's value where there are no arguments.
fn default_of(rows: &[Row]) -> Scalar
    ensures { result ≡ default_of rows.now }
{
    match rows.first() {
        None => Scalar::Bool(false),
        Some(row) => {
            if row.args.is_empty() {
                row.value
            } else {
                zero_like(row.value)
            }
        }
    }
}

/// 0, or false for a truth value.
fn zero_like(scalar: Scalar) -> Scalar
    ensures { result ≡ zero_like scalar }
{
    match scalar {
        Scalar::Bool(_) => Scalar::Bool(false),
        Scalar::Word(_) => Scalar::Word(0),
    }
}
