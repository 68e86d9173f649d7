//! Words, truth values and rows.

ghost use Rattle.std.specs.Prelude.{◌≡◌};
ghost use Rattle.bd_text.specs.View.{node_of, nodes_of_all};
ghost use Rattle.bd_syntax.specs.Reading.{Gives, each_form};
ghost use Rattle.bd_case.specs.Content.{default_of};
ghost use Rattle.bd_case.specs.Reading.{counted_form, row_form, scalar_form, truth_form, value_form, values_form, word_form};

use crate::kind::EntryKind;
use bd_model::{Row, Rows, Scalar, Sort, Table, Words};
use bd_syntax::atoms::{atom, number};
use bd_syntax::lists::split_last;
use bd_syntax::{FormFault, bad};
use bd_text::{Code, Tree};
use std::alloc::Global;

/// The word that a tree is.
fn word(tree: &Tree) -> Result<u64, FormFault>
    ensures { Gives (λ n. n) result (word_form (node_of tree.now)) }
{
    number(tree, u64::MAX)
}

/// The truth value that a tree is.
#[tactic(auto, unfolding(crate::specs::Reading::truth_form))]
fn truth(tree: &Tree) -> Result<Scalar, FormFault>
    ensures { Gives (λ x. x) result (truth_form (node_of tree.now)) }
{
    let (offset, text) = atom(tree)?;
    if text == b"true".as_slice() {
        Ok(Scalar::Bool(true))
    } else if text == b"false".as_slice() {
        Ok(Scalar::Bool(false))
    } else {
        Err(bad(offset, Code::WrongSort))
    }
}

/// The truth value or the word that a tree is.
#[tactic(auto, unfolding(crate::specs::Reading::scalar_form))]
pub fn scalar(sort: Sort, tree: &Tree) -> Result<Scalar, FormFault>
    ensures { Gives (λ x. x) result (scalar_form sort (node_of tree.now)) }
{
    match sort {
        Sort::Bool => truth(tree),
        Sort::Word | Sort::Memory => Ok(Scalar::Word(word(tree)?)),
    }
}

/// Each tree as a word.
fn words(alloc: Global, trees: &[Tree]) -> Result<Words, FormFault>
    ensures { Gives (λ words. words) result (each_form word_form (nodes_of_all trees.now)) }
{
    let mut words = Vec::with_capacity(alloc, trees.len())?;
    for tree in trees {
        words.push(word(tree)?)?;
    }
    Ok(Words::from_vec(words))
}

/// The row of these parts, in a list that stands at an offset.
#[tactic(auto, using(bd_syntax::proofs::Views::node_counts), unfolding(crate::specs::Reading::counted_form, crate::specs::Reading::row_parts))]
fn row_of_parts(
    alloc: Global,
    kind: EntryKind,
    offset: usize,
    parts: &[Tree],
) -> Result<Row, FormFault>
    ensures { Gives (λ row. row) result (counted_form kind offset (nodes_of_all parts.now)) }
{
    if parts.len() != kind.arity as usize + 1 {
        return Err(bad(offset, Code::WrongArity));
    }
    let Some((value, args)) = split_last(parts) else {
        return Err(bad(offset, Code::WrongArity));
    };
    Ok(Row {
        args: words(alloc, args)?,
        value: scalar(kind.sort, value)?,
    })
}

/// The row that a tree is.
fn row(alloc: Global, kind: EntryKind, tree: &Tree) -> Result<Row, FormFault>
    ensures { Gives (λ row. row) result (row_form kind (node_of tree.now)) }
{
    match tree {
        Tree::Atom { offset, .. } => Err(bad(*offset, Code::Malformed)),
        Tree::List { offset, parts } => row_of_parts(alloc, kind, *offset, parts.as_slice()),
    }
}

/// Each tree as a row.
pub fn rows(alloc: Global, kind: EntryKind, trees: &[Tree]) -> Result<Rows, FormFault>
    ensures { Gives (λ rows. rows) result (each_form (row_form kind) (nodes_of_all trees.now)) }
{
    let mut rows = Vec::with_capacity(alloc, trees.len())?;
    for tree in trees {
        rows.push(row(alloc, kind, tree)?)?;
    }
    Ok(Rows::from_vec(rows))
}

/// The default where none is given.
pub fn default_of(sort: Sort) -> Scalar
    ensures { result ≡ default_of sort }
{
    match sort {
        Sort::Bool => Scalar::Bool(false),
        Sort::Word | Sort::Memory => Scalar::Word(0),
    }
}

/// The value of an input that a tree is, as a row without arguments.
fn value_row(alloc: Global, sort: Sort, tree: &Tree) -> Result<Row, FormFault>
    ensures { Gives (λ row. row) result (value_form sort (node_of tree.now)) }
{
    Ok(Row {
        args: Words::new(alloc),
        value: scalar(sort, tree)?,
    })
}

/// Each tree as the value of an input.
fn value_rows(alloc: Global, sort: Sort, trees: &[Tree]) -> Result<Rows, FormFault>
    ensures { Gives (λ rows. rows) result (each_form (value_form sort) (nodes_of_all trees.now)) }
{
    let mut values = Vec::with_capacity(alloc, trees.len())?;
    for tree in trees {
        values.push(value_row(alloc, sort, tree)?)?;
    }
    Ok(Rows::from_vec(values))
}

/// The values of an input, cycle by cycle.
#[tactic(auto, unfolding(crate::specs::Reading::values_form))]
pub fn values(alloc: Global, sort: Sort, trees: &[Tree]) -> Result<Table, FormFault>
    ensures { Gives (λ t. t) result (values_form sort (nodes_of_all trees.now)) }
{
    Ok(Table {
        default: default_of(sort),
        rows: value_rows(alloc, sort, trees)?,
    })
}
