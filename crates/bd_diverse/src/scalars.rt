//! What terms of no memory denote in the world of tables, as scalars.
ghost use Rattle.std.specs.Prelude.{◌≡◌, ◌≤◌, ℕ, [], length, map, IfOk};
ghost use Rattle.bd_model.specs.Table.{at};
ghost use Rattle.bd_model.specs.Value.{scalar_truth, scalar_word};
ghost use Rattle.bd_terms.specs.declared.node.Sym.{Sym as TheSym};
ghost use Rattle.bd_terms.specs.Denotation.{applied};
ghost use Rattle.bd_function.specs.Tables.{world_of_tables};
ghost use Rattle.bd_function.specs.inner.Scalars.{word_at};
ghost use Rattle.bd_diverse.specs.inner.Valued.{IsValued, connective, scalar_in};

use bd_function::SymTable;
use bd_function::scalars::{scalar_at, truth_at, word_at};
use bd_model::Scalar;
use bd_terms::{Graph, Id, Node, Sym};
use std::alloc::{AllocError, Global};

/// What each term denotes under the tables. One that rests on a memory gets a value that says nothing.
pub(crate) fn scalars(
    alloc: Global,
    graph: &Graph,
    tables: &[SymTable],
) -> Result<Vec<Scalar>, AllocError>
    ensures { IfOk result (λ done.
        IsValued (world_of_tables tables.now) graph.now (length graph.now) done.items) }
{
    let mut done = Vec::with_capacity(alloc, graph.len())?;
    for index in 0..graph.len() {
        let scalar = evaluate(alloc, tables, &done, graph.node(graph.id(index)))?;
        done.push(scalar)?;
    }
    Ok(done)
}

/// What a node of no memory denotes, from what those before it do.
fn evaluate(
    alloc: Global,
    tables: &[SymTable],
    done: &[Scalar],
    node: &Node,
) -> Result<Scalar, AllocError>
    ensures { IfOk result (λ x. x ≡ scalar_in (world_of_tables tables.now) done.now node.now) }
{
    match node {
        Node::App(sym, args) => {
            let args = words(alloc, done, args.as_slice())?;
            Ok(Scalar::Word(value_at(tables, *sym, &args).word()))
        }
        Node::Pred(sym, args) => {
            let args = words(alloc, done, args.as_slice())?;
            Ok(Scalar::Bool(value_at(tables, *sym, &args).truth()))
        }
        _ => Ok(connective(done, node)),
    }
}

/// What a term that applies no symbol denotes, from what those before it do. A memory or a read counts as false.
pub(crate) fn connective(done: &[Scalar], node: &Node) -> Scalar
    ensures { result ≡ connective done.now node.now }
{
    match node {
        Node::True => Scalar::Bool(true),
        Node::Not(a) => Scalar::Bool(!truth_at(done, *a)),
        Node::And(a, b) => Scalar::Bool(truth_at(done, *a) && truth_at(done, *b)),
        Node::Or(a, b) => Scalar::Bool(truth_at(done, *a) || truth_at(done, *b)),
        Node::Ite(control, yes, no) => {
            let term = if truth_at(done, *control) { yes } else { no };
            scalar_at(done, *term)
        }
        Node::Eq(a, b) => Scalar::Bool(word_at(done, *a) == word_at(done, *b)),
        _ => Scalar::Bool(false),
    }
}

/// What a symbol has at words, in the world of the tables: false where it has no table.
pub(crate) fn value_at(tables: &[SymTable], sym: Sym, args: &[u64]) -> Scalar
    ensures { result ≡ at (world_of_tables tables.now sym) args.now }
{
    for table in tables {
        if table.sym == sym {
            return table.table.at(args);
        }
    }
    Scalar::Bool(false)
}

/// The words that these terms denote, in order.
pub(crate) fn words(alloc: Global, done: &[Scalar], ids: &[Id]) -> Result<Vec<u64>, AllocError>
    ensures { IfOk result (λ words. words.items ≡ map (word_at done.now) ids.now) }
{
    let mut words = Vec::with_capacity(alloc, ids.len())?;
    for id in ids {
        words.push(word_at(done, *id))?;
    }
    Ok(words)
}

/// A number that no word among these scalars exceeds: the greatest of them, or 0.
pub(crate) fn greatest_word(scalars: &[Scalar]) -> u64
    ensures { (k : ℕ) → word_at scalars.now k ≤ result }
{
    let mut most = 0;
    for scalar in scalars {
        most = most.max(scalar.word());
    }
    most
}

/// A number that no word exceeds that a symbol has at no arguments.
pub(crate) fn greatest_constant(tables: &[SymTable]) -> u64
    ensures { (s : TheSym) → applied (world_of_tables tables.now) s [] ≤ result }
{
    let mut most = 0;
    for table in tables {
        most = most.max(table.table.at(&[]).word());
    }
    most
}
