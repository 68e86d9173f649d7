//! Positive symbols, and the variables of their applications.
ghost use Rattle.std.specs.Prelude.{◌≡◌, ◌<◌, ◌↔◌, ℕ, Bool, true, Contains, length, IfOk, OnOk, ◌⊎◌};
ghost use Rattle.bd_terms.specs.declared.node.Sym.{Sym as TheSym};
ghost use Rattle.bd_function.specs.Values.{is_marked};
ghost use Rattle.bd_diverse.specs.Positive.{IsPositive};
ghost use Rattle.bd_diverse.specs.Marked.{HasMarkedRow, HasVariable};
ghost use Rattle.bd_diverse.specs.inner.Applied.{AppliesBelow, AppliesSymbol, is_compared, is_reached};

use crate::occurrences::{Occurrences, walked};
use crate::symbols::Positive;
use bd_function::{Flat, FlatRow, Marked};
use bd_terms::{Graph, Id, Node, Sym};
use indexmap::IndexSet;
use std::alloc::{AllocError, Global};

/// The positive symbols of the formula at the root, by one pass downwards and two over the terms.
pub fn positive(alloc: Global, graph: &Graph, root: Id) -> Result<Positive, AllocError>
    requires { root < length graph.now }
    ensures { IfOk result (λ p.
        (s : TheSym) → Contains p s ↔ IsPositive graph.now root s) }
{
    let marks = walked(alloc, graph, root)?;
    let compared = compared(alloc, graph, &marks)?;
    uncompared(alloc, graph, &marks, &compared)
}

/// The symbols with an application that a general equation compares.
fn compared(
    alloc: Global,
    graph: &Graph,
    marks: &[Occurrences],
) -> Result<IndexSet<Sym>, AllocError>
    requires { length marks.now ≡ length graph.now }
    ensures { IfOk result (λ found. (s : TheSym) →
        Contains found.keys s
        ↔ AppliesBelow graph.now (length graph.now) (is_compared marks.now) s) }
{
    let mut found = IndexSet::new(alloc);
    for index in 0..graph.len() {
        if marks[index].compared {
            add(&mut found, graph.node(graph.id(index)))?;
        }
    }
    Ok(found)
}

/// The symbols of the words that the root reaches, without those whose applications a general equation compares.
fn uncompared(
    alloc: Global,
    graph: &Graph,
    marks: &[Occurrences],
    compared: &IndexSet<Sym>,
) -> Result<Positive, AllocError>
    requires { length marks.now ≡ length graph.now }
    ensures { IfOk result (λ p. (s : TheSym) →
        Contains p s
        ↔ (AppliesBelow graph.now (length graph.now) (is_reached marks.now) s
        × ¬ Contains compared.now.keys s)) }
{
    let mut symbols = IndexSet::new(alloc);
    for index in 0..graph.len() {
        if marks[index].is_any() {
            add_unless(&mut symbols, graph.node(graph.id(index)), compared)?;
        }
    }
    Ok(Positive { symbols })
}

/// Puts the symbol that a word applies into the set; another node changes nothing.
fn add(symbols: &mut IndexSet<Sym>, node: &Node) -> Result<(), AllocError>
    ensures { OnOk result ((s : TheSym) →
        Contains symbols.new.keys s
        ↔ (Contains symbols.old.keys s ⊎ AppliesSymbol node.now s)) }
{
    match node {
        Node::App(sym, _) => {
            symbols.insert(*sym)?;
            Ok(())
        }
        _ => Ok(()),
    }
}

/// Puts the symbol that a word applies into the set, unless it is among the others.
fn add_unless(
    symbols: &mut IndexSet<Sym>,
    node: &Node,
    others: &IndexSet<Sym>,
) -> Result<(), AllocError>
    ensures { OnOk result ((s : TheSym) →
        Contains symbols.new.keys s
        ↔ (Contains symbols.old.keys s
        ⊎ (AppliesSymbol node.now s × ¬ Contains others.now.keys s))) }
{
    match node {
        Node::App(sym, _) => {
            if !others.contains(sym) {
                symbols.insert(*sym)?;
            }
            Ok(())
        }
        _ => Ok(()),
    }
}

/// The variables of the applications of positive symbols.
pub fn marked(alloc: Global, flat: &Flat, positive: &Positive) -> Result<Marked, AllocError>
    ensures { IfOk result (λ m. (x : ℕ) →
        (is_marked m x ≡ true) ↔ HasMarkedRow positive.now flat.now.syms x) }
{
    let mut marked = Marked::new(alloc);
    for symbol in flat.syms.as_slice() {
        if positive.has(symbol.sym) {
            mark_rows(&mut marked, symbol.rows.as_slice())?;
        }
    }
    Ok(marked)
}

/// Puts the variables of a symbol's rows into the set.
fn mark_rows(marked: &mut Marked, rows: &[FlatRow]) -> Result<(), AllocError>
    ensures { OnOk result ((x : ℕ) →
        (is_marked marked.new x ≡ true)
        ↔ ((is_marked marked.old x ≡ true) ⊎ HasVariable rows.now x)) }
{
    for row in rows {
        marked.insert(row.var)?;
    }
    Ok(())
}
