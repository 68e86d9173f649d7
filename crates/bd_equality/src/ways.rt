//! In which way an equation is settled.
ghost use Rattle.std.specs.Prelude.{◌≡◌, ℕ, List, Option, IfOk, IfSome, option_copied};
ghost use Rattle.bd_model.specs.declared.design.Sort.TheVariants as sort;
ghost use Rattle.bd_terms.specs.Graph.{HasSort};
ghost use Rattle.bd_equality.specs.Made.{IsUnmarkedWord};
ghost use Rattle.bd_equality.specs.inner.Rows.{AreTails, IsRowAt};
ghost use Rattle.bd_equality.specs.inner.Split.{IsPair, IsRowWay, IsWanted, IsWay};

use crate::leaf::{has_mark, symbol_variable};
use crate::rows::{RowPlace, RowWords, arguments_at};
use crate::split::head;
use crate::trees::Trees;
use crate::wanted::{RowPair, Wanted, Way};
use bd_function::{Flat, Marked};
use bd_terms::{Id, Node};
use std::alloc::AllocError;

/// The way of what is wanted.
pub(crate) fn way(
    flat: &Flat,
    marked: Option<&Marked>,
    rows: &RowWords,
    trees: &mut Trees,
    wanted: &Wanted,
) -> Result<Way, AllocError>
    requires wanted { IsWanted flat.now.graph wanted.now }
    requires rows { AreTails flat.now.graph flat.now.syms (option_copied marked)
        rows.now.tails.items }
    ensures { IfOk result (IsWay flat.now.graph flat.now.syms (option_copied marked.entry)
        wanted.now) }
{
    match wanted {
        Wanted::Truth(_) => Ok(Way::Plain),
        Wanted::Equation(left, right) => equation_way(flat, marked, rows, trees, *left, *right),
    }
}

/// The way of an equation: plain if no word is an ite or both are one; else that of rows, if they have one; else by a
/// control.
fn equation_way(
    flat: &Flat,
    marked: Option<&Marked>,
    rows: &RowWords,
    trees: &mut Trees,
    left: Id,
    right: Id,
) -> Result<Way, AllocError>
    requires pair { IsPair flat.now.graph left right }
    requires rows { AreTails flat.now.graph flat.now.syms (option_copied marked)
        rows.now.tails.items }
    ensures { IfOk result (IsWay flat.now.graph flat.now.syms (option_copied marked.entry)
        (Wanted.Equation left right)) }
{
    if left == right {
        return Ok(Way::Plain);
    }
    let Some(control) = trees.control(&flat.graph, rows, left, right)? else {
        return Ok(Way::Plain);
    };
    match row_way(flat, marked, rows, left, right) {
        Some(way) => Ok(way),
        None => Ok(Way::Control(control)),
    }
}

/// The way of an equation of which a word is a row: two rows of one symbol are equal as their arguments are, those of
/// two symbols never, nor are a row and a variable that isn't marked.
fn row_way(
    flat: &Flat,
    marked: Option<&Marked>,
    rows: &RowWords,
    left: Id,
    right: Id,
) -> Option<Way>
    requires left { HasSort flat.now.graph left sort.Word }
    requires right { HasSort flat.now.graph right sort.Word }
    requires rows { AreTails flat.now.graph flat.now.syms (option_copied marked)
        rows.now.tails.items }
    ensures { IfSome result (IsRowWay flat.now.graph flat.now.syms (option_copied marked.entry)
        left right) }
{
    match (rows.row(left), rows.row(right)) {
        (Some(first), Some(second)) => two_rows(flat, first, second),
        (Some(_), None) => with_variable(flat, marked, right),
        (None, Some(_)) => with_variable(flat, marked, left),
        (None, None) => None,
    }
}

/// The way of the equation of two rows.
fn two_rows(flat: &Flat, first: RowPlace, second: RowPlace) -> Option<Way>
    ensures { (marked : Option (List ℕ)) (a b : ℕ) →
        IsRowAt flat.now.graph flat.now.syms marked first a →
        IsRowAt flat.now.graph flat.now.syms marked second b →
        IfSome result (IsRowWay flat.now.graph flat.now.syms marked a b) }
{
    if first.symbol != second.symbol {
        return Some(Way::Never);
    }
    let left = arguments_at(flat, first.symbol, first.row);
    let right = arguments_at(flat, first.symbol, second.row);
    if left.len() == right.len() {
        Some(Way::Arguments(RowPair {
            symbol: first.symbol,
            left: first.row,
            right: second.row,
        }))
    } else {
        None
    }
}

/// The way of the equation of a row and another word, if that is a variable that isn't marked.
fn with_variable(flat: &Flat, marked: Option<&Marked>, other: Id) -> Option<Way>
    requires { HasSort flat.now.graph other sort.Word }
    ensures { IfSome result (λ way. (way ≡ Way.Never)
        × IsUnmarkedWord flat.now.graph (option_copied marked.entry) other) }
{
    match flat.graph.node(other) {
        Node::App(symbol, _) => {
            if has_mark(marked, symbol_variable(*symbol)) {
                None
            } else {
                Some(Way::Never)
            }
        }
        _ => None,
    }
}
