//! Which words of a flat formula are the nested ites of the rows of marked symbols.
ghost use Rattle.std.specs.Prelude.{◌≡◌, ◌<◌, ℕ, true, List, Option, Some, IfOk, length, option_copied, option_map, slice_get};
ghost use Rattle.bd_model.specs.declared.design.Sort.TheVariants as sort;
ghost use Rattle.bd_terms.specs.Graph.{IsGraph};
ghost use Rattle.bd_terms.specs.declared.node.Node.{Node as TheNode};
ghost use Rattle.bd_terms.specs.declared.node.Node.TheVariants.{Ite};
ghost use Rattle.bd_function.specs.declared.flat.FlatSym.{FlatSym as TheSymbol};
ghost use Rattle.bd_equality.specs.declared.rows.RowPlace.{RowPlace as ThePlace};
ghost use Rattle.bd_equality.specs.declared.rows.Tail.{Tail as TheTail};
ghost use Rattle.bd_equality.specs.Encoding.{IsVariable, has_mark};
ghost use Rattle.bd_equality.specs.Made.{IsMarkedSymbol};
ghost use Rattle.bd_equality.specs.inner.Rows.{AreMarkedSymbols, AreTails, IsLeaf, IsRowAt, IsTail};
ghost use Rattle.bd_equality.specs.inner.Split.{StandBefore, arguments_at, row_at};

use crate::equality::is_equality;
use crate::leaf::{has_mark, symbol_variable};
use bd_function::{Flat, FlatRow, FlatSym, Marked};
use bd_terms::{Id, Node};
use indexmap::IndexMap;
use std::alloc::{AllocError, Global};

/// A row of a symbol, by their places.
#[derive(Clone, Copy)]
pub(crate) struct RowPlace {
    pub(crate) symbol: usize,
    pub(crate) row: usize,
}

/// The variable of the first row from a place on that has the arguments of a row, as a nested ite.
#[derive(Clone, Copy)]
struct Tail {
    symbol: usize,
    row: usize,
    from: usize,
}

/// The tail that each term is, if it is one. Where nothing is marked no word is looked at.
#[derive(Drop)]
pub(crate) struct RowWords {
    tails: Vec<Option<Tail>>,
}

/// Where the terms and the rows of variables are.
#[derive(Drop)]
struct VariablePlaces {
    terms: IndexMap<u64, Id>,
    rows: IndexMap<u64, RowPlace>,
}

impl RowWords {
    /// The row of a marked symbol that a word is.
    pub(crate) fn row(&self, id: Id) -> Option<RowPlace>
        ensures { (nodes : List TheNode) (syms : List TheSymbol) (marked : Option (List ℕ)) →
            AreTails nodes syms marked self.now.tails.items →
            (place : ThePlace) → result ≡ Some place → IsRowAt nodes syms marked place id }
    {
        match self.tails.get(id.index()) {
            Some(Some(tail)) => {
                if tail.from == 0 {
                    Some(RowPlace {
                        symbol: tail.symbol,
                        row: tail.row,
                    })
                } else {
                    None
                }
            }
            _ => None,
        }
    }
}

/// The words of rows of a flat formula.
pub(crate) fn row_words(
    alloc: Global,
    flat: &Flat,
    marked: Option<&Marked>,
) -> Result<RowWords, AllocError>
    ensures { IfOk result (λ rows. AreTails flat.now.graph flat.now.syms
        (option_copied marked.entry) rows.tails.items) }
{
    let mut tails = Vec::new(alloc);
    if marked.is_none() {
        return Ok(RowWords { tails });
    }
    let places = places(alloc, flat)?;
    let symbols = marked_symbols(alloc, flat, marked, &places)?;
    for index in 0..flat.graph.len() {
        let tail = tail_of(flat, &places, &symbols, &tails, flat.graph.id(index));
        tails.push(tail)?;
    }
    Ok(RowWords { tails })
}

/// Where the terms of variables, and the rows of symbols, are.
fn places(alloc: Global, flat: &Flat) -> Result<VariablePlaces, AllocError> {
    let mut places = VariablePlaces {
        terms: IndexMap::new(alloc),
        rows: IndexMap::new(alloc),
    };
    for index in 0..flat.graph.len() {
        let id = flat.graph.id(index);
        if let Node::App(symbol, _) = flat.graph.node(id) {
            places.terms.insert(symbol_variable(*symbol), id)?;
        }
    }
    for symbol in 0..flat.syms.len() {
        let rows = flat.syms.as_slice()[symbol].rows.as_slice();
        for row in 0..rows.len() {
            places.rows.insert(rows[row].var, RowPlace { symbol, row })?;
        }
    }
    Ok(places)
}

/// Whether the variables of each symbol's rows are words of the formula, and marked.
fn marked_symbols(
    alloc: Global,
    flat: &Flat,
    marked: Option<&Marked>,
    places: &VariablePlaces,
) -> Result<Vec<bool>, AllocError>
    ensures { IfOk result (λ said. AreMarkedSymbols flat.now.graph flat.now.syms
        (option_copied marked.entry) said.items) }
{
    let mut symbols = Vec::new(alloc);
    for symbol in flat.syms.as_slice() {
        symbols.push(is_marked_symbol(flat, marked, places, symbol))?;
    }
    Ok(symbols)
}

/// Whether the variables of all rows are words of the formula, and marked.
fn is_marked_symbol(
    flat: &Flat,
    marked: Option<&Marked>,
    places: &VariablePlaces,
    symbol: &FlatSym,
) -> bool
    ensures { result ≡ true →
        IsMarkedSymbol flat.now.graph (option_copied marked.entry) symbol.now }
{
    for row in symbol.rows.as_slice() {
        if !is_marked_row(flat, marked, places, row) {
            return false;
        }
    }
    true
}

/// Whether the variable of a row is a word of the formula, and marked.
fn is_marked_row(
    flat: &Flat,
    marked: Option<&Marked>,
    places: &VariablePlaces,
    row: &FlatRow,
) -> bool
    ensures word { result ≡ true → IsVariable flat.now.graph sort.Word row.now.var }
    ensures mark { result ≡ true → has_mark (option_copied marked.entry) row.now.var ≡ true }
{
    match places.terms.get(&row.var) {
        Some(id) => has_mark(marked, row.var) && is_variable(flat, *id, row.var),
        None => false,
    }
}

/// Whether a term is this variable, as a word.
fn is_variable(flat: &Flat, id: Id, variable: u64) -> bool
    ensures leaf { result ≡ true → IsLeaf flat.now.graph id variable }
    ensures graph { IsGraph flat.now.graph }
{
    if id.index() >= flat.graph.len() {
        return false;
    }
    match flat.graph.node(id) {
        Node::App(symbol, _) => symbol_variable(*symbol) == variable,
        _ => false,
    }
}

/// The row at its place.
fn row_at(flat: &Flat, symbol: usize, row: usize) -> Option<&FlatRow>
    ensures { option_map (λ r. r.now) result ≡ row_at flat.now.syms symbol row }
{
    let symbol = flat.syms.as_slice().get(symbol)?;
    symbol.rows.as_slice().get(row)
}

/// The arguments of the row at a place, none where there is no row.
pub(crate) fn arguments_at(flat: &Flat, symbol: usize, row: usize) -> &[Id]
    ensures { result.now ≡ arguments_at flat.now.syms symbol row }
{
    match row_at(flat, symbol, row) {
        Some(row) => row.args.as_slice(),
        None => &[],
    }
}

/// The tail that a term is, by those of the terms before it.
fn tail_of(
    flat: &Flat,
    places: &VariablePlaces,
    symbols: &[bool],
    tails: &[Option<Tail>],
    id: Id,
) -> Option<Tail>
    requires { id < length flat.now.graph }
    ensures { (marked : Option (List ℕ)) →
        AreMarkedSymbols flat.now.graph flat.now.syms marked symbols.now →
        AreTails flat.now.graph flat.now.syms marked tails.now →
        (tail : TheTail) → result ≡ Some tail →
        IsTail flat.now.graph flat.now.syms marked tail id }
{
    match flat.graph.node(id) {
        Node::App(symbol, _) => {
            let place = places.rows.get(&symbol_variable(*symbol)).copied()?;
            own(flat, symbols, place, id)
        }
        Node::Ite(control, yes, no) => {
            let tail = tails.get(no.index()).copied().flatten()?;
            longer(flat, tail, *control, *yes)
        }
        _ => None,
    }
}

/// The tail that the variable of a row is.
fn own(flat: &Flat, symbols: &[bool], place: RowPlace, id: Id) -> Option<Tail>
    ensures { (marked : Option (List ℕ)) →
        AreMarkedSymbols flat.now.graph flat.now.syms marked symbols.now →
        (tail : TheTail) → result ≡ Some tail →
        IsTail flat.now.graph flat.now.syms marked tail id }
{
    let row = row_at(flat, place.symbol, place.row)?;
    if symbols.get(place.symbol).copied().unwrap_or(false)
        && is_variable(flat, id, row.var)
        && are_before(row.args.as_slice(), id)
    {
        Some(Tail {
            symbol: place.symbol,
            row: place.row,
            from: place.row,
        })
    } else {
        None
    }
}

/// Whether terms stand before one.
fn are_before(args: &[Id], id: Id) -> bool
    ensures { result ≡ true → StandBefore args.now id }
{
    for arg in args {
        if arg.index() >= id.index() {
            return false;
        }
    }
    true
}

/// The tail with one row more before it: the ite of a control, the variable of that row, and the tail.
fn longer(flat: &Flat, tail: Tail, control: Id, yes: Id) -> Option<Tail>
    requires { control < length flat.now.graph }
    ensures { (marked : Option (List ℕ)) (id no : ℕ) →
        slice_get flat.now.graph id ≡ Some (Ite control yes no) →
        IsTail flat.now.graph flat.now.syms marked tail no →
        (more : TheTail) → result ≡ Some more →
        IsTail flat.now.graph flat.now.syms marked more id }
{
    let from = tail.from.checked_sub(1)?;
    let before = row_at(flat, tail.symbol, from)?;
    let own = row_at(flat, tail.symbol, tail.row)?;
    if is_variable(flat, yes, before.var)
        && is_equality(
            &flat.graph,
            control,
            before.args.as_slice(),
            own.args.as_slice(),
        )
    {
        Some(Tail { from, ..tail })
    } else {
        None
    }
}
