//! With which symbols each function is compared: one pass over the edges, which puts their two symbols into a set.
ghost use Rattle.std.specs.Prelude.{◌≡◌, ◌≤◌, ◌&&◌, ◌||◌, ℕ, List, Some, [], length, slice_get, IfOk, OnOk};
ghost use Rattle.std.specs.List.{list_any};
ghost use Rattle.bd_model.specs.Limits.{most_items};
ghost use Rattle.bd_terms.specs.declared.node.Sym.{Sym as TheSymbol};
ghost use Rattle.bd_terms.specs.declared.node.Sym.TheVariants.{Function};
ghost use Rattle.bd_function.specs.Tables.{is_symbol};
ghost use Rattle.bd_about.specs.Equations.{compared_with, is_between, symbols_among};
ghost use Rattle.bd_about.specs.inner.Owned.{is_owned};
ghost use Rattle.bd_about.specs.inner.Paired.{are_found, has_pair};

use crate::owners::Owners;
use bd_function::FlatSym;
use bd_model::Sequence;
use bd_terms::Sym;
use bd_transitive::Edge;
use indexmap::IndexSet;
use std::alloc::{AllocError, Global};
use std::marker::Model;

/// A list of symbols.
pub type Partners = Sequence<Sym>;

/// The symbols with which each function or predicate is compared, in their order.
pub type AllPartners = Sequence<Partners>;

/// Two symbols.
#[derive(Clone, Copy, PartialEq, Eq, Hash)]
pub(crate) struct SymbolPair {
    pub one: Sym,
    pub other: Sym,
}

/// The pairs of symbols whose variables are the ends of an edge, each in both orders.
#[derive(Drop)]
pub(crate) struct Compared {
    pairs: IndexSet<SymbolPair>,
}

impl Model for Compared {
    ghost use Rattle.std.specs.Prelude.{List};
    ghost use Rattle.bd_about.specs.declared.compared.SymbolPair.{SymbolPair as ThePair};

    ghost Value = { List ThePair };

    ghost view = { λ c. c.pairs.keys };
}

impl Compared {
    /// The pairs of these edges.
    pub(crate) fn of(alloc: Global, owners: &Owners, edges: &[Edge]) -> Result<Compared, AllocError>
        ensures { IfOk result (λ pairs. (one other : TheSymbol) → has_pair pairs one other
            ≡ list_any (is_between (is_owned owners.now) one other) edges.now) }
    {
        let mut pairs = Compared::new(alloc);
        for edge in edges {
            pairs.add(owners.get(edge.from), owners.get(edge.to))?;
        }
        Ok(pairs)
    }

    /// No symbol, compared with nothing yet.
    fn new(alloc: Global) -> Compared
        ensures { result ≡ [] }
    {
        Compared {
            pairs: IndexSet::new(alloc),
        }
    }

    /// Puts two symbols into the set, in this order.
    fn insert(&mut self, one: Sym, other: Sym) -> Result<(), AllocError>
        ensures { OnOk result ((s t : TheSymbol) → has_pair self.new s t
            ≡ ((is_symbol one s && is_symbol other t) || has_pair self.old s t)) }
    {
        self.pairs.insert(SymbolPair { one, other })?;
        Ok(())
    }

    /// Puts the symbols of two variables into the set, in both orders, if both have one.
    fn add(&mut self, from: Option<Sym>, to: Option<Sym>) -> Result<(), AllocError>
        ensures { OnOk result ((s t : TheSymbol) →
            has_pair self.new s t ≡ (are_found from to s t || has_pair self.old s t)) }
    {
        if let Some(from) = from {
            if let Some(to) = to {
                self.insert(from, to)?;
                self.insert(to, from)?;
            }
        }
        Ok(())
    }

    /// Whether some edge is between two symbols.
    fn has(&self, one: Sym, other: Sym) -> bool
        ensures { result ≡ has_pair self.now one other }
    {
        self.pairs.contains(&SymbolPair { one, other })
    }

    /// The symbols with which one is compared, of these.
    fn with(&self, alloc: Global, symbol: Sym, symbols: &[FlatSym]) -> Result<Partners, AllocError>
        ensures { IfOk result (λ found.
            found ≡ symbols_among (has_pair self.now symbol) symbols.now) }
    {
        let mut found = Sequence::new(alloc);
        for other in symbols {
            if self.has(symbol, other.sym) {
                found.push(other.sym)?;
            }
        }
        Ok(found)
    }
}

/// The symbols with which each of so many functions and predicates is compared, of these.
fn comparisons(
    alloc: Global,
    functions: usize,
    pairs: &Compared,
    symbols: &[FlatSym],
) -> Result<AllPartners, AllocError>
    requires { functions ≤ most_items }
    ensures size { IfOk result (λ lists. length lists ≡ functions) }
    ensures lists { IfOk result (λ lists. (f : ℕ) (list : List TheSymbol) →
        slice_get lists f ≡ Some list
        → list ≡ symbols_among (has_pair pairs.now (Function f)) symbols.now) }
{
    let mut lists = Sequence::new(alloc);
    for f in 0..functions as u32 {
        lists.push(pairs.with(alloc, Sym::Function(f), symbols)?)?;
    }
    Ok(lists)
}

/// The symbols with which each of so many functions and predicates is compared by the edges, of these.
pub(crate) fn comparisons_of(
    alloc: Global,
    functions: usize,
    owners: &Owners,
    edges: &[Edge],
    symbols: &[FlatSym],
) -> Result<AllPartners, AllocError>
    requires { functions ≤ most_items }
    ensures size { IfOk result (λ lists. length lists ≡ functions) }
    ensures lists { IfOk result (λ lists. (f : ℕ) (list : List TheSymbol) →
        slice_get lists f ≡ Some list
        → list ≡ compared_with (is_owned owners.now) edges.now symbols.now (Function f)) }
{
    let pairs = Compared::of(alloc, owners, edges)?;
    comparisons(alloc, functions, &pairs, symbols)
}
