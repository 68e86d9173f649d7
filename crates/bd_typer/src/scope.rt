//! What a machine file declares, and what its names mean.

ghost use Rattle.std.specs.Prelude.{◌≡◌, ◌<◌, ◌≤◌, ◌+◌, List, length, map, OnOk, IfOk};
ghost use Rattle.bd_syntax.specs.Forms.{item_view};
ghost use Rattle.bd_typer.specs.NameMap.{scope_of, with_entry, with_input, with_item, with_symbol};
ghost use Rattle.bd_typer.specs.inner.Held.{meanings, scope_view};
ghost use Rattle.bd_model.specs.Limits.{most_items};

use crate::names::{Meaning, NameMap};
use bd_model::{Entries, Entry, Name, Sort, Symbol, Symbols};
use bd_syntax::{Item, Spot};
use std::alloc::{AllocError, Global};

/// What the items of a machine file declare, apart from the symbols of the design.
#[derive(Drop)]
pub struct Scope<'a> {
    pub names: NameMap<'a>,
    pub entries: Entries,
    pub inputs: u32,
}

/// A copy of a name, for the design to keep.
pub fn copied(alloc: Global, name: &Spot) -> Result<Name, AllocError>
    ensures { IfOk result (λ copy. copy ≡ name.now.text) }
{
    Ok(Name::from_vec(Vec::from_slice(alloc, name.text.as_slice())?))
}

impl<'a> Scope<'a> {
    /// Takes a latch or memory into the scope.
    fn entry(&mut self, alloc: Global, name: &'a Spot, sort: Sort) -> Result<(), AllocError>
        requires { length self.old.entries < most_items }
        ensures { (all : List Symbol) → OnOk result
            (scope_view self.new all ≡ with_entry (scope_view self.old all) name.now.text sort) }
    {
        let number = self.entries.len() as u32;
        let meaning = Meaning::Entry { number, sort };
        self.names.declare(name.text.as_slice(), meaning)?;
        let name = copied(alloc, name)?;
        self.entries.push(Entry { name, sort })?;
        Ok(())
    }

    /// Takes an input into the scope.
    fn input(&mut self, name: &'a Spot, sort: Sort) -> Result<(), AllocError>
        requires { self.old.inputs < most_items }
        ensures { (all : List Symbol) → OnOk result
            (scope_view self.new all ≡ with_input (scope_view self.old all) name.now.text sort) }
    {
        let meaning = Meaning::Input {
            number: self.inputs,
            sort,
        };
        self.names.declare(name.text.as_slice(), meaning)?;
        self.inputs += 1;
        Ok(())
    }

    /// Takes a function or predicate into the scope, with the number of the other file's one of the name, or the next.
    fn symbol(
        &mut self,
        alloc: Global,
        others: &NameMap<'_>,
        symbols: &mut Symbols,
        name: &'a Spot,
        symbol: (u32, bool),
    ) -> Result<(), AllocError>
        requires { length symbols.old < most_items }
        ensures { OnOk result (scope_view self.new symbols.new
            ≡ with_symbol (scope_view self.old symbols.old) name.now.text symbol.0 symbol.1
            (meanings others.now name.now.text)) }
    {
        let text = name.text.as_slice();
        let (arity, predicate) = symbol;
        let number = match others.get(text) {
            Some(Meaning::Symbol { number, .. }) => number,
            _ => {
                let number = symbols.len() as u32;
                let name = copied(alloc, name)?;
                symbols.push(Symbol {
                    name,
                    arity,
                    predicate,
                })?;
                number
            }
        };
        let meaning = Meaning::Symbol {
            number,
            arity,
            predicate,
        };
        self.names.declare(text, meaning)
    }

    /// Takes one item into the scope: a let is there, and means nothing before it.
    fn item(
        &mut self,
        alloc: Global,
        others: &NameMap<'_>,
        symbols: &mut Symbols,
        item: &'a Item,
    ) -> Result<(), AllocError>
        requires entries { length self.old.entries < most_items }
        requires inputs { self.old.inputs < most_items }
        requires symbols { length symbols.old < most_items }
        ensures { OnOk result (scope_view self.new symbols.new
            ≡ with_item (meanings others.now) (scope_view self.old symbols.old)
            (item_view item.now)) }
    {
        match item {
            Item::Latch { name, sort, .. } => self.entry(alloc, name, *sort),
            Item::Memory { name, .. } => self.entry(alloc, name, Sort::Memory),
            Item::Input { name, sort, .. } => self.input(name, *sort),
            Item::Function { name, arity, .. } => {
                self.symbol(alloc, others, symbols, name, (*arity, false))
            }
            Item::Predicate { name, arity, .. } => {
                self.symbol(alloc, others, symbols, name, (*arity, true))
            }
            Item::Let { name, .. } => self.names.declare(name.text.as_slice(), Meaning::Later),
            _ => Ok(()),
        }
    }
}

/// What the items of a machine file declare; the symbols that the other file doesn't have come after its own.
pub fn scope_of<'a>(
    alloc: Global,
    others: &NameMap<'_>,
    symbols: &mut Symbols,
    items: &'a [Item],
) -> Result<Scope<'a>, AllocError>
    requires { length symbols.old + length items.now ≤ most_items }
    ensures view { IfOk result (λ scope. scope_view scope symbols.new
        ≡ scope_of (meanings others.now) symbols.old (map item_view items.now)) }
    ensures room { OnOk result (length symbols.new ≤ length symbols.old + length items.now) }
{
    let mut scope = Scope {
        names: NameMap::new(alloc),
        entries: Entries::new(alloc),
        inputs: 0,
    };
    for item in items {
        scope.item(alloc, others, symbols, item)?;
    }
    Ok(scope)
}
