//! Sets of symbols.
ghost use Rattle.std.specs.Prelude.{◌↔◌, Contains, IsTrue};

use bd_terms::Sym;
use indexmap::IndexSet;
use std::marker::Model;

/// A set of symbols.
#[derive(Drop)]
pub struct Positive {
    pub(crate) symbols: IndexSet<Sym>,
}

impl Model for Positive {
    ghost use Rattle.std.specs.Prelude.{List};
    ghost use Rattle.bd_terms.specs.declared.node.Sym.{Sym as TheSymbol};

    ghost Value = { List TheSymbol };

    ghost view = { λ p. p.symbols.keys };
}

impl Positive {
    /// Whether the symbol is in the set. It takes no memory.
    pub fn has(&self, sym: Sym) -> bool
        ensures { IsTrue result ↔ Contains self.now sym }
    {
        self.symbols.contains(&sym)
    }
}
