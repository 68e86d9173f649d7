//! Of which symbol's applications a variable is one, and for which atom a variable of the clauses stands: each found in
//! a map that is made once.
ghost use Rattle.std.specs.Prelude.{◌≡◌, ◌==◌, ◌&&◌, ℕ, Bool, [], Some, IfOk, OnOk, if◌then◌else◌};
ghost use Rattle.std.specs.List.{list_any};
ghost use Rattle.bd_prop.specs.declared.atom.Atom.{Atom as TheAtom};
ghost use Rattle.bd_terms.specs.declared.node.Sym.{Sym as TheSymbol};
ghost use Rattle.bd_about.specs.Equations.{has_row, is_variable_of};
ghost use Rattle.bd_about.specs.inner.Owned.{held, is_found, is_owned};

use bd_function::{Flat, FlatSym};
use bd_prop::Atom;
use bd_terms::Sym;
use bd_tseitin::Formula;
use indexmap::IndexMap;
use std::alloc::{AllocError, Global};
use std::marker::Model;

/// The symbol of each variable of a formula without functions.
#[derive(Drop)]
pub(crate) struct Owners {
    symbols: IndexMap<u64, Sym>,
}

impl Model for Owners {
    ghost use Rattle.std.specs.Prelude.{List, ℕ};
    ghost use Rattle.bd_terms.specs.declared.node.Sym.{Sym as TheSymbol};

    ghost Value = { List (ℕ × TheSymbol) };

    ghost view = { λ o. o.symbols.entries };
}

impl Owners {
    /// No variable has an owner yet.
    fn new(alloc: Global) -> Owners
        ensures { result ≡ [] }
    {
        Owners {
            symbols: IndexMap::new(alloc),
        }
    }

    /// The symbols of a formula's variables.
    pub(crate) fn of(alloc: Global, flat: &Flat) -> Result<Owners, AllocError>
        ensures { IfOk result (λ owners. (symbol : TheSymbol) (x : ℕ) →
            is_owned owners symbol x ≡ is_variable_of flat.now.syms symbol x) }
    {
        let mut owners = Owners::new(alloc);
        for symbol in flat.syms.as_slice() {
            owners.add(symbol)?;
        }
        Ok(owners)
    }

    /// Gives a variable a symbol, in place of the one that it had.
    fn set(&mut self, var: u64, symbol: Sym) -> Result<(), AllocError>
        ensures { OnOk result ((x : ℕ) →
            held self.new x ≡ (if var == x then Some symbol else held self.old x)) }
    {
        self.symbols.insert(var, symbol)?;
        Ok(())
    }

    /// Gives the variables of a symbol's rows this symbol.
    fn add(&mut self, symbol: &FlatSym) -> Result<(), AllocError>
        ensures { OnOk result ((x : ℕ) → held self.new x
            ≡ (if has_row symbol.now.rows x then Some symbol.now.sym else held self.old x)) }
    {
        for row in symbol.rows.as_slice() {
            self.set(row.var, symbol.sym)?;
        }
        Ok(())
    }

    /// The symbol of a variable, if it has one.
    pub(crate) fn get(&self, var: u64) -> Option<Sym>
        ensures { result ≡ held self.now var }
    {
        self.symbols.get(&var).copied()
    }
}

/// The atom of each variable of the clauses that has one.
#[derive(Drop)]
pub(crate) struct Atoms {
    atoms: IndexMap<u64, Atom>,
}

impl Model for Atoms {
    ghost use Rattle.std.specs.Prelude.{List, ℕ};
    ghost use Rattle.bd_prop.specs.declared.atom.Atom.{Atom as TheAtom};

    ghost Value = { List (ℕ × TheAtom) };

    ghost view = { λ a. a.atoms.entries };
}

impl Atoms {
    /// No clause variable stands for an atom yet.
    fn new(alloc: Global) -> Atoms
        ensures { result ≡ [] }
    {
        Atoms {
            atoms: IndexMap::new(alloc),
        }
    }

    /// The atoms of the variables of clauses.
    pub(crate) fn of(alloc: Global, formula: &Formula) -> Result<Atoms, AllocError>
        ensures { IfOk result (λ atoms. (passes : TheAtom → Bool) (var : ℕ) →
            is_found passes (held atoms var)
            ≡ list_any (λ r. (r.var == var) && passes r.atom) formula.now.atoms) }
    {
        let mut atoms = Atoms::new(alloc);
        for row in formula.atoms.as_slice() {
            atoms.set(row.var, row.atom)?;
        }
        Ok(atoms)
    }

    /// Gives a variable an atom, in place of the one that it had.
    fn set(&mut self, var: u64, atom: Atom) -> Result<(), AllocError>
        ensures { OnOk result ((x : ℕ) →
            held self.new x ≡ (if var == x then Some atom else held self.old x)) }
    {
        self.atoms.insert(var, atom)?;
        Ok(())
    }

    /// The atom of a variable, if it has one.
    pub(crate) fn get(&self, var: u64) -> Option<Atom>
        ensures { result ≡ held self.now var }
    {
        self.atoms.get(&var).copied()
    }
}
