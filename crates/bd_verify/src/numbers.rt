//! Which variable stands for which atom, as a list of rows that grows, and a map to find them by.
ghost use Rattle.std.specs.Prelude.{◌≡◌, ◌<◌, ◌∷◌, [], Contains, IfOk, OnOk};
ghost use Rattle.bd_tseitin.specs.Rows.{AreRows};
ghost use Rattle.bd_verify.specs.Kept.{AddsRows, AreVariables, edge_row};
ghost use Rattle.bd_verify.specs.inner.Numbers.{Finds, IsNumbered, most_variables};

use bd_prop::Atom;
use bd_transitive::Edge;
use bd_tseitin::{AtomVar, AtomVars};
use indexmap::IndexMap;
use std::alloc::{AllocError, Global};

/// The rows of atoms, over the variables from 1 to `vars`, and the variable of each atom.
#[derive(Drop)]
pub(crate) struct Numbers {
    pub vars: u64,
    pub atoms: AtomVars,
    pub found: IndexMap<Atom, u64>,
}

impl Numbers {
    /// The numbers of the atoms of these rows, where variables up to `vars` are taken.
    pub(crate) fn of(alloc: Global, vars: u64, atoms: AtomVars) -> Result<Numbers, AllocError>
        requires rows { AreRows vars atoms }
        requires few { vars < most_variables }
        ensures vars { IfOk result (λ n. n.vars ≡ vars) }
        ensures atoms { IfOk result (λ n. n.atoms ≡ atoms) }
        ensures numbered { IfOk result IsNumbered }
    {
        let found = found(alloc, atoms.as_slice())?;
        Ok(Numbers { vars, atoms, found })
    }

    /// The variable of each edge, in their order.
    pub(crate) fn variables(
        &mut self,
        alloc: Global,
        edges: &[Edge],
    ) -> Result<Vec<u64>, AllocError>
        requires { IsNumbered self.old }
        ensures variables { IfOk result (λ vars. AreVariables self.new.atoms edges.now vars.items) }
        ensures rows { OnOk result (AddsRows edges.now self.old.vars self.old.atoms
            self.new.vars self.new.atoms) }
        ensures numbered { OnOk result (IsNumbered self.new) }
    {
        let mut variables = Vec::with_capacity(alloc, edges.len())?;
        for edge in edges {
            variables.push(self.variable(edge)?)?;
        }
        Ok(variables)
    }

    /// The variable of an edge. One without a row gets a new variable.
    fn variable(&mut self, edge: &Edge) -> Result<u64, AllocError>
        requires { IsNumbered self.old }
        ensures row { IfOk result (λ var. Contains self.new.atoms (edge_row edge.now var)) }
        ensures rows { OnOk result (AddsRows (edge.now ∷ []) self.old.vars self.old.atoms
            self.new.vars self.new.atoms) }
        ensures numbered { OnOk result (IsNumbered self.new) }
    {
        let atom = Atom::Edge(edge.from, edge.to);
        if let Some(var) = self.found.get(&atom) {
            return Ok(*var);
        }
        let rows = self.atoms.as_slice();
        prove!(rows.len() < 1 << 60);
        let var = self.vars + 1;
        self.atoms.push(AtomVar { atom, var })?;
        self.found.insert(atom, var)?;
        self.vars = var;
        Ok(var)
    }
}

/// The variable of each atom of these rows.
fn found(alloc: Global, atoms: &[AtomVar]) -> Result<IndexMap<Atom, u64>, AllocError>
    ensures { IfOk result (λ found. Finds found.entries atoms.now) }
{
    let mut found = IndexMap::new(alloc);
    for row in atoms {
        found.insert(row.atom, row.var)?;
    }
    Ok(found)
}
