//! Finite maps from variables to scalars, and sets of variables.
ghost use Rattle.std.specs.Prelude.{◌≡◌, ◌==◌, ℕ, [], true, Some, OnOk, OnErr, if◌then◌else◌};
ghost use Rattle.bd_function.specs.Values.{held, scalar_of, is_marked};

use bd_model::Scalar;
use indexmap::{IndexMap, IndexSet};
use std::alloc::{AllocError, Global};
use std::marker::Model;

/// A finite map from variables to scalars. A variable that it doesn't hold is false.
#[derive(Drop)]
pub struct Values {
    values: IndexMap<u64, Scalar>,
}

impl Model for Values {
    ghost use Rattle.std.specs.Prelude.{List, ℕ};
    ghost use Rattle.bd_model.specs.declared.table.Scalar.{Scalar as TheScalar};

    ghost Value = { List (ℕ × TheScalar) };

    ghost view = { λ v. v.values.entries };
}

impl Values {
    /// The map that holds no variable. It takes no memory.
    pub fn new(alloc: Global) -> Values
        ensures { result ≡ [] }
    {
        Values {
            values: IndexMap::new(alloc),
        }
    }

    /// Gives a variable a scalar, in place of the one that it had.
    pub fn set(&mut self, var: u64, value: Scalar) -> Result<(), AllocError>
        ensures ok { OnOk result ((v : ℕ) →
            held self.new v ≡ (if var == v then Some value else held self.old v)) }
        ensures err { OnErr result (self.new ≡ self.old) }
    {
        self.values.insert(var, value)?;
        Ok(())
    }

    /// The scalar of a variable: false where none is held. It takes no memory.
    pub fn value(&self, var: u64) -> Scalar
        ensures { result ≡ scalar_of self.now var }
    {
        self.values
            .get(&var)
            .copied()
            .unwrap_or(Scalar::Bool(false))
    }
}

/// A set of variables.
#[derive(Drop)]
pub struct Marked {
    vars: IndexSet<u64>,
}

impl Model for Marked {
    ghost use Rattle.std.specs.Prelude.{List, ℕ};

    ghost Value = { List ℕ };

    ghost view = { λ m. m.vars.keys };
}

impl Marked {
    /// The set of no variable. It takes no memory.
    pub fn new(alloc: Global) -> Marked
        ensures { result ≡ [] }
    {
        Marked {
            vars: IndexSet::new(alloc),
        }
    }

    /// Puts a variable into the set.
    pub fn insert(&mut self, var: u64) -> Result<(), AllocError>
        ensures ok { OnOk result ((v : ℕ) →
            is_marked self.new v ≡ (if var == v then true else is_marked self.old v)) }
        ensures err { OnErr result (self.new ≡ self.old) }
    {
        self.vars.insert(var)?;
        Ok(())
    }

    /// Whether the variable is in the set. It takes no memory.
    pub fn has(&self, var: u64) -> bool
        ensures { result ≡ is_marked self.now var }
    {
        self.vars.contains(&var)
    }
}
