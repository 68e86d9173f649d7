//! Assignments hold the values of some variables and give false to all others, so that each one is a
//! value for every variable, and an assignment that a solver leaves short still satisfies or doesn't.
ghost use Rattle.std.specs.Prelude.{◌≡◌, OnOk, OnErr};
ghost use Rattle.std.specs.Ordering.{nat_cmp};
ghost use Rattle.std.specs.FinMap as map;
ghost use Rattle.bd_cnf.specs.Assignment.{value_of};

use std::alloc::{AllocError, Global};
use std::collections::BTreeMap;
use std::marker::Model;

/// A finite map from variables to truth values. A variable that it doesn't hold is false.
#[derive(Drop)]
pub struct Assignment {
    values: BTreeMap<u64, bool>,
}

impl Model for Assignment {
    ghost use Rattle.std.specs.Prelude.{Bool};
    ghost use Rattle.std.specs.Ordering.{nat_cmp};
    ghost use Rattle.std.specs.FinMap as map;
    ghost use Rattle.std.specs.Coded.{coded_ℕ, coded_bool};

    ghost Value = { map.FinMap nat_cmp Bool };

    ghost coded = { map.code coded_ℕ coded_bool };

    ghost view = { λ a. map.from_entries a.values.entries };
}

impl Clone for Assignment {
    ghost is_clone = { λ a b. b ≡ a };

    /// A copy of the assignment.
    fn clone(&self) -> Result<Self, AllocError> {
        let values = self.values.clone()?;
        Ok(Assignment { values })
    }
}

impl Assignment {
    /// The assignment that holds no variable.
    pub fn new(alloc: Global) -> Assignment
        ensures { result ≡ map.empty }
    {
        Assignment {
            values: BTreeMap::new(alloc),
        }
    }

    /// Gives a variable a value, in place of the one that it had.
    pub fn set(&mut self, var: u64, value: bool) -> Result<(), AllocError>
        ensures ok { OnOk result (self.new ≡ map.insert self.old var value) }
        ensures err { OnErr result (self.new ≡ self.old) }
    {
        self.values.insert(var, value)?;
        Ok(())
    }

    /// The value that is held, or `None`.
    pub fn get(&self, var: u64) -> Option<bool>
        ensures { result ≡ map.get self.now var }
    {
        self.values.get(&var).copied()
    }

    /// The value of a variable: false where none is held. Takes no memory.
    pub fn value(&self, var: u64) -> bool
        ensures { result ≡ value_of self.now var }
    {
        self.get(var).unwrap_or(false)
    }
}
