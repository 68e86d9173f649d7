ghost use Rattle.std.specs.Prelude.{◌≡◌, None, Some, IfOk, All};
ghost use Rattle.bd_prop.specs.declared.atom.Atom.{Atom};
ghost use Rattle.bd_prop.specs.Values.{held, truth_of};
ghost use Rattle.bd_cnf.specs.Assignment.{value_of};
ghost use Rattle.bd_tseitin.specs.Rows.{Agree, HasAtom};

use crate::formula::Formula;
use bd_cnf::Assignment;
use bd_prop::AtomValues;
use std::alloc::{AllocError, Global};

/// The values of the atoms: each row's atom has the value of its variable.
pub fn inputs_of(alloc: Global, formula: &Formula, a: &Assignment) -> Result<AtomValues, AllocError>
    ensures rows { IfOk result (λ values.
        All (λ r. held values r.atom ≡ Some (value_of a.now r.var)) formula.now.atoms) }
    ensures others { IfOk result (λ values. (atom : Atom) →
        ¬ HasAtom formula.now.atoms atom → held values atom ≡ None) }
    ensures agree { IfOk result (λ values.
        Agree (value_of a.now) (truth_of values) formula.now.atoms) }
{
    let mut values = AtomValues::new(alloc);
    for row in formula.atoms.as_slice() {
        values.set(row.atom, a.value(row.var))?;
    }
    Ok(values)
}
