ghost use Rattle.bd_tseitin.specs.Rows.{AreRows};

use crate::row::AtomVars;
use bd_cnf::Cnf;

/// Clauses, and the variables that stand for atoms. No atom and no variable has two rows.
#[derive(Drop)]
pub struct Formula {
    pub cnf: Cnf,
    pub atoms: AtomVars,
    ghost rows: { AreRows cnf.vars atoms },
}
