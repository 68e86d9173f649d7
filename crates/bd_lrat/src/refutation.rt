ghost use Rattle.std.specs.Prelude.{◌≡◌, ◌↔◌, IsTrue, IfOk};
ghost use Rattle.std.specs.List.{list_any};
ghost use Rattle.bd_lrat.specs.Database.{database_of};
ghost use Rattle.bd_lrat.specs.Log.{IsRefutation, IsUnsatisfiable, adds_empty, refused_from};

use crate::checker::Checker;
use crate::log::Log;
use crate::refused::AddError;
use bd_cnf::Cnf;
use std::alloc::{AllocError, Global};

/// The number of the first line, from 1, that isn't accepted on those before it.
pub fn refused_line(alloc: Global, cnf: &Cnf, log: &Log) -> Result<Option<u64>, AllocError>
    ensures { IfOk result (λ number. number ≡ refused_from 1 (database_of cnf.now) log.now) }
{
    let mut checker = Checker::new(alloc, cnf)?;
    for (index, line) in log.as_slice().iter().enumerate() {
        match checker.add_line(line) {
            Ok(()) => {}
            Err(AddError::Refused(_)) => return Ok(Some(index as u64 + 1)),
            Err(AddError::Memory) => return Err(AllocError),
        }
    }
    Ok(None)
}

/// Whether some line adds the empty clause. Takes no memory.
pub fn adds_empty(log: &Log) -> bool
    ensures { result ≡ list_any adds_empty log.now }
{
    log.as_slice().iter().any(|line| line.adds_empty())
}

/// Whether the log's lines are accepted and one of them adds the empty clause. Then no assignment
/// satisfies the formula.
pub fn refutes(alloc: Global, cnf: &Cnf, log: &Log) -> Result<bool, AllocError>
    ensures refutation { IfOk result (λ yes. IsTrue yes ↔ IsRefutation cnf.now log.now) }
    ensures sound { IfOk result (λ yes. IsTrue yes → IsUnsatisfiable cnf.now) }
{
    let refused = refused_line(alloc, cnf, log)?;
    Ok(refused.is_none() && adds_empty(log))
}
