//! Whether a text proves that a design is right.
ghost use Rattle.std.specs.Prelude.{IfOk, IfErr};
ghost use Rattle.bd_lrat.specs.Log.{IsRefutation};
ghost use Rattle.bd_model.specs.DesignView.{design_view};
ghost use Rattle.bd_model.specs.Lawful.{IsLawful};
ghost use Rattle.bd_model.specs.Right.{IsRight};
ghost use Rattle.bd_foreign.specs.Rechecked.{IsFaultIn, IsFaultOf, IsReadFrom, IsReadIn};
ghost use Rattle.bd_foreign.specs.inner.Over.{IsFaultOver, IsReadOver};

use crate::fault::ProofFault;
use bd_cnf::Cnf;
use bd_model::Design;
use bd_proof_text::{ReadFault, read_proof};
use bd_verify::{Mode, Work, kept_in};
use std::alloc::Global;

/// Reads a textual LRAT proof over the design's kept formula in plain mode, as `recheck_in` does.
pub fn recheck(alloc: Global, design: &Design, bytes: &[u8]) -> Result<Work, ProofFault>
    requires { IsLawful (design_view design.now) }
    ensures read { IfOk result (IsReadFrom (design_view design.now) bytes.now) }
    ensures refutes { IfOk result (λ work. IsRefutation work.cnf work.log) }
    ensures right { IfOk result (λ _. IsRight (design_view design.now)) }
    ensures fault { IfErr result (IsFaultOf (design_view design.now) bytes.now) }
{
    recheck_in(alloc, design, bytes, Mode::Plain)
}

/// Reads a textual LRAT proof over the formula that is kept of the design in a mode, which is satisfiable exactly where
/// some case breaks a condition. Each line is checked as soon as it is read, and the first that adds the empty clause
/// ends the proof: then no case breaks a condition, and the design is right. Whether a state meets the invariant isn't
/// asked.
pub fn recheck_in(
    alloc: Global,
    design: &Design,
    bytes: &[u8],
    mode: Mode,
) -> Result<Work, ProofFault>
    requires { IsLawful (design_view design.now) }
    ensures read { IfOk result (IsReadIn mode (design_view design.now) bytes.now) }
    ensures refutes { IfOk result (λ work. IsRefutation work.cnf work.log) }
    ensures right { IfOk result (λ _. IsRight (design_view design.now)) }
    ensures fault { IfErr result (IsFaultIn mode (design_view design.now) bytes.now) }
{
    let cnf = kept_in(alloc, design, mode)?;
    checked(alloc, cnf, bytes)
}

/// What the text comes to over the formula.
fn checked(alloc: Global, cnf: Cnf, bytes: &[u8]) -> Result<Work, ProofFault>
    ensures read { IfOk result (IsReadOver cnf bytes.now) }
    ensures fault { IfErr result (IsFaultOver cnf bytes.now) }
{
    match read_proof(alloc, &cnf, bytes) {
        Ok(log) => Ok(Work { cnf, log }),
        Err(ReadFault::Bad(fault)) => Err(ProofFault::Bad {
            line: fault.place.line,
            column: fault.place.column,
            why: fault.why,
            cnf,
        }),
        Err(ReadFault::Memory) => Err(ProofFault::Memory),
    }
}
