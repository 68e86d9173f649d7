//! Propagation along hints. A hint names a clause; what counts is how many of its literals aren't
//! false: none is a conflict, one makes that literal true, and with two the scan stops at once. So a
//! check reads no more than the clauses that its hints name, allocates nothing, and looks for no
//! clause by itself.
ghost use Rattle.std.specs.Prelude.{◌≡◌};
ghost use Rattle.bd_cnf.specs.Standing.{IsBelow, StandsBelow};
ghost use Rattle.bd_cnf.specs.Status.{IsStatus};
ghost use Rattle.bd_cnf.specs.Trail.{open_literals};
ghost use Rattle.bd_lrat.specs.Database.{outcome_answer};
ghost use Rattle.bd_lrat.specs.inner.Steps.{IsStep, step_of, reached_by};

use crate::hints::Hints;
use crate::line::Hint;
use crate::refused::Refused;
use crate::store::ClauseStore;
use crate::trail::PropagationTrail;
use bd_cnf::{ClauseStatus, Lit, PackedLit};

/// How many literals of a clause aren't false.
fn status(trail: &PropagationTrail, clause: &[PackedLit]) -> ClauseStatus
    requires { IsBelow trail.now.limit clause.now }
    ensures { IsStatus result (open_literals trail.now.literals clause.now) }
{
    let mut found: Option<Lit> = None;
    for packed in clause {
        let lit = packed.lit();
        if trail.is_false(lit) {
            continue;
        }
        if found.is_some() {
            return ClauseStatus::Unresolved;
        }
        found = Some(lit);
    }
    match found {
        None => ClauseStatus::Falsified,
        Some(lit) => ClauseStatus::Unit(lit),
    }
}

/// Follows one hint, and answers whether it is a conflict.
fn step(clauses: &ClauseStore, trail: &mut PropagationTrail, hint: Hint) -> Result<bool, Refused>
    requires { StandsBelow trail.old.limit clauses.now.clauses }
    ensures limit { trail.new.limit ≡ trail.old.limit }
    ensures outcome { IsStep result (step_of clauses.now trail.old hint) trail.new.literals }
{
    let Hint::Unit(id) = hint else {
        return Err(Refused::Rat);
    };
    let Some(clause) = clauses.get(id) else {
        return Err(Refused::NoSuch(id));
    };
    match status(trail, clause) {
        ClauseStatus::Falsified => Ok(true),
        ClauseStatus::Unit(lit) => {
            if !trail.is_true(lit) {
                trail.assign(lit);
            }
            Ok(false)
        }
        ClauseStatus::Unresolved => Err(Refused::NotUnit(id)),
    }
}

/// Follows the hints in order, until one is a conflict.
pub(crate) fn propagate(
    clauses: &ClauseStore,
    trail: &mut PropagationTrail,
    hints: &Hints,
) -> Result<(), Refused>
    requires { StandsBelow trail.old.limit clauses.now.clauses }
    ensures limit { trail.new.limit ≡ trail.old.limit }
    ensures answer { result ≡ outcome_answer (reached_by clauses.now trail.old hints.now) }
{
    for hint in hints.iter() {
        if step(clauses, trail, hint)? {
            return Ok(());
        }
    }
    Err(Refused::NoConflict)
}
