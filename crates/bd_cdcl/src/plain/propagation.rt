//! Unit propagation (Davis and Putnam, 1960) by passes over all clauses, until one finds nothing to
//! do: a clause all of whose literals but one are false makes that one true.
ghost use Rattle.std.specs.Prelude.{◌≡◌, ◌≤◌, length, IfSome, IfNone};
ghost use Rattle.std.specs.List.{All};
ghost use Rattle.bd_cnf.specs.Standing.{IsBelow};
ghost use Rattle.bd_cnf.specs.Status.{IsStatus};
ghost use Rattle.bd_cnf.specs.Trail.{open_literals};
ghost use Rattle.bd_lrat.specs.Database.{numbered};
ghost use Rattle.bd_watch.specs.Levels.{literals, IsComplete};
ghost use Rattle.bd_cdcl.specs.inner.Passes.{IsPassed, AllClosed};
ghost use Rattle.bd_watch.specs.Watching.{IsConflict};

use bd_cnf::{Clause, ClauseStatus, Lit};
use bd_watch::AssignmentTrail;

/// How many literals of a clause aren't false.
fn status(trail: &AssignmentTrail, clause: &[Lit]) -> ClauseStatus
    requires { IsBelow trail.now.limit clause.now }
    ensures { IsStatus result (open_literals (literals trail.now.entries) clause.now) }
{
    let mut found: Option<Lit> = None;
    for &lit in clause {
        if trail.is_false(lit) {
            continue;
        }
        if found.is_some() {
            return ClauseStatus::Unresolved;
        }
        found = Some(lit);
    }
    match found {
        None => ClauseStatus::Falsified,
        Some(lit) => ClauseStatus::Unit(lit),
    }
}

/// What a pass over the clauses came to.
enum Passed {
    /// The clause under this id is false.
    Conflict(u64),
    /// Some literal was assigned.
    Extended,
    /// No clause is false or unit.
    Closed,
}

/// Assigns the literal of each clause that is unit where the pass comes to it. The clauses have the
/// ids from 1.
fn pass(clauses: &[Clause], trail: &mut AssignmentTrail) -> Passed
    requires below { All (IsBelow trail.old.limit) clauses.now }
    requires complete { IsComplete (numbered clauses.now) trail.old.entries }
    ensures limit { trail.new.limit ≡ trail.old.limit }
    ensures complete { IsComplete (numbered clauses.now) trail.new.entries }
    ensures passed { IsPassed clauses.now trail.old trail.new result }
{
    let mut extended = false;
    for (place, clause) in clauses.iter().enumerate() {
        let id = place as u64 + 1;
        match status(trail, clause.lits()) {
            ClauseStatus::Falsified => return Passed::Conflict(id),
            ClauseStatus::Unit(lit) => {
                if !trail.is_true(lit) {
                    let packed = trail.pack(lit);
                    trail.imply(packed, id);
                    extended = true;
                }
            }
            ClauseStatus::Unresolved => {}
        }
    }
    if extended {
        Passed::Extended
    } else {
        Passed::Closed
    }
}

/// Propagates until a clause is false, and answers its id, or until no clause is false or unit.
pub(crate) fn propagate(clauses: &[Clause], trail: &mut AssignmentTrail) -> Option<u64>
    requires below { All (IsBelow trail.old.limit) clauses.now }
    requires complete { IsComplete (numbered clauses.now) trail.old.entries }
    ensures limit { trail.new.limit ≡ trail.old.limit }
    ensures complete { IsComplete (numbered clauses.now) trail.new.entries }
    ensures longer { length trail.old.entries ≤ length trail.new.entries }
    ensures conflict { IfSome result (IsConflict (numbered clauses.now) trail.new.entries) }
    ensures closed { IfNone result (AllClosed clauses.now trail.new.entries) }
{
    loop {
        match pass(clauses, trail) {
            Passed::Conflict(id) => return Some(id),
            Passed::Extended => {}
            Passed::Closed => return None,
        }
    }
}
