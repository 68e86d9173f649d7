ghost use Rattle.std.specs.Prelude.{◌≡◌, false, None};

use crate::solver::{Found, Solver};
use bd_cnf::Cnf;
use bd_lrat::Log;
use std::alloc::AllocError;

/// A solver that says what it was given, whatever the formula: what a caller does with a wrong
/// answer can be tried by it.
#[derive(Drop)]
pub struct Scripted {
    pub found: Found,
    pub lines: Log,
}

impl Solver for Scripted {
    ghost honest = { λ _. false };

    ghost says = { λ scripted _ _ _ found lines.
        (found ≡ scripted.found) × (lines ≡ scripted.lines) };

    ghost asked = { λ _. None };

    /// Says what the script says, with its log, whatever the formula and the budget.
    fn solve(&mut self, _cnf: &Cnf, _budget: u32, log: &mut Log) -> Result<Found, AllocError> {
        *log = self.lines.clone()?;
        self.found.clone()
    }
}
