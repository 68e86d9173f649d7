//! Saving a verdict's formula and proof.
ghost use Rattle.std.specs.Prelude.{◌≡◌, ◌≤◌, List, [], ◌∷◌, ℕ, Some, OnOk, IfOk, IfErr, IsErrOf};
ghost use Rattle.bd_files.specs.Devices.{Holds, KeepsOthers, Makes, Rose, saving};
ghost use Rattle.bd_app.specs.Files.{KeepsAllBut, save_if};
ghost use Rattle.bd_app.specs.Meaning.{CalledFirst, files_seen};
ghost use Rattle.bd_app.specs.Words.{given};
ghost use Rattle.bd_app.specs.inner.Saved.{IsSaveFault, Saves, part_text};

use crate::fault::Fault;
use bd_cnf::{Cnf, dimacs_text};
use bd_files::{FileCall, Files};
use bd_lrat::{Log, lrat_text};
use bd_verify::Work;
use std::alloc::{AllocError, Global};

/// Saves a text.
fn save<F: Files>(files: &mut F, name: &str, text: &[u8]) -> Result<(), Fault>
    ensures saved { OnOk result (Holds (F.held files.new) name.now text.now) }
    ensures others { KeepsOthers (F.held files.old) (F.held files.new) name.now }
    ensures called { Makes (F.calls files.old) (F.calls files.new)
        (saving name.now text.now ∷ []) }
    ensures fault { IfErr result IsSaveFault }
    ensures rose { IsErrOf result Fault.Save →
        Rose (F.faults files.old) (F.faults files.new) }
    ensures blamed { IsErrOf result Fault.Save →
        F.blame files.new ≡ Some (FileCall.Save, name.now) }
    ensures else_keeps_blame { ¬ IsErrOf result Fault.Save →
        F.blame files.new ≡ F.blame files.old }
    ensures never_falls { F.faults files.old ≤ F.faults files.new }
{
    files.save(name, text)?;
    Ok(())
}

/// What is saved of a verdict's work.
#[derive(Clone, Copy)]
enum Part<'a> {
    /// The formula.
    Formula(&'a Cnf),
    /// The proof.
    Proof(&'a Log),
}

/// The text of a part of a verdict's work.
fn text(alloc: Global, part: Part<'_>) -> Result<Vec<u8>, AllocError>
    ensures { IfOk result (λ text. text.items ≡ part_text part.entry) }
{
    match part {
        Part::Formula(cnf) => dimacs_text(alloc, cnf),
        Part::Proof(log) => lrat_text(alloc, log),
    }
}

/// Saves a part, if a name is given for it.
fn save_part<F: Files>(
    alloc: Global,
    files: &mut F,
    name: Option<&str>,
    part: Part<'_>,
) -> Result<(), Fault>
    ensures saved { OnOk result ((n : List ℕ) → given name.entry ≡ Some n →
        Holds (F.held files.new) n (part_text part.entry)) }
    ensures others { KeepsAllBut (F.held files.old) (F.held files.new)
        (λ n. given name.entry ≡ Some n) }
    ensures called { ¬ IsErrOf result Fault.Memory → Makes (F.calls files.old) (F.calls files.new)
        (save_if (given name.entry) (part_text part.entry)) }
    ensures called_first { IsErrOf result Fault.Memory → CalledFirst
        (files_seen F.held F.faults F.blame F.calls files.old)
        (files_seen F.held F.faults F.blame F.calls files.new)
        (save_if (given name.entry) (part_text part.entry)) }
    ensures fault { IfErr result IsSaveFault }
    ensures rose { IsErrOf result Fault.Save →
        Rose (F.faults files.old) (F.faults files.new) }
    ensures blamed { IsErrOf result Fault.Save → (n : List ℕ)
        × (given name.entry ≡ Some n) × (F.blame files.new ≡ Some (FileCall.Save, n)) }
    ensures else_keeps_blame { ¬ IsErrOf result Fault.Save →
        F.blame files.new ≡ F.blame files.old }
    ensures never_falls { F.faults files.old ≤ F.faults files.new }
{
    let Some(name) = name else {
        return Ok(());
    };
    let text = text(alloc, part)?;
    save(files, name, text.as_slice())
}

/// Saves a verdict's formula and then its proof, each if a name is given for it.
pub fn save_work<F: Files>(
    alloc: Global,
    files: &mut F,
    work: &Work,
    cnf: Option<&str>,
    lrat: Option<&str>,
) -> Result<(), Fault>
    ensures { Saves (given cnf.entry) (given lrat.entry) work.now
        (files_seen F.held F.faults F.blame F.calls files.old)
        (files_seen F.held F.faults F.blame F.calls files.new) result }
{
    save_part(alloc, files, cnf, Part::Formula(&work.cnf))?;
    save_part(alloc, files, lrat, Part::Proof(&work.log))
}
