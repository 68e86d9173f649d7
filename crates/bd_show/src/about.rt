//! `about`: what can be said of a design without a case.
ghost use Rattle.std.specs.Prelude.{IfOk};
ghost use Rattle.bd_model.specs.DesignView.{design_view};
ghost use Rattle.bd_model.specs.Lawful.{IsLawful};
ghost use Rattle.bd_app.specs.Loading.{bytes_of};
ghost use Rattle.bd_app.specs.Meaning.{files_seen};
ghost use Rattle.bd_show.specs.Files.{names_of};
ghost use Rattle.bd_show.specs.LetNames.{AreGivenLets, AreReadable, IsInvariantTextIf};
ghost use Rattle.bd_show.specs.Meaning.{Question, Says};
ghost use Rattle.bd_show.specs.inner.Answered.{IsDoneOn, IsOfDesign};
ghost use Rattle.bd_show.specs.inner.Loaded.{AreFew, texts_view};

use crate::answer::{Answer, Ended};
use crate::fault::{refused, unloaded};
use crate::load::{FileNames, Texts, load_texts};
use crate::names::{invariant_lets, machine_lets};
use crate::read::design;
use bd_about::{LetNames, about_design};
use bd_files::Files;
use bd_model::Design;
use bd_syntax::Kind;
use std::alloc::{AllocError, Global};

/// The names of the lets of an invariant, where there is one.
fn given_lets(alloc: Global, inv: &Option<Vec<u8>>) -> Result<Vec<Vec<u8>>, AllocError>
    requires { IsInvariantTextIf (bytes_of inv.now) }
    ensures { IfOk result (λ names. AreGivenLets (bytes_of inv.now) names.items) }
{
    match inv {
        Some(inv) => invariant_lets(alloc, inv.as_slice()),
        None => Ok(Vec::new(alloc)),
    }
}

/// What is said of the design of texts.
fn described(alloc: Global, texts: &Texts, design: Design) -> Result<Answer, AllocError>
    requires lawful { IsLawful (design_view design) }
    requires readable { AreReadable (texts_view texts.now) }
    ensures { IfOk result (λ a.
        IsOfDesign (texts_view texts.now) (design_view design) a.ended a.text.items) }
{
    let lets = machine_lets(alloc, texts.pipe.as_slice(), Kind::Pipeline)?;
    let spec_lets = machine_lets(alloc, texts.spec.as_slice(), Kind::Specification)?;
    let inv_lets = given_lets(alloc, &texts.inv)?;
    let names = LetNames {
        lets: lets.as_slice(),
        spec_lets: spec_lets.as_slice(),
        inv_lets: inv_lets.as_slice(),
    };
    let about = about_design(alloc, design, names, texts.inv.is_some())?;
    Ok(Answer {
        ended: Ended::Described(about.found.findings),
        text: about.text,
    })
}

/// The answer on texts.
fn on_texts(alloc: Global, names: FileNames<'_>, texts: &Texts) -> Result<Answer, AllocError>
    requires { AreFew (texts_view texts.now) }
    ensures { IfOk result (λ a.
        Says (Question.about (names_of names.entry)) (texts_view texts.now) a.ended a.text.items) }
{
    match design(alloc, texts) {
        Ok(design) => described(alloc, texts, design),
        Err(fault) => refused(alloc, names, texts, fault),
    }
}

/// The answer of `about` on the files of these names.
pub fn answer<F: Files>(
    alloc: Global,
    files: &mut F,
    names: FileNames<'_>,
) -> Result<Answer, AllocError>
    ensures { IsDoneOn (Question.about (names_of names.entry))
        (files_seen F.held F.faults F.blame F.calls files.old)
        (files_seen F.held F.faults F.blame F.calls files.new) result }
{
    match load_texts(files, names) {
        Ok(texts) => on_texts(alloc, names, &texts),
        Err(fault) => unloaded(alloc, names, fault),
    }
}
