//! Reading the texts of files.
//!
//! All files are loaded before the first is read, and a design is read before a text on it. So the
//! first fault in this order refuses: a file that is too long, a fault of the design's files, one of
//! the case or trail.
ghost use Rattle.std.specs.Prelude.{◌≤◌, IfOk, IfErr, Ok, length};
ghost use Rattle.bd_model.specs.Abstraction.{IsLawfulAbstraction, abstraction_view};
ghost use Rattle.bd_case.specs.Reads.{IsReading, IsTrailReading};
ghost use Rattle.bd_model.specs.DesignView.{design_view};
ghost use Rattle.bd_model.specs.Fits.{Fits};
ghost use Rattle.bd_model.specs.Lawful.{IsLawful};
ghost use Rattle.bd_app.specs.Texts.{TrailFitsShort, case_kind, trail_kind};
ghost use Rattle.bd_app.specs.inner.Loaded.{AreFew, sources_view};
ghost use Rattle.bd_app.specs.inner.Completed.{AreCompletion, AreNoCompletion};
ghost use Rattle.bd_app.specs.inner.Done.{AreDesign, AreRefused, IsTextRefused};
ghost use Rattle.bd_model.specs.Limits.{longest_text};

use crate::fault::{Fault, of_text};
use crate::load::{Sources, TextBytes};
use crate::loading::loaded_slice;
use bd_case::{read_case, read_trail};
use bd_model::{Case, Design, Trail};
use bd_typer::{Joined, Text, completed_design, design_with};
use std::alloc::Global;

/// The design of sources.
pub fn design(alloc: Global, sources: &Sources) -> Result<Design, Fault>
    requires { AreFew (sources_view sources.now) }
    ensures read { IfOk result (λ d. AreDesign (sources_view sources.now) (design_view d)) }
    ensures lawful { IfOk result (λ d. IsLawful (design_view d)) }
    ensures refused { IfErr result (AreRefused (sources_view sources.now)) }
{
    let third = loaded_slice(&sources.third);
    let design = design_with(
        alloc,
        sources.pipe.as_slice(),
        sources.spec.as_slice(),
        sources.premise,
        third,
    )?;
    Ok(design)
}

/// The design of sources, and the completion function of bytes.
pub fn completion(alloc: Global, bytes: &TextBytes) -> Result<Joined, Fault>
    requires sources { AreFew (sources_view bytes.now.sources) }
    requires text { length bytes.now.text.items ≤ longest_text }
    ensures read { IfOk result (λ j. AreCompletion (sources_view bytes.now.sources)
        bytes.now.text.items (design_view j.design) (abstraction_view j.abs)) }
    ensures lawful { IfOk result (λ j. IsLawful (design_view j.design)) }
    ensures given { IfOk result (λ j. IsLawfulAbstraction (design_view j.design) j.abs) }
    ensures refused { IfErr result
        (AreNoCompletion (sources_view bytes.now.sources) bytes.now.text.items) }
{
    let sources = &bytes.sources;
    let inv = loaded_slice(&sources.third);
    let joined = completed_design(
        alloc,
        sources.pipe.as_slice(),
        sources.spec.as_slice(),
        bytes.text.as_slice(),
        inv,
    )?;
    Ok(joined)
}

/// The case of bytes.
pub fn case(alloc: Global, design: &Design, bytes: &[u8]) -> Result<Case, Fault>
    requires { IsLawful (design_view design.now) }
    ensures read { IfOk result (λ c.
        IsReading (design_view design.now) bytes.now (Ok c) × Fits (design_view design.now) c) }
    ensures refused { IfErr result (IsTextRefused case_kind (design_view design.now) bytes.now) }
{
    of_text(Text::Case, read_case(alloc, design, bytes))
}

/// The trail of bytes.
pub fn trail(alloc: Global, design: &Design, bytes: &[u8]) -> Result<Trail, Fault>
    requires { IsLawful (design_view design.now) }
    ensures read { IfOk result (λ t. IsTrailReading (design_view design.now) bytes.now (Ok t)
        × TrailFitsShort (design_view design.now) t) }
    ensures refused { IfErr result (IsTextRefused trail_kind (design_view design.now) bytes.now) }
{
    of_text(Text::Trail, read_trail(alloc, design, bytes))
}
