//! Reading the texts of files.
//!
//! All files are loaded before the first is read, and a design is read before its case or its trail.
ghost use Rattle.std.specs.Prelude.{◌≡◌, ◌≤◌, ◌==◌, ◌||◌, if◌then◌else◌, false, is_some, length, true, Some, Ok, IfOk, IfErr};
ghost use Rattle.bd_model.specs.Abstraction.{IsLawfulAbstraction};
ghost use Rattle.bd_model.specs.DesignView.{design_view};
ghost use Rattle.bd_app.specs.Loading.{bytes_of};
ghost use Rattle.bd_model.specs.Fits.{Fits};
ghost use Rattle.bd_model.specs.Lawful.{IsLawful};
ghost use Rattle.bd_model.specs.Limits.{most_cycles};
ghost use Rattle.bd_syntax.specs.declared.ast.Kind.TheVariants.{Pipeline, Specification};
ghost use Rattle.bd_typer.specs.Joined.{joined_view};
ghost use Rattle.bd_show.specs.Files.{AreCase, AreDesign, AreJoined, AreJoinedCase, AreStarted, AreTrail, IsCaseOf, IsJoinedFault, IsStartedFault, begins_trail, commented, has_trail};
ghost use Rattle.bd_show.specs.LetNames.{AreReadable, IsMachineText};
ghost use Rattle.bd_show.specs.inner.Loaded.{AreFew, texts_view};
ghost use Rattle.bd_show.specs.inner.Read.{AreRefused, IsCaseFault, IsRefusedBy};

use crate::load::Texts;
use bd_app::loading::loaded_slice;
use bd_case::{CaseFault, TrailFault, read_case, read_trail};
use bd_model::{Case, Design, Trail};
use bd_typer::{DesignFault, Joined, Premise, Text, completed_design, design_of, design_with};
use std::alloc::{AllocError, Global};

/// The design of texts.
pub fn design(alloc: Global, texts: &Texts) -> Result<Design, DesignFault>
    requires { AreFew (texts_view texts.now) }
    ensures read { IfOk result (λ d. AreDesign (texts_view texts.now) (Ok (design_view d))) }
    ensures lawful { IfOk result (λ d. IsLawful (design_view d)) }
    ensures readable { IfOk result (λ _. AreReadable (texts_view texts.now)) }
    ensures refused { IfErr result (AreRefused (texts_view texts.now)) }
{
    design_of(
        alloc,
        texts.pipe.as_slice(),
        texts.spec.as_slice(),
        loaded_slice(&texts.inv),
    )
}

/// The design of texts whose third is a start.
pub fn started(alloc: Global, texts: &Texts) -> Result<Design, DesignFault>
    requires { AreFew (texts_view texts.now) }
    ensures read { IfOk result (λ d. AreStarted (texts_view texts.now) (Ok (design_view d))) }
    ensures lawful { IfOk result (λ d. IsLawful (design_view d)) }
    ensures readable { IfOk result (λ _. IsMachineText Pipeline (texts_view texts.now).pipe) }
    ensures spec_readable { IfOk result (λ _.
        IsMachineText Specification (texts_view texts.now).spec) }
    ensures refused { IfErr result (IsRefusedBy (IsStartedFault (texts_view texts.now))) }
{
    let start = match &texts.inv {
        Some(start) => Some(start.as_slice()),
        None => None,
    };
    let pipe = texts.pipe.as_slice();
    let spec = texts.spec.as_slice();
    design_with(alloc, pipe, spec, Premise::Start, start)
}

/// The first byte of a case's text, where `wrong`, `correct` and `differ` begin a comment.
fn first_byte(byte: u8) -> u8
    ensures { result ≡ (if ((byte == 119) || (byte == 99)) || (byte == 100) then 59 else byte) }
{
    if byte == b'w' || byte == b'c' || byte == b'd' {
        b';'
    } else {
        byte
    }
}

/// A case's text, in which the line of a verdict is a comment.
fn commented(alloc: Global, bytes: &[u8]) -> Result<Vec<u8>, AllocError>
    ensures { IfOk result (λ text. text.items ≡ commented bytes.now) }
{
    let mut text = Vec::new(alloc);
    if let Some((first, rest)) = bytes.split_first() {
        text.push(first_byte(*first))?;
        text.extend_from_slice(rest)?;
    }
    Ok(text)
}

/// The case of a text, of which this is the design.
fn case_of(alloc: Global, design: &Design, text: &Option<Vec<u8>>) -> Result<Case, DesignFault>
    requires lawful { IsLawful (design_view design.now) }
    requires text { is_some (bytes_of text.now) ≡ true }
    ensures read { IfOk result (λ c.
        IsCaseOf (design_view design.now) (bytes_of text.now) (Ok c)) }
    ensures fits { IfOk result (Fits (design_view design.now)) }
    ensures refused { IfErr result (IsRefusedBy (IsCaseFault (design_view design.now)
        (bytes_of text.now))) }
{
    let Some(bytes) = text else { unreachable!() };
    let text = commented(alloc, bytes.as_slice())?;
    match read_case(alloc, design, text.as_slice()) {
        Ok(case) => Ok(case),
        Err(CaseFault::Bad { offset, code }) => Err(DesignFault::Bad {
            file: Text::Case,
            offset,
            code,
        }),
        Err(CaseFault::Memory) => Err(DesignFault::Memory),
    }
}

/// The case of texts, of which this is the design.
pub fn case(alloc: Global, design: &Design, texts: &Texts) -> Result<Case, DesignFault>
    requires design { AreDesign (texts_view texts.now) (Ok (design_view design.now)) }
    requires lawful { IsLawful (design_view design.now) }
    requires text { is_some (texts_view texts.now).case ≡ true }
    ensures read { IfOk result (AreCase (texts_view texts.now) (design_view design.now)) }
    ensures refused { IfErr result (AreRefused (texts_view texts.now)) }
{
    case_of(alloc, design, &texts.case)
}

/// The design of texts, and their completion function, whose bytes these are.
pub fn joined(alloc: Global, texts: &Texts, comp: &[u8]) -> Result<Joined, DesignFault>
    requires few { AreFew (texts_view texts.now) }
    requires comp { (texts_view texts.now).comp ≡ Some comp.now }
    ensures read { IfOk result (λ j. AreJoined (texts_view texts.now) (Ok (joined_view j))) }
    ensures lawful { IfOk result (λ j. IsLawful (design_view j.design)) }
    ensures abstraction { IfOk result (λ j. IsLawfulAbstraction (design_view j.design) j.abs) }
    ensures readable { IfOk result (λ _. IsMachineText Pipeline (texts_view texts.now).pipe) }
    ensures refused { IfErr result (IsRefusedBy (IsJoinedFault (texts_view texts.now))) }
{
    completed_design(
        alloc,
        texts.pipe.as_slice(),
        texts.spec.as_slice(),
        comp,
        loaded_slice(&texts.inv),
    )
}

/// The case of texts, of which these are the design and the completion function.
pub fn joined_case(alloc: Global, joined: &Joined, texts: &Texts) -> Result<Case, DesignFault>
    requires joined { AreJoined (texts_view texts.now) (Ok (joined_view joined.now)) }
    requires lawful { IsLawful (design_view joined.now.design) }
    requires text { is_some (texts_view texts.now).case ≡ true }
    ensures read { IfOk result (AreJoinedCase (texts_view texts.now) (joined_view joined.now)) }
    ensures refused { IfErr result (IsRefusedBy (IsJoinedFault (texts_view texts.now))) }
{
    case_of(alloc, &joined.design, &texts.case)
}

/// Whether `trail` begins the first list of a text.
fn begins_trail(text: &[u8]) -> bool
    ensures { result ≡ begins_trail false text.now }
{
    let mut comment = false;
    for (at, byte) in text.iter().enumerate() {
        if *byte == b'\n' {
            comment = false;
        } else if !comment && *byte == b'(' {
            return text[at + 1..].starts_with(b"trail");
        } else {
            comment = comment || *byte == b';';
        }
    }
    false
}

/// Whether a trail stands in the place of a case.
pub fn has_trail(alloc: Global, texts: &Texts) -> Result<bool, AllocError>
    ensures { IfOk result (λ b. b ≡ has_trail (texts_view texts.now)) }
{
    let Some(bytes) = &texts.case else {
        return Ok(false);
    };
    let text = commented(alloc, bytes.as_slice())?;
    Ok(begins_trail(text.as_slice()))
}

/// The trail of texts, of which this is the design.
pub fn trail(alloc: Global, design: &Design, texts: &Texts) -> Result<Trail, DesignFault>
    requires design { AreStarted (texts_view texts.now) (Ok (design_view design.now)) }
    requires lawful { IsLawful (design_view design.now) }
    requires trail { has_trail (texts_view texts.now) ≡ true }
    ensures read { IfOk result (AreTrail (texts_view texts.now) (design_view design.now)) }
    ensures short { IfOk result (λ t. length t.inputs ≤ most_cycles) }
    ensures refused { IfErr result (IsRefusedBy (IsStartedFault (texts_view texts.now))) }
{
    let Some(bytes) = &texts.case else {
        unreachable!()
    };
    let text = commented(alloc, bytes.as_slice())?;
    match read_trail(alloc, design, text.as_slice()) {
        Ok(trail) => Ok(trail),
        Err(TrailFault::Bad { offset, code }) => Err(DesignFault::Bad {
            file: Text::Trail,
            offset,
            code,
        }),
        Err(TrailFault::Memory) => Err(DesignFault::Memory),
    }
}
