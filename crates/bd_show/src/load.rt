//! Loading the files that the words name.
ghost use Rattle.std.specs.Prelude.{◌≡◌, is_some, IfSome, IfOk};
ghost use Rattle.bd_app.specs.Meaning.{files_seen};
ghost use Rattle.bd_show.specs.Files.{HoldTexts, names_of};
ghost use Rattle.bd_show.specs.inner.Loaded.{AreFew, IsLoad, texts_view};

use bd_app::loading::{LoadFault, load, load_if};
use bd_files::Files;
use bd_typer::Text;

/// The names of the files of a design, of a case of it, of a proof that it is right, of an invariant, and of a completion
/// function.
#[derive(Clone, Copy)]
pub struct FileNames<'a> {
    pub pipe: &'a str,
    pub spec: &'a str,
    pub case: Option<&'a str>,
    pub proof: Option<&'a str>,
    pub inv: Option<&'a str>,
    pub comp: Option<&'a str>,
}

/// Their bytes.
#[derive(Drop)]
pub struct Texts {
    pub pipe: Vec<u8>,
    pub spec: Vec<u8>,
    pub case: Option<Vec<u8>>,
    pub proof: Option<Vec<u8>>,
    pub inv: Option<Vec<u8>>,
    pub comp: Option<Vec<u8>>,
}

/// The bytes of the files, loaded in the order of the words.
pub fn load_texts<F: Files>(files: &mut F, names: FileNames<'_>) -> Result<Texts, LoadFault>
    ensures held { IfOk result (λ texts. IfSome (F.held files.old) (λ held.
        HoldTexts held (names_of names.entry) (texts_view texts))) }
    ensures few { IfOk result (λ texts. AreFew (texts_view texts)) }
    ensures named { IfOk result (λ texts.
        is_some (texts_view texts).case ≡ is_some (names_of names.entry).case) }
    ensures left { IsLoad (names_of names.entry)
        (files_seen F.held F.faults F.blame F.calls files.old)
        (files_seen F.held F.faults F.blame F.calls files.new) result }
{
    let pipe = load(files, Text::Pipe, names.pipe)?;
    let spec = load(files, Text::Spec, names.spec)?;
    let case = load_if(files, Text::Case, names.case)?;
    let proof = load_if(files, Text::Proof, names.proof)?;
    let inv = load_if(files, Text::Inv, names.inv)?;
    let comp = load_if(files, Text::Comp, names.comp)?;
    Ok(Texts {
        pipe,
        spec,
        case,
        proof,
        inv,
        comp,
    })
}
