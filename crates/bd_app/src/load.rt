//! Loading the files that the words name.
ghost use Rattle.std.specs.Prelude.{◌≤◌, length, IfSome, IfOk};
ghost use Rattle.bd_app.specs.Files.{HoldsShort, design_files, design_names, most_bytes, text_files, text_names};
ghost use Rattle.bd_app.specs.Meaning.{files_seen};
ghost use Rattle.bd_app.specs.Sources.{HoldSources, TextSources};
ghost use Rattle.bd_app.specs.inner.Loaded.{AreFew, Loads, sources_view};

use crate::fault::Fault;
use crate::loading::{load, load_if};
use bd_files::Files;
use bd_typer::{Premise, Text};

/// The names of the files of a design. The third says of states what the premise does.
#[derive(Clone, Copy)]
pub struct DesignFiles<'a> {
    pub pipe: &'a str,
    pub spec: &'a str,
    pub premise: Premise,
    pub third: Option<&'a str>,
}

/// The bytes of the files of a design.
#[derive(Drop)]
pub struct Sources {
    pub pipe: Vec<u8>,
    pub spec: Vec<u8>,
    pub premise: Premise,
    pub third: Option<Vec<u8>>,
}

/// The bytes of the files of a design, loaded in the order of the words.
pub fn load_sources<F: Files>(files: &mut F, names: DesignFiles<'_>) -> Result<Sources, Fault>
    ensures loaded { IfOk result (λ s. IfSome (F.held files.old) (λ held.
        HoldSources held (design_names names.entry) (sources_view s))) }
    ensures few { IfOk result (λ s. AreFew (sources_view s)) }
    ensures left { Loads (design_files (design_names names.entry))
        (files_seen F.held F.faults F.blame F.calls files.old)
        (files_seen F.held F.faults F.blame F.calls files.new) result }
{
    let pipe = load(files, Text::Pipe, names.pipe)?;
    let spec = load(files, Text::Spec, names.spec)?;
    let premise = names.premise;
    let third = load_if(files, premise.file(), names.third)?;
    Ok(Sources {
        pipe,
        spec,
        premise,
        third,
    })
}

/// The names of the files of a design and of a text on it: a case, a trail, a proof or a completion
/// function.
#[derive(Clone, Copy)]
pub struct TextFiles<'a> {
    pub design: DesignFiles<'a>,
    pub text: &'a str,
}

/// The bytes of the files of a design and of a text on it: a case, a trail, a proof or a completion
/// function.
#[derive(Drop)]
pub struct TextBytes {
    pub sources: Sources,
    pub text: Vec<u8>,
}

/// The bytes of the files of a design and of such a text on it, loaded in the order of the words.
pub fn load_text<F: Files>(
    files: &mut F,
    file: Text,
    names: TextFiles<'_>,
) -> Result<TextBytes, Fault>
    ensures loaded { IfOk result (λ bytes. IfSome (F.held files.old) (λ held.
        TextSources (text_names names.entry) held (sources_view bytes.sources))) }
    ensures loaded_text { IfOk result (λ bytes. IfSome (F.held files.old) (λ held.
        HoldsShort held (file, names.entry.text.now) bytes.text.items)) }
    ensures few { IfOk result (λ bytes. AreFew (sources_view bytes.sources)) }
    ensures few_text { IfOk result (λ bytes. length bytes.text.items ≤ most_bytes file) }
    ensures left { Loads (text_files file (text_names names.entry))
        (files_seen F.held F.faults F.blame F.calls files.old)
        (files_seen F.held F.faults F.blame F.calls files.new) result }
{
    let design = names.design;
    let pipe = load(files, Text::Pipe, design.pipe)?;
    let spec = load(files, Text::Spec, design.spec)?;
    let text = load(files, file, names.text)?;
    let premise = design.premise;
    let third = load_if(files, premise.file(), design.third)?;
    let sources = Sources {
        pipe,
        spec,
        premise,
        third,
    };
    Ok(TextBytes { sources, text })
}
