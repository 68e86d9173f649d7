//! The words and the files that are handed in.
ghost use Rattle.std.specs.Prelude.{◌≡◌, ◌%◌, ℕ, List, map, length, IfOk, IsErrOf};
ghost use Rattle.std.specs.List.{AllByRecursion};
ghost use Rattle.std.specs.Str.{IsUtf8};
ghost use Rattle.std.specs.String.{string_bytes};
ghost use Rattle.bd_app.specs.Words.{texts_of};
ghost use Rattle.bd_files.specs.Shelf.{File, files_of};
ghost use Rattle.bd_web.specs.Handed.{AreHanded, HasNoText, file_parts, names_in};

use crate::cut::cut;
use crate::fault::Fault;
use std::alloc::Global;
use std::str;

/// What is handed in.
#[derive(Drop)]
pub struct Handed {
    pub words: Vec<String>,
    pub files: Vec<(String, Vec<u8>)>,
}

/// A part as text.
fn text(alloc: Global, part: &[u8]) -> Result<String, Fault>
    ensures text { IfOk result (λ text. string_bytes text ≡ part.now) }
    ensures not_text { IsErrOf result Fault.NotText → ¬ IsUtf8 part.now }
    ensures no_parts { ¬ IsErrOf result Fault.NotParts }
    ensures no_cut { ¬ IsErrOf result Fault.CutOff }
{
    match str::from_utf8(part) {
        Ok(text) => String::from_str(alloc, text).map_err(|_| Fault::Memory),
        Err(_) => Err(Fault::NotText),
    }
}

/// Parts as texts.
fn texts(alloc: Global, parts: &[&[u8]]) -> Result<Vec<String>, Fault>
    ensures texts { IfOk result (λ texts. texts_of texts.items ≡ map (λ part. part.now) parts.now) }
    ensures not_text { IsErrOf result Fault.NotText →
        ¬ AllByRecursion IsUtf8 (map (λ part. part.now) parts.now) }
    ensures no_parts { ¬ IsErrOf result Fault.NotParts }
    ensures no_cut { ¬ IsErrOf result Fault.CutOff }
{
    let mut texts = Vec::new(alloc);
    for part in parts {
        texts.push(text(alloc, part)?).map_err(|_| Fault::Memory)?;
    }
    Ok(texts)
}

/// A file of its name and its bytes.
fn file(alloc: Global, name: &[u8], bytes: &[u8]) -> Result<(String, Vec<u8>), Fault>
    ensures file { IfOk result (λ file.
        (string_bytes file.0 ≡ name.now) × (file.1.items ≡ bytes.now)) }
    ensures not_text { IsErrOf result Fault.NotText → ¬ IsUtf8 name.now }
    ensures no_parts { ¬ IsErrOf result Fault.NotParts }
    ensures no_cut { ¬ IsErrOf result Fault.CutOff }
{
    let name = text(alloc, name)?;
    match Vec::from_slice(alloc, bytes) {
        Ok(bytes) => Ok((name, bytes)),
        Err(_) => Err(Fault::Memory),
    }
}

/// Files of parts, each of its name and its bytes.
#[tactic(auto, using(crate::proofs::Parts::parts))]
fn files(alloc: Global, parts: &[&[u8]]) -> Result<Vec<(String, Vec<u8>)>, Fault>
    ensures files { IfOk result (λ files.
        file_parts (files_of files.items) ≡ map (λ part. part.now) parts.now) }
    ensures not_text { IsErrOf result Fault.NotText →
        ¬ AllByRecursion IsUtf8 (names_in (map (λ part. part.now) parts.now)) }
    ensures not_parts { IsErrOf result Fault.NotParts → length parts.now % 2 ≡ 1 }
    ensures no_cut { ¬ IsErrOf result Fault.CutOff }
{
    if parts.len() % 2 != 0 {
        return Err(Fault::NotParts);
    }
    let mut files = Vec::new(alloc);
    for i in 0..parts.len() / 2 {
        let file = file(alloc, parts[2 * i], parts[2 * i + 1])?;
        files.push(file).map_err(|_| Fault::Memory)?;
    }
    Ok(files)
}

/// Reads what the page hands in: so many words, and then files.
pub fn read_handed(
    alloc: Global,
    bytes: &[u8],
    lengths: &[usize],
    count: usize,
) -> Result<Handed, Fault>
    ensures handed { IfOk result (λ handed. AreHanded bytes.now lengths.now count
        (texts_of handed.words.items) (files_of handed.files.items)) }
    ensures not_parts { IsErrOf result Fault.NotParts →
        (words : List (List ℕ)) (files : List File) →
        ¬ AreHanded bytes.now lengths.now count words files }
    ensures not_text { IsErrOf result Fault.NotText → HasNoText bytes.now lengths.now count }
    ensures no_cut { ¬ IsErrOf result Fault.CutOff }
{
    let parts = cut(alloc, bytes, lengths)?;
    let Some((words, rest)) = parts.as_slice().split_at_checked(count) else {
        return Err(Fault::NotParts);
    };
    let words = texts(alloc, words)?;
    let files = files(alloc, rest)?;
    Ok(Handed { words, files })
}
