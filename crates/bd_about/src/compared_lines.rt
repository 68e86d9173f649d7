//! With what each function is compared, as a line that a designer reads.
ghost use Rattle.std.specs.Prelude.{◌≡◌, ◌++◌, [], true, codes, length, map, slice_get, if◌then◌else◌, OnOk};
ghost use Rattle.bd_model.specs.DesignView.{design_view, port_view};
ghost use Rattle.bd_about.specs.ComparedLines.{all_compared, compared_line, entry_words, function_words, input_words, is_empty, semicolon, symbol_words, symbols_words};
ghost use Rattle.bd_about.specs.PartLines.{comma};
ghost use Rattle.bd_about.specs.UnreadLines.{line_if};

use crate::compared::Partners;
use crate::unread_lines::entry_kind;
use bd_model::{Design, Entry, Port, Symbol};
use bd_terms::Sym;
use std::alloc::AllocError;

/// Puts the name of a function.
fn push_function(out: &mut Vec<u8>, symbols: &[Symbol], place: u32) -> Result<(), AllocError>
    ensures { OnOk result (out.new.items
        ≡ out.old.items ++ line_if function_words (slice_get symbols.now place)) }
{
    match symbols.get(place as usize) {
        Some(symbol) => out.extend_from_slice(symbol.name.as_slice()),
        None => Ok(()),
    }
}

/// Puts what an entry is, and its name.
fn push_entry(out: &mut Vec<u8>, entries: &[Entry], place: u32) -> Result<(), AllocError>
    ensures { OnOk result (out.new.items
        ≡ out.old.items ++ line_if entry_words (slice_get entries.now place)) }
{
    match entries.get(place as usize) {
        Some(entry) => {
            out.extend_from_slice(b"the ")?;
            out.extend_from_slice(entry_kind(entry.sort).as_bytes())?;
            out.extend_from_slice(entry.name.as_slice())
        }
        None => Ok(()),
    }
}

/// Puts that an input is one, and its name.
fn push_input(out: &mut Vec<u8>, ports: &[Port], place: u32) -> Result<(), AllocError>
    ensures { OnOk result (out.new.items
        ≡ out.old.items ++ line_if input_words (slice_get (map port_view ports.now) place)) }
{
    match ports.get(place as usize) {
        Some(port) => {
            out.extend_from_slice(b"the input ")?;
            out.extend_from_slice(port.name.as_slice())
        }
        None => Ok(()),
    }
}

/// Puts what a symbol of a design's formula stands for.
fn push_symbol(out: &mut Vec<u8>, design: &Design, symbol: Sym) -> Result<(), AllocError>
    ensures { OnOk result (out.new.items
        ≡ out.old.items ++ symbol_words (design_view design.now) symbol) }
{
    match symbol {
        Sym::Function(f) => push_function(out, design.symbols.as_slice(), f),
        Sym::Entry(entry) => push_entry(out, design.pipe.entries.as_slice(), entry),
        Sym::Input(input) => push_input(out, design.pipe.ports.as_slice(), input),
        Sym::Address(_) => out.extend_from_slice(b"a fresh address"),
        Sym::Var(_) => Ok(()),
    }
}

/// Puts a separator, but before the first of all.
fn push_unless(out: &mut Vec<u8>, first: bool, separator: &str) -> Result<(), AllocError>
    ensures { OnOk result (out.new.items
        ≡ out.old.items ++ (if first then [] else separator.now)) }
{
    if first {
        return Ok(());
    }
    out.extend_from_slice(separator.as_bytes())
}

/// Puts symbols with commas between them.
fn push_symbols(out: &mut Vec<u8>, design: &Design, symbols: &[Sym]) -> Result<(), AllocError>
    ensures { OnOk result (out.new.items
        ≡ out.old.items ++ symbols_words (design_view design.now) true symbols.now) }
{
    let mut first = true;
    for symbol in symbols {
        push_unless(out, first, ", ")?;
        push_symbol(out, design, *symbol)?;
        first = false;
    }
    Ok(())
}

/// Puts a function with the symbols with which it is compared, after a semicolon where it isn't the first.
fn push_comparison(
    out: &mut Vec<u8>,
    design: &Design,
    first: bool,
    name: &[u8],
    symbols: &[Sym],
) -> Result<(), AllocError>
    ensures { OnOk result (out.new.items ≡ out.old.items ++ (semicolon first
        ++ (name.now ++ codes ": " ++ symbols_words (design_view design.now) true symbols.now))) }
{
    push_unless(out, first, "; ")?;
    out.extend_from_slice(name)?;
    out.extend_from_slice(b": ")?;
    push_symbols(out, design, symbols)
}

/// Puts that nothing is compared, where nothing is.
fn push_none(out: &mut Vec<u8>, none: bool) -> Result<(), AllocError>
    ensures { OnOk result (out.new.items
        ≡ out.old.items ++ (if none then codes "nothing" else [])) }
{
    if none {
        out.extend_from_slice(b"nothing")?;
    }
    Ok(())
}

/// Puts each function that is compared with some symbol, with these.
fn push_comparisons(
    out: &mut Vec<u8>,
    design: &Design,
    symbols: &[Symbol],
    compared: &[Partners],
) -> Result<(), AllocError>
    requires { length compared.now ≡ length symbols.now }
    ensures { OnOk result (out.new.items ≡ out.old.items
        ++ all_compared (design_view design.now) true symbols.now compared.now) }
{
    let mut none = true;
    for (place, symbol) in symbols.iter().enumerate() {
        let with = compared[place].as_slice();
        if !with.is_empty() {
            push_comparison(out, design, none, symbol.name.as_slice(), with)?;
            none = false;
        }
    }
    push_none(out, none)
}

/// Puts the line on what each function is compared with.
pub(crate) fn push_compared(
    out: &mut Vec<u8>,
    design: &Design,
    compared: &[Partners],
) -> Result<(), AllocError>
    requires { length compared.now ≡ length (design_view design.now).symbols }
    ensures { OnOk result (out.new.items
        ≡ out.old.items ++ compared_line (design_view design.now) compared.now) }
{
    out.extend_from_slice(b"compared with    ")?;
    push_comparisons(out, design, design.symbols.as_slice(), compared)?;
    out.extend_from_slice(b"\n")
}
