//! Writing a case, a trail, and the states of a run.

ghost use Rattle.std.specs.Prelude.{◌≡◌, ◌≤◌, ◌++◌, length, map, codes, nat_eq, Ok, IfOk, OnOk, ℕ};
ghost use Rattle.std.specs.List.{AllByRecursion, flat_map};
ghost use Rattle.indexmap.specs.IndexSet.{contains};
ghost use Rattle.bd_model.specs.DesignView.{design_view, port_view};
ghost use Rattle.bd_model.specs.Fits.{Fits, TrailFits};
ghost use Rattle.bd_model.specs.Lawful.{IsLawful};
ghost use Rattle.bd_case.specs.Kinds.{is_apart, version_of};
ghost use Rattle.bd_case.specs.Content.{IsShortTable, input_tables, table_of_value, tables_of};
ghost use Rattle.bd_case.specs.Reads.{IsReading, IsTrailReading};
ghost use Rattle.bd_case.specs.Text.{entry_line, input_nodes, state_line, state_nodes, state_text, symbol_nodes, text_of, text_with, trail_nodes, trail_text_of, version_text};
ghost use Rattle.bd_model.specs.Limits.{most_cycles};

use crate::frame::apart;
use crate::kind::{EntryKind, Version};
use crate::line::{push_input, push_table, push_value, push_word};
use bd_model::{
    Case, Design, Distinct, Entry, Inputs, Interp, Port, State, Symbol, Table, Trail, Value,
};
use indexmap::IndexSet;
use std::alloc::{AllocError, Global};

/// The version in which the cases of a design are written.
fn version_of(distinct: &Distinct) -> Version
    ensures { result ≡ version_of distinct.now }
{
    if distinct.is_empty() {
        Version::One
    } else {
        Version::Two
    }
}

/// A version as it is written.
fn version_text(version: Version) -> &'static [u8]
    ensures { result.now ≡ version_text version }
{
    match version {
        Version::One => b"1",
        Version::Two => b"2",
    }
}

/// A line for each symbol.
fn push_symbols(
    out: &mut Vec<u8>,
    version: Version,
    distinct: &Distinct,
    apart: &IndexSet<usize>,
    symbols: &[Symbol],
    tables: &[Table],
) -> Result<(), AllocError>
    requires { (f : ℕ) → contains nat_eq apart.now f ≡ is_apart distinct.now f }
    ensures text { OnOk result (out.new.items ≡ out.old.items
        ++ flat_map entry_line (symbol_nodes version distinct.now 0 symbols.now tables.now)) }
    ensures short { length tables.now ≡ length symbols.now
        → OnOk result (AllByRecursion IsShortTable tables.now) }
{
    for f in 0..symbols.len().min(tables.len()) {
        let symbol = &symbols[f];
        let kind = EntryKind::of_symbol(version, apart.contains(&f), symbol);
        out.extend_from_slice(b"\n ")?;
        push_table(out, kind.head, symbol.name.as_slice(), &tables[f])?;
    }
    Ok(())
}

/// A line for each latch and memory.
fn push_state(out: &mut Vec<u8>, entries: &[Entry], values: &[Value]) -> Result<(), AllocError>
    ensures text { OnOk result (out.new.items
        ≡ out.old.items ++ flat_map entry_line (state_nodes entries.now values.now)) }
    ensures short { length values.now ≡ length entries.now
        → OnOk result (AllByRecursion IsShortTable (map table_of_value values.now)) }
{
    for (entry, value) in entries.iter().zip(values) {
        out.extend_from_slice(b"\n ")?;
        push_value(out, entry, value)?;
    }
    Ok(())
}

/// A line for each input.
fn push_inputs(out: &mut Vec<u8>, ports: &[Port], inputs: &[Inputs]) -> Result<(), AllocError>
    ensures text { OnOk result (out.new.items ≡ out.old.items
        ++ flat_map entry_line (input_nodes 0 (map port_view ports.now) inputs.now)) }
    ensures short { OnOk result
        (AllByRecursion IsShortTable (input_tables 0 (map port_view ports.now) inputs.now)) }
{
    for (i, port) in ports.iter().enumerate() {
        out.extend_from_slice(b"\n ")?;
        push_input(out, port, i, inputs)?;
    }
    Ok(())
}

/// A heading, and the entries of a trail in a version. Its words are words of the program, so they have 64 bits.
fn written(
    alloc: Global,
    design: &Design,
    version: Version,
    mut text: Vec<u8>,
    interp: &Interp,
    state: &State,
    inputs: &[Inputs],
) -> Result<Vec<u8>, AllocError>
    ensures exact { IfOk result (λ out. out.items ≡ text_with text.items
        (trail_nodes version (design_view design.now)
        (record { interp = interp.now; state = state.now; inputs = inputs.now }))) }
    ensures short { TrailFits (design_view design.now)
        (record { interp = interp.now; state = state.now; inputs = inputs.now })
        → IfOk result (λ _. AllByRecursion IsShortTable (tables_of (design_view design.now)
        (record { interp = interp.now; state = state.now; inputs = inputs.now }))) }
{
    let apart = apart(alloc, &design.distinct)?;
    let distinct = &design.distinct;
    let symbols = design.symbols.as_slice();
    push_symbols(
        &mut text,
        version,
        distinct,
        &apart,
        symbols,
        interp.as_slice(),
    )?;
    push_state(&mut text, design.pipe.entries.as_slice(), state.as_slice())?;
    push_inputs(&mut text, design.pipe.ports.as_slice(), inputs)?;
    text.extend_from_slice(b")\n")?;
    Ok(text)
}

/// The text of a case of a design, an entry on a line: functions and predicates by their numbers, then latches and
/// memories, then inputs. It's in version 2 where the design keeps constants apart. What may never match is written
/// too.
pub fn case_text(alloc: Global, design: &Design, case: &Case) -> Result<Vec<u8>, AllocError>
    ensures exact { IfOk result (λ text. text.items ≡ text_of (design_view design.now) case.now) }
    ensures reads_back { IsLawful (design_view design.now) → Fits (design_view design.now) case.now
        → IfOk result (λ text. IsReading (design_view design.now) text.items (Ok case.now)) }
{
    let version = version_of(&design.distinct);
    let mut heading = Vec::from_slice(alloc, b"(case ")?;
    heading.extend_from_slice(version_text(version))?;
    let inputs = std::slice::from_ref(&case.inputs);
    written(
        alloc,
        design,
        version,
        heading,
        &case.interp,
        &case.state,
        inputs,
    )
}

/// The text of a trail of a design: as that of a case in version 2, with the number of cycles in the version's place
/// and, of each input, its value in every cycle. A trail of at most 16 cycles reads back.
pub fn trail_text(alloc: Global, design: &Design, trail: &Trail) -> Result<Vec<u8>, AllocError>
    ensures exact { IfOk result (λ text.
        text.items ≡ trail_text_of (design_view design.now) trail.now) }
    ensures reads_back { IsLawful (design_view design.now)
        → TrailFits (design_view design.now) trail.now → length trail.now.inputs ≤ most_cycles
        → IfOk result (λ text.
        IsTrailReading (design_view design.now) text.items (Ok trail.now)) }
{
    let mut heading = Vec::from_slice(alloc, b"(trail ")?;
    push_word(&mut heading, trail.inputs.len() as u64)?;
    let inputs = trail.inputs.as_slice();
    written(
        alloc,
        design,
        Version::Two,
        heading,
        &trail.interp,
        &trail.state,
        inputs,
    )
}

/// The entries of a state as in the text of a case, each on a line of its own.
pub fn state_text(alloc: Global, design: &Design, state: &State) -> Result<Vec<u8>, AllocError>
    ensures { IfOk result (λ text. text.items ≡ state_text (design_view design.now) state.now) }
{
    let entries = design.pipe.entries.as_slice();
    let mut text = Vec::new(alloc);
    for (entry, value) in entries.iter().zip(state.as_slice()) {
        text.push(b' ')?;
        push_value(&mut text, entry, value)?;
        text.push(b'\n')?;
    }
    Ok(text)
}
