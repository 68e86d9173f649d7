//! The trail of what was given: what may lack has its default, and constants that are kept apart have different values.

ghost use Rattle.std.specs.Prelude.{◌≡◌, ◌≤◌, ◌+◌, ℕ, [], map, length, drop, IfOk, nat_eq};
ghost use Rattle.std.specs.List.{list_any, zip};
ghost use Rattle.bd_syntax.specs.Reading.{Gives};
ghost use Rattle.bd_model.specs.DesignView.{design_view};
ghost use Rattle.bd_model.specs.Value.{scalar_word, slot_of, table_of};
ghost use Rattle.bd_case.specs.Kinds.{kinds};
ghost use Rattle.bd_case.specs.Content.{case_of, inputs_from, trail_from, value_in, value_of_table};
ghost use Rattle.bd_case.specs.Reading.{constants, distinct_form, given_or, repeats, whole_form};

use crate::kind::EntryKind;
use crate::value::default_of;
use bd_model::{
    Case, Design, Entry, InputLists, Inputs, Interp, Memory, Places, Rows, Scalar, Slots, Sort,
    State, Table, Trail, Value,
};
use bd_syntax::{FormFault, bad};
use bd_text::Code;
use indexmap::IndexSet;
use std::alloc::{AllocError, Global};

/// What was given, or the default without rows where nothing need be given.
fn given_or(
    alloc: Global,
    offset: usize,
    kind: EntryKind,
    given: Option<Table>,
) -> Result<Table, FormFault>
    ensures { Gives (λ t. t) result (given_or offset kind given) }
{
    match given {
        Some(table) => Ok(table),
        None if kind.head.may_lack() => Ok(Table {
            default: default_of(kind.sort),
            rows: Rows::new(alloc),
        }),
        None => Err(bad(offset, Code::MissingOrTwice)),
    }
}

/// Everything that the text gives.
pub fn whole(
    alloc: Global,
    offset: usize,
    kinds: &[EntryKind],
    given: Vec<Option<Table>>,
) -> Result<Vec<Table>, FormFault>
    requires { length given.items ≡ length kinds.now }
    ensures whole { Gives (λ tables. tables.items) result
        (whole_form offset kinds.now given.items) }
    ensures count { IfOk result (λ tables. length tables.items ≡ length kinds.now) }
{
    let mut tables = Vec::with_capacity(alloc, kinds.len())?;
    for (kind, table) in kinds.iter().zip(given) {
        tables.push(given_or(alloc, offset, *kind, table)?)?;
    }
    Ok(tables)
}

/// Each row as a memory's.
fn slots(alloc: Global, rows: &Rows) -> Result<Slots, AllocError>
    ensures { IfOk result (λ slots. slots ≡ map slot_of rows.now) }
{
    let mut slots = Vec::with_capacity(alloc, rows.len())?;
    for row in rows.as_slice() {
        slots.push(row.slot())?;
    }
    Ok(Slots::from_vec(slots))
}

/// The value of a latch or memory that a table is.
fn value(alloc: Global, sort: Sort, table: &Table) -> Result<Value, AllocError>
    ensures { IfOk result (λ v. v ≡ value_of_table sort table.now) }
{
    match sort {
        Sort::Memory => Ok(Value::Memory(Memory {
            default: table.default.word(),
            rows: slots(alloc, &table.rows)?,
        })),
        Sort::Bool | Sort::Word => Ok(Value::Scalar(table.default)),
    }
}

/// The values of the latches and memories.
fn state(alloc: Global, entries: &[Entry], tables: &[Table]) -> Result<State, AllocError>
    ensures { IfOk result (λ state. state
        ≡ map (λ p. value_of_table p.0.sort p.1) (zip entries.now tables.now)) }
{
    let mut state = Vec::with_capacity(alloc, entries.len())?;
    for (entry, table) in entries.iter().zip(tables) {
        state.push(value(alloc, entry.sort, table)?)?;
    }
    Ok(State::from_vec(state))
}

/// The value of an input in a cycle.
fn value_in(cycle: usize, table: &Table) -> Scalar
    ensures { result ≡ value_in cycle table.now }
{
    match table.rows.as_slice().get(cycle) {
        Some(row) => row.value,
        None => table.default,
    }
}

/// The values of the inputs in a cycle.
fn inputs(alloc: Global, cycle: usize, tables: &[Table]) -> Result<Inputs, AllocError>
    ensures { IfOk result (λ inputs. inputs ≡ map (value_in cycle) tables.now) }
{
    let mut inputs = Vec::with_capacity(alloc, tables.len())?;
    for table in tables {
        inputs.push(value_in(cycle, table))?;
    }
    Ok(Inputs::from_vec(inputs))
}

/// The values of the inputs in each of so many cycles.
fn input_lists(alloc: Global, cycles: u32, tables: &[Table]) -> Result<InputLists, AllocError>
    ensures { IfOk result (λ lists. lists ≡ inputs_from 0 cycles tables.now) }
{
    let mut lists = Vec::new(alloc);
    for cycle in 0..cycles {
        lists.push(inputs(alloc, cycle as usize, tables)?)?;
    }
    Ok(InputLists::from_vec(lists))
}

/// The trail of so many cycles that gives these tables.
pub fn trail_from(
    alloc: Global,
    design: &Design,
    cycles: u32,
    mut tables: Vec<Table>,
) -> Result<Trail, AllocError>
    requires { length (design_view design.now).symbols
        + length (design_view design.now).pipe.entries ≤ length tables.items }
    ensures { IfOk result (λ t. t ≡ trail_from (design_view design.now) cycles tables.items) }
{
    let entries = design.pipe.entries.as_slice();
    let symbols = design.symbols.len();
    let state = state(alloc, entries, &tables[symbols..])?;
    let inputs = input_lists(alloc, cycles, &tables[symbols + entries.len()..])?;
    tables.truncate(symbols);
    Ok(Trail {
        interp: Interp::from_vec(tables),
        state,
        inputs,
    })
}

/// The case of the first cycle.
pub fn case_of(alloc: Global, trail: Trail) -> Case
    ensures { result ≡ case_of trail }
{
    let Trail {
        interp,
        state,
        inputs,
    } = trail;
    let inputs = match inputs.into_vec().into_iter().next() {
        Some(inputs) => inputs,
        None => Inputs::new(alloc),
    };
    Case {
        interp,
        state,
        inputs,
    }
}

/// The value of a constant.
fn constant(interp: &Interp, f: u32) -> u64
    ensures { result ≡ scalar_word (table_of interp.now f).default }
{
    match interp.as_slice().get(f as usize) {
        Some(table) => table.default.word(),
        None => 0,
    }
}

/// Whether two constants of a group have equal values.
fn repeats(alloc: Global, interp: &Interp, group: &Places) -> Result<bool, AllocError>
    ensures { IfOk result (λ r. r ≡ repeats [] (constants interp.now group.now)) }
{
    let mut values = IndexSet::new(alloc);
    for f in group.as_slice() {
        if !values.insert(constant(interp, *f))? {
            return Ok(true);
        }
    }
    Ok(false)
}

/// The trail, where the constants of each group have different values.
pub fn distinct(
    alloc: Global,
    design: &Design,
    offset: usize,
    trail: Trail,
) -> Result<Trail, FormFault>
    ensures { Gives (λ t. t) result (distinct_form (design_view design.now).distinct offset trail) }
{
    for group in design.distinct.as_slice() {
        if repeats(alloc, &trail.interp, group)? {
            return Err(bad(offset, Code::NotDistinct));
        }
    }
    Ok(trail)
}
