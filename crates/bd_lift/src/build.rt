//! The case that tables make. It starts as the case of no table, and takes the tables from the last one on, so that
//! the first one of a symbol counts.
ghost use Rattle.std.specs.Prelude.{◌≡◌, ◌≤◌, ◌<◌, ◌+◌, ◌*◌, ◌^◌, ℕ, false, List, [], map, length, slice_get, slice_set, IfOk, OnOk, Some};
ghost use Rattle.bd_model.specs.DesignView.{design_view};
ghost use Rattle.bd_model.specs.Fits.{result_sort};
ghost use Rattle.bd_model.specs.Value.{no_table, slot_of};
ghost use Rattle.bd_model.specs.declared.design.Symbol.{Symbol as TheSymbol};
ghost use Rattle.bd_model.specs.declared.design.Entry.{Entry as TheEntry};
ghost use Rattle.bd_model.specs.declared.design.Port.{Port as ThePort};
ghost use Rattle.bd_model.specs.declared.design.Sort.{Sort as TheSort};
ghost use Rattle.bd_model.specs.declared.table.Scalar.TheVariants as scalar;
ghost use Rattle.bd_symbolic.specs.States.{port_sorts};
ghost use Rattle.bd_symbolic.specs.Widened.{repeated, widened};
ghost use Rattle.bd_terms.specs.Denotation.{World};
ghost use Rattle.bd_function.specs.Tables.{world_of_tables};
ghost use Rattle.bd_lift.specs.inner.Built.{IsBuilt, entry_value, function_table, functions_of, scalar_as, state_of, with_table};

use crate::decode::own_number;
use bd_function::{FlatTables, SymTable};
use bd_model::{
    Case, Design, Entry, Inputs, Interp, Memory, Port, Rows, Scalar, Slots, Sort, State, Symbol,
    Table, Value,
};
use bd_terms::Sym;
use std::alloc::{AllocError, Global};

/// A case in the making.
#[derive(Drop)]
struct Building {
    interp: Vec<Table>,
    state: Vec<Value>,
    inputs: Vec<Scalar>,
}

/// The case of these tables, with inputs for each of the cycles, where as many classes as vertices are words.
pub(crate) fn case_of(
    alloc: Global,
    design: &Design,
    cycles: u32,
    vertices: &[u64],
    tables: FlatTables,
) -> Result<Case, AllocError>
    ensures { IfOk result (λ c.
        IsBuilt (widened (design_view design.now) cycles) (length vertices.now)
        (world_of_tables tables) c.interp c.state c.inputs) }
{
    let sorts = input_sorts(alloc, design.pipe.ports.as_slice(), cycles)?;
    let mut case = blank(alloc, design, &sorts, vertices)?;
    let mut rest = tables.into_vec();
    while let Some(table) = rest.pop() {
        place(alloc, design, &sorts, vertices, &mut case, table)?;
    }
    let Building {
        interp,
        state,
        inputs,
    } = case;
    Ok(Case {
        interp: Interp::from_vec(interp),
        state: State::from_vec(state),
        inputs: Inputs::from_vec(inputs),
    })
}

/// The sort of each input, once for each cycle.
fn input_sorts(alloc: Global, ports: &[Port], cycles: u32) -> Result<Vec<Sort>, AllocError>
    ensures { IfOk result (λ sorts.
        sorts.items ≡ repeated cycles (map (λ (p : ThePort). p.sort) ports.now)) }
{
    let mut sorts = Vec::new(alloc);
    for _ in 0..cycles {
        for port in ports {
            sorts.push(port.sort)?;
        }
    }
    Ok(sorts)
}

/// The case without any symbol's table, whose inputs have these sorts: each constant has a number of its own, all else
/// is 0 or false.
fn blank(
    alloc: Global,
    design: &Design,
    sorts: &[Sort],
    vertices: &[u64],
) -> Result<Building, AllocError>
    ensures { IfOk result (λ b. (cycles : ℕ) →
        sorts.now ≡ port_sorts (widened (design_view design.now) cycles).pipe →
        IsBuilt (widened (design_view design.now) cycles) (length vertices.now)
        (world_of_tables []) b.interp.items b.state.items b.inputs.items) }
{
    let interp = blank_interp(alloc, design.symbols.as_slice(), vertices)?;
    let state = blank_state(alloc, design.pipe.entries.as_slice())?;
    let inputs = blank_inputs(alloc, sorts)?;
    Ok(Building {
        interp,
        state,
        inputs,
    })
}

/// The tables of a case where no symbol has one yet: a constant has a number of its own, all else is 0 or false.
fn blank_interp(
    alloc: Global,
    symbols: &[Symbol],
    vertices: &[u64],
) -> Result<Vec<Table>, AllocError>
    ensures { IfOk result (λ tables.
        tables.items ≡ functions_of (length vertices.now) (world_of_tables []) symbols.now) }
{
    let mut tables = Vec::with_capacity(alloc, symbols.len())?;
    for (place, symbol) in symbols.iter().enumerate() {
        let table = function_table(alloc, vertices, place, symbol, blank_table(alloc))?;
        tables.push(table)?;
    }
    Ok(tables)
}

/// The values of entries where no symbol has a table yet: false, 0 or the memory of zeros.
fn blank_state(alloc: Global, entries: &[Entry]) -> Result<Vec<Value>, AllocError>
    ensures { IfOk result (λ values. values.items ≡ state_of (world_of_tables []) entries.now) }
{
    let mut values = Vec::with_capacity(alloc, entries.len())?;
    for entry in entries {
        let value = entry_value(alloc, entry.sort, &blank_table(alloc))?;
        values.push(value)?;
    }
    Ok(values)
}

/// The value of each input before it has one: false or 0.
fn blank_inputs(alloc: Global, sorts: &[Sort]) -> Result<Vec<Scalar>, AllocError>
    ensures { IfOk result (λ scalars.
        scalars.items ≡ map (λ s. scalar_as s (scalar.Bool false)) sorts.now) }
{
    let mut scalars = Vec::with_capacity(alloc, sorts.len())?;
    for sort in sorts {
        scalars.push(scalar_as(*sort, Scalar::Bool(false)))?;
    }
    Ok(scalars)
}

/// The table of a symbol that has none: false everywhere.
fn blank_table(alloc: Global) -> Table
    ensures { result ≡ no_table }
{
    Table {
        default: Scalar::Bool(false),
        rows: Rows::new(alloc),
    }
}

/// Puts a symbol's table where the case has it: as a function's, an entry's or an input's. Any other is dropped.
fn place(
    alloc: Global,
    design: &Design,
    sorts: &[Sort],
    vertices: &[u64],
    case: &mut Building,
    table: SymTable,
) -> Result<(), AllocError>
    requires { (cycles : ℕ) × (w : World) ×
        (sorts.now ≡ port_sorts (widened (design_view design.now) cycles).pipe) ×
        IsBuilt (widened (design_view design.now) cycles) (length vertices.now) w
        case.old.interp.items case.old.state.items case.old.inputs.items }
    ensures { OnOk result ((cycles : ℕ) (w : World) →
        sorts.now ≡ port_sorts (widened (design_view design.now) cycles).pipe →
        IsBuilt (widened (design_view design.now) cycles) (length vertices.now) w
        case.old.interp.items case.old.state.items case.old.inputs.items →
        IsBuilt (widened (design_view design.now) cycles) (length vertices.now)
        (with_table w table.sym table.table)
        case.new.interp.items case.new.state.items case.new.inputs.items) }
{
    let SymTable { sym, table } = table;
    match sym {
        Sym::Function(f) => {
            let symbols = design.symbols.as_slice();
            place_function(
                alloc,
                &mut case.interp,
                symbols,
                vertices,
                f as usize,
                table,
            )
        }
        Sym::Entry(i) => {
            let entries = design.pipe.entries.as_slice();
            place_entry(alloc, &mut case.state, entries, i as usize, &table)
        }
        Sym::Input(i) => {
            place_input(&mut case.inputs, sorts, i as usize, table.default);
            Ok(())
        }
        Sym::Address(_) | Sym::Var(_) => Ok(()),
    }
}

/// Gives a function of the design its table; a number past the last function changes nothing.
fn place_function(
    alloc: Global,
    interp: &mut Vec<Table>,
    symbols: &[Symbol],
    vertices: &[u64],
    f: usize,
    table: Table,
) -> Result<(), AllocError>
    requires { length interp.old.items ≡ length symbols.now }
    ensures there { OnOk result ((y : TheSymbol) → slice_get symbols.now f ≡ Some y →
        interp.new.items
        ≡ slice_set interp.old.items f (function_table (length vertices.now) f y table)) }
    ensures other { OnOk result (length symbols.now ≤ f → interp.new.items ≡ interp.old.items) }
{
    if f < symbols.len() {
        interp[f] = function_table(alloc, vertices, f, &symbols[f], table)?;
    }
    Ok(())
}

/// Gives an entry the value that its table shows; a number past the last entry changes nothing.
fn place_entry(
    alloc: Global,
    state: &mut Vec<Value>,
    entries: &[Entry],
    i: usize,
    table: &Table,
) -> Result<(), AllocError>
    requires { length state.old.items ≡ length entries.now }
    ensures there { OnOk result ((x : TheEntry) → slice_get entries.now i ≡ Some x →
        state.new.items ≡ slice_set state.old.items i (entry_value x.sort table.now)) }
    ensures other { OnOk result (length entries.now ≤ i → state.new.items ≡ state.old.items) }
{
    if i < entries.len() {
        state[i] = entry_value(alloc, entries[i].sort, table)?;
    }
    Ok(())
}

/// Gives an input its value, as one of its sort; a number past the last input changes nothing.
fn place_input(inputs: &mut Vec<Scalar>, sorts: &[Sort], i: usize, value: Scalar)
    requires { length inputs.old.items ≡ length sorts.now }
    ensures there { (s : TheSort) → slice_get sorts.now i ≡ Some s →
        inputs.new.items ≡ slice_set inputs.old.items i (scalar_as s value) }
    ensures other { length sorts.now ≤ i → inputs.new.items ≡ inputs.old.items }
{
    if i < sorts.len() {
        inputs[i] = scalar_as(sorts[i], value);
    }
}

/// A function's table. A constant has no rows, and one without a variable a number of its own.
fn function_table(
    alloc: Global,
    vertices: &[u64],
    f: usize,
    symbol: &Symbol,
    table: Table,
) -> Result<Table, AllocError>
    requires { f < 2 ^ 60 }
    ensures { IfOk result (λ t. t ≡ function_table (length vertices.now) f symbol.now table) }
{
    let Table { default, rows } = table;
    let default = if rows.is_empty() && symbol.arity == 0 && !symbol.predicate {
        Scalar::Word(constant_number(vertices, f))
    } else {
        scalar_as(result_sort(symbol), default)
    };
    let rows = if symbol.arity == 0 {
        Rows::new(alloc)
    } else {
        rows
    };
    Ok(Table { default, rows })
}

/// The number of its own for a constant without a variable: at an odd place past the classes; variables have even ones.
fn constant_number(vertices: &[u64], f: usize) -> u64
    requires { f < 2 ^ 60 }
    ensures { result ≡ length vertices.now + 2 * f + 1 }
{
    own_number(vertices, f as u64) + 1
}

/// The sort of a symbol's applications.
fn result_sort(symbol: &Symbol) -> Sort
    ensures { result ≡ result_sort symbol.now }
{
    if symbol.predicate {
        Sort::Bool
    } else {
        Sort::Word
    }
}

/// What an entry first holds: a memory has a row for each row of its table.
fn entry_value(alloc: Global, sort: Sort, table: &Table) -> Result<Value, AllocError>
    ensures { IfOk result (λ v. v ≡ entry_value sort table.now) }
{
    match sort {
        Sort::Memory => {
            let mut slots = Vec::with_capacity(alloc, table.rows.len())?;
            for row in table.rows.as_slice() {
                slots.push(row.slot())?;
            }
            Ok(Value::Memory(Memory {
                default: table.default.word(),
                rows: Slots::from_vec(slots),
            }))
        }
        _ => Ok(Value::Scalar(scalar_as(sort, table.default))),
    }
}

/// The scalar as one of the sort: a truth value counts as 0, and a word as false.
fn scalar_as(sort: Sort, scalar: Scalar) -> Scalar
    ensures { result ≡ scalar_as sort scalar }
{
    match sort {
        Sort::Word => Scalar::Word(scalar.word()),
        _ => Scalar::Bool(scalar.truth()),
    }
}
