//! Whether a case is one of a design.
//!
//! Each list is compared with the design's place by place, once their lengths are equal. Constants that are kept apart
//! are tables without rows, so their values are their defaults; each is compared with those before it in its group.
ghost use Rattle.std.specs.Prelude.{◌≡◌, ◌≢◌, ◌↔◌, IsTrue, length, All, AllPairs, []};
ghost use Rattle.std.specs.List.{AllZip, AllByRecursion};
ghost use Rattle.bd_model.specs.DesignView.{design_view};
ghost use Rattle.bd_model.specs.Fits.{result_sort, RowFits, TableFits, DefaultsDiffer, KeepsApart, InterpFits, ValuesFit, StateFits, InputsFit, Fits, scalar_sort};
ghost use Rattle.bd_model.specs.Value.{table_of};

use crate::case::{Case, Inputs, Interp, State};
use crate::design::{Design, Entry, Places, Port, Sort, Symbol};
use crate::table::{Row, Scalar, Table, Value};

impl Symbol {
    /// The sort of a symbol's applications.
    pub fn result_sort(&self) -> Sort
        ensures { result ≡ result_sort self.now }
    {
        if self.predicate {
            Sort::Bool
        } else {
            Sort::Word
        }
    }

    /// Whether a row has as many arguments as the symbol, and a value of the symbol's sort.
    fn fits_row(&self, row: &Row) -> bool
        ensures { IsTrue result ↔ RowFits self.now row.now }
    {
        row.args.len() == self.arity as usize && row.value.sort() == self.result_sort()
    }

    /// Whether each row has as many arguments as the symbol, and a value of the symbol's sort.
    fn fits_rows(&self, rows: &[Row]) -> bool
        ensures { IsTrue result ↔ AllByRecursion (RowFits self.now) rows.now }
    {
        rows.iter().all(|row| self.fits_row(row))
    }

    /// Whether a table is one of the symbol's: its default and each row fit.
    fn fits_table(&self, table: &Table) -> bool
        ensures { IsTrue result ↔ TableFits self.now table.now }
    {
        table.default.sort() == self.result_sort() && self.fits_rows(table.rows.as_slice())
    }
}

impl Design {
    /// Whether every list of the case has the design's length, every value and row has the declared sort and
    /// arity, and the constants that are kept apart have no rows and different values.
    pub fn fits(&self, case: &Case) -> bool
        ensures { IsTrue result ↔ Fits (design_view self.now) case.now }
    {
        self.interp_fits(&case.interp)
            && self.state_fits(&case.state)
            && self.inputs_fit(&case.inputs)
    }

    /// Whether a state has a value of the declared sort for each entry of the pipeline.
    fn state_fits(&self, state: &State) -> bool
        ensures { IsTrue result ↔ StateFits (design_view self.now) state.now }
    {
        values_fit(self.pipe.entries.as_slice(), state.as_slice())
    }

    /// Whether there is a value of the declared sort for each input of the pipeline.
    fn inputs_fit(&self, inputs: &Inputs) -> bool
        ensures { IsTrue result ↔ InputsFit (design_view self.now) inputs.now }
    {
        scalars_fit(self.pipe.ports.as_slice(), inputs.as_slice())
    }

    /// Whether there is a table that fits for each symbol, and the constants that are kept apart differ.
    fn interp_fits(&self, interp: &Interp) -> bool
        ensures { IsTrue result ↔ InterpFits (design_view self.now) interp.now }
    {
        tables_fit(self.symbols.as_slice(), interp.as_slice()) && self.keeps_apart(interp)
    }

    /// Whether in each group of constants that are kept apart none has rows and all differ.
    fn keeps_apart(&self, interp: &Interp) -> bool
        ensures { IsTrue result ↔ AllByRecursion (KeepsApart interp.now) self.now.distinct }
    {
        self.distinct
            .as_slice()
            .iter()
            .all(|group| group_differs(interp, group))
    }
}

/// Whether there is a table that fits for each symbol, in order.
fn tables_fit(symbols: &[Symbol], tables: &[Table]) -> bool
    ensures { IsTrue result ↔ AllZip TableFits symbols.now tables.now }
{
    if symbols.len() != tables.len() {
        return false;
    }
    for (symbol, table) in symbols.iter().zip(tables) {
        if !symbol.fits_table(table) {
            return false;
        }
    }
    true
}

/// Whether there is a value of the declared sort for each entry, in order.
fn values_fit(entries: &[Entry], values: &[Value]) -> bool
    ensures { IsTrue result ↔ ValuesFit entries.now values.now }
{
    if entries.len() != values.len() {
        return false;
    }
    for (entry, value) in entries.iter().zip(values) {
        if value.sort() != entry.sort {
            return false;
        }
    }
    true
}

/// Whether there is a value of the declared sort for each input, in order.
fn scalars_fit(ports: &[Port], scalars: &[Scalar]) -> bool
    ensures { IsTrue result ↔ AllZip (λ p x. scalar_sort x ≡ p.sort) ports.now scalars.now }
{
    if ports.len() != scalars.len() {
        return false;
    }
    for (port, scalar) in ports.iter().zip(scalars) {
        if scalar.sort() != port.sort {
            return false;
        }
    }
    true
}

/// Whether no constant of the group has rows, and all have different values.
fn group_differs(interp: &Interp, group: &Places) -> bool
    ensures { IsTrue result ↔ KeepsApart interp.now group.now }
{
    let constants = group.as_slice();
    constants.iter().all(|f| has_no_rows(interp, *f)) && defaults_differ(interp, constants)
}

/// Whether these constants have different values.
fn defaults_differ(interp: &Interp, constants: &[u32]) -> bool
    ensures { IsTrue result ↔ AllPairs (DefaultsDiffer interp.now) constants.now }
{
    for (i, f) in constants.iter().enumerate() {
        if !differs(interp, default_of(interp, *f), &constants[..i]) {
            return false;
        }
    }
    true
}

/// Whether a value is that of none of these constants.
fn differs(interp: &Interp, value: Scalar, constants: &[u32]) -> bool
    ensures { IsTrue result ↔ All (λ f. (table_of interp.now f).default ≢ value) constants.now }
{
    constants.iter().all(|f| default_of(interp, *f) != value)
}

/// Whether the symbol's table has no rows; a symbol without a table has none.
fn has_no_rows(interp: &Interp, f: u32) -> bool
    ensures { IsTrue result ↔ ((table_of interp.now f).rows ≡ []) }
{
    match interp.as_slice().get(f as usize) {
        Some(table) => table.rows.is_empty(),
        None => true,
    }
}

/// The default of the symbol's table, or false where it has none.
fn default_of(interp: &Interp, f: u32) -> Scalar
    ensures { result ≡ (table_of interp.now f).default }
{
    match interp.as_slice().get(f as usize) {
        Some(table) => table.default,
        None => Scalar::Bool(false),
    }
}
