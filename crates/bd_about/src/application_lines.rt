//! What is counted of functions and predicates, as lines that a designer reads.
ghost use Rattle.std.specs.Prelude.{◌≡◌, ◌++◌, [], codes, length, OnOk};
ghost use Rattle.bd_model.specs.DesignView.{design_view};
ghost use Rattle.bd_about.specs.ApplicationLines.{application_lines, count_lines, count_of, is_said, said, said_line};
ghost use Rattle.bd_about.specs.PartLines.{comma, listed_names};

use crate::compared_lines::push_compared;
use crate::counting::{Applications, Applied};
use crate::part_lines::{push_count, push_name};
use bd_model::{Design, Symbol};
use std::alloc::AllocError;

/// Which functions and predicates a line names.
#[derive(Clone, Copy)]
pub(crate) enum Listing {
    /// Those that are applied, each with how often.
    Applied,
    /// Those that have equations, each with how many.
    Equations,
    /// Those whose equations stand in clauses, each with in how many.
    Clauses,
    /// The functions that are applied and aren't positive.
    NotPositive,
}

/// The count that the line says of a symbol.
fn count_of(listing: Listing, applied: Applied) -> usize
    ensures { result ≡ count_of listing applied }
{
    match listing {
        Listing::Equations => applied.equations,
        Listing::Clauses => applied.clauses,
        Listing::Applied | Listing::NotPositive => applied.count,
    }
}

/// Whether the line names a symbol, which is a predicate or a function.
fn is_said(listing: Listing, predicate: bool, applied: Applied) -> bool
    ensures { result ≡ is_said listing predicate applied }
{
    match listing {
        Listing::NotPositive => applied.count != 0 && !predicate && !applied.positive,
        _ => count_of(listing, applied) != 0,
    }
}

/// Puts what the line says of a symbol, after a comma where it isn't the first.
fn push_said(
    out: &mut Vec<u8>,
    listing: Listing,
    first: bool,
    name: &[u8],
    count: usize,
) -> Result<(), AllocError>
    ensures { OnOk result (out.new.items
        ≡ out.old.items ++ (comma first ++ said listing name.now count)) }
{
    push_name(out, first, name)?;
    match listing {
        Listing::NotPositive => Ok(()),
        _ => push_count(out, " ", count),
    }
}

/// Ends a line of names, which has none yet or some.
fn end_names(out: &mut Vec<u8>, none: bool) -> Result<(), AllocError>
    ensures { OnOk result (out.new.items
        ≡ out.old.items ++ (listed_names none [] ++ codes "\n")) }
{
    if none {
        out.extend_from_slice(b"nothing")?;
    }
    out.extend_from_slice(b"\n")
}

/// Puts what the line says of each symbol that it names, and ends it.
fn push_line(
    out: &mut Vec<u8>,
    listing: Listing,
    symbols: &[Symbol],
    counts: &[Applied],
) -> Result<(), AllocError>
    requires { length counts.now ≡ length symbols.now }
    ensures { OnOk result (out.new.items
        ≡ out.old.items ++ said_line listing symbols.now counts.now) }
{
    let mut none = true;
    for (place, symbol) in symbols.iter().enumerate() {
        let applied = counts[place];
        if is_said(listing, symbol.predicate, applied) {
            let count = count_of(listing, applied);
            push_said(out, listing, none, symbol.name.as_slice(), count)?;
            none = false;
        }
    }
    end_names(out, none)
}

/// Puts the lines on how often functions and predicates are applied, on their equations and clauses, and on which
/// functions aren't positive, after a text.
fn push_counts(out: &mut Vec<u8>, symbols: &[Symbol], applied: &[Applied]) -> Result<(), AllocError>
    requires { length applied.now ≡ length symbols.now }
    ensures { OnOk result (out.new.items
        ≡ out.old.items ++ count_lines symbols.now applied.now) }
{
    out.extend_from_slice(b"applications     ")?;
    push_line(out, Listing::Applied, symbols, applied)?;
    out.extend_from_slice(b"equations        ")?;
    push_line(out, Listing::Equations, symbols, applied)?;
    out.extend_from_slice(b"clauses          ")?;
    push_line(out, Listing::Clauses, symbols, applied)?;
    out.extend_from_slice(b"not positive     ")?;
    push_line(out, Listing::NotPositive, symbols, applied)
}

/// Puts the lines on what is counted of functions and predicates, and on what each is compared with, after a text.
pub fn push_applications(
    out: &mut Vec<u8>,
    design: &Design,
    applications: &Applications,
) -> Result<(), AllocError>
    requires applied { length applications.now.applied ≡ length (design_view design.now).symbols }
    requires compared { length applications.now.compared
        ≡ length (design_view design.now).symbols }
    ensures { OnOk result (out.new.items
        ≡ out.old.items ++ application_lines (design_view design.now) applications.now) }
{
    let applied = applications.applied.as_slice();
    push_counts(out, design.symbols.as_slice(), applied)?;
    push_compared(out, design, applications.compared.as_slice())
}
