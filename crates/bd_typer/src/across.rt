//! The faults across the two machine files. All stand in the specification.

ghost use Rattle.std.specs.Prelude.{◌≡◌, Bool, List, map, if◌then◌else◌};
ghost use Rattle.std.specs.List.{filter_map};
ghost use Rattle.bd_text.specs.declared.code.Code.TheVariants.{NotInPipeline, FunctionDiffers};
ghost use Rattle.bd_syntax.specs.Forms.{item_view};
ghost use Rattle.bd_syntax.specs.Reading.{Gives};
ghost use Rattle.bd_typer.specs.Across.{across_faults, agrees, differing_symbol, is_entry, is_symbol, missing_entry};
ghost use Rattle.bd_typer.specs.Faults.{first_of, refused_by, without_faults};
ghost use Rattle.bd_typer.specs.inner.Held.{meanings};
ghost use Rattle.bd_typer.specs.inner.Located.{fault_at, least_offset};

use crate::declarations::first_offset;
use crate::names::{Meaning, NameMap};
use bd_model::Sort;
use bd_syntax::{FormFault, Item, bad};
use bd_text::Code;

/// Whether a name is a latch or memory of this sort.
fn is_entry(sort: Sort, meaning: Option<Meaning>) -> bool
    ensures { result ≡ is_entry sort meaning }
{
    match meaning {
        Some(Meaning::Entry { sort: other, .. }) => other == sort,
        _ => false,
    }
}

/// Whether a name is a function or predicate.
fn is_symbol(meaning: Option<Meaning>) -> bool
    ensures { result ≡ is_symbol meaning }
{
    matches!(meaning, Some(Meaning::Symbol { .. }))
}

/// Whether a name isn't declared, or as a function or predicate of this arity.
fn agrees(wanted: u32, kind: bool, meaning: Option<Meaning>) -> bool
    ensures { result ≡ agrees wanted kind meaning }
{
    match meaning {
        Some(
            Meaning::Symbol {
                arity,
                predicate,
                ..
            },
        ) => arity == wanted && predicate == kind,
        Some(_) => false,
        None => true,
    }
}

/// The offset of a latch or memory that the pipeline doesn't have as the same kind with the same sort.
fn missing_entry(pipe: &NameMap<'_>, item: &Item) -> Option<usize>
    ensures { result ≡ missing_entry (meanings pipe.now) (item_view item.now) }
{
    let (name, sort) = match item {
        Item::Latch { name, sort, .. } => (name, *sort),
        Item::Memory { name, .. } => (name, Sort::Memory),
        _ => return None,
    };
    if is_entry(sort, pipe.get(name.text.as_slice())) {
        None
    } else {
        Some(name.offset)
    }
}

/// The offset of a name that one of the files declares as a function or predicate, and the other as anything but
/// that.
fn differing_symbol(pipe: &NameMap<'_>, item: &Item) -> Option<usize>
    ensures { result ≡ differing_symbol (meanings pipe.now) (item_view item.now) }
{
    let (name, same) = match item {
        Item::Latch { name, .. } | Item::Memory { name, .. } | Item::Let { name, .. } => {
            (name, !is_symbol(pipe.get(name.text.as_slice())))
        }
        Item::Function { name, arity, .. } => {
            (name, agrees(*arity, false, pipe.get(name.text.as_slice())))
        }
        Item::Predicate { name, arity, .. } => {
            (name, agrees(*arity, true, pipe.get(name.text.as_slice())))
        }
        _ => return None,
    };
    if same { None } else { Some(name.offset) }
}

/// The least offset of a missing entry.
fn first_missing(pipe: &NameMap<'_>, items: &[Item]) -> Option<usize>
    ensures { result ≡ least_offset
        (filter_map (missing_entry (meanings pipe.now)) (map item_view items.now)) }
{
    let mut first = None;
    for item in items {
        first = first_offset(first, missing_entry(pipe, item));
    }
    first
}

/// The least offset of a differing symbol.
fn first_differing(pipe: &NameMap<'_>, items: &[Item]) -> Option<usize>
    ensures { result ≡ least_offset
        (filter_map (differing_symbol (meanings pipe.now)) (map item_view items.now)) }
{
    let mut first = None;
    for item in items {
        first = first_offset(first, differing_symbol(pipe, item));
    }
    first
}

/// Refuses the specification at the least of these offsets, and there with the least code.
fn refuse(missing: Option<usize>, differing: Option<usize>) -> Result<(), FormFault>
    ensures { Gives (λ _. tt {0}) result (refused_by
        (first_of (fault_at NotInPipeline missing) (fault_at FunctionDiffers differing))) }
{
    let Some(offset) = first_offset(missing, differing) else {
        return Ok(());
    };
    let code = if missing == Some(offset) {
        Code::NotInPipeline
    } else {
        Code::FunctionDiffers
    };
    Err(bad(offset, code))
}

/// Tests the specification's declarations against the pipeline's.
pub fn test_across(pipe: &NameMap<'_>, items: &[Item]) -> Result<(), FormFault>
    ensures { Gives (λ _. tt {0}) result
        (without_faults (across_faults (meanings pipe.now) (map item_view items.now))) }
{
    refuse(first_missing(pipe, items), first_differing(pipe, items))
}
