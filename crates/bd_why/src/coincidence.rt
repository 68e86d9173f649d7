//! Constants that are the same word, where only that makes the difference.
ghost use Rattle.bd_model.specs.DesignView.{design_view};
ghost use Rattle.bd_model.specs.Lawful.{IsLawful};

use bd_model::{Case, Design, Judged, Scalar, Sequence, Symbol, Table};
use bd_sim::judge;
use std::alloc::{AllocError, Global};

/// The most pairs of constants that are tried.
const MOST_PAIRS: u32 = 200;

/// A word that no case has.
const FRESH: u64 = u64::MAX;

/// Two constants that are the same word.
#[derive(Clone, Copy)]
pub struct Coincidence {
    pub first: u32,
    pub second: u32,
    pub word: u64,
}

/// The first two constants that are the same word in a case, where it would hold if they weren't.
pub fn coincidence_of(
    alloc: Global,
    design: &Design,
    case: &Case,
) -> Result<Option<Coincidence>, AllocError>
    requires lawful { IsLawful (design_view design.now) }
{
    let pairs = pairs_of(alloc, design, case)?;
    for pair in pairs.iter() {
        if holds_with(alloc, design, case, pair.first)?
            || holds_with(alloc, design, case, pair.second)?
        {
            return Ok(Some(*pair));
        }
    }
    Ok(None)
}

/// The pairs of constants that are the same word.
fn pairs_of(alloc: Global, design: &Design, case: &Case) -> Result<Vec<Coincidence>, AllocError> {
    let mut pairs = Vec::new(alloc);
    let symbols = design.symbols.as_slice();
    let tables = case.interp.as_slice();
    for (first, word) in constants(alloc, symbols, tables)? {
        for (second, other) in constants(alloc, symbols, tables)? {
            if first < second && word == other && pairs.len() < MOST_PAIRS as usize {
                pairs.push(Coincidence {
                    first,
                    second,
                    word,
                })?;
            }
        }
    }
    Ok(pairs)
}

/// The constants, each with its word.
fn constants(
    alloc: Global,
    symbols: &[Symbol],
    tables: &[Table],
) -> Result<Vec<(u32, u64)>, AllocError> {
    let mut constants = Vec::new(alloc);
    for ((symbol, table), number) in symbols.iter().zip(tables).zip(0u32..u32::MAX) {
        if symbol.arity == 0 && !symbol.predicate {
            constants.push((number, table.at(&[]).word()))?;
        }
    }
    Ok(constants)
}

/// Whether a case holds in which a constant is a word that nothing else is.
fn holds_with(
    alloc: Global,
    design: &Design,
    case: &Case,
    constant: u32,
) -> Result<bool, AllocError>
    requires lawful { IsLawful (design_view design.now) }
{
    let changed = with_constant(alloc, case, constant)?;
    Ok(judge(alloc, design, &changed)? == Judged::Holds)
}

/// The case with a word that nothing else is for a constant.
fn with_constant(alloc: Global, case: &Case, constant: u32) -> Result<Case, AllocError> {
    let mut tables = Sequence::new(alloc);
    for (table, number) in case.interp.as_slice().iter().zip(0u32..u32::MAX) {
        tables.push(if number == constant {
            Table {
                default: Scalar::Word(FRESH),
                rows: Sequence::new(alloc),
            }
        } else {
            table.clone()?
        })?;
    }
    Ok(Case {
        interp: tables,
        state: case.state.clone()?,
        inputs: case.inputs.clone()?,
    })
}
