//! Reading one line: its tokens from left to right.
ghost use Rattle.std.specs.Prelude.{◌≡◌, [], not, IfOk};
ghost use Rattle.bd_cnf.specs.Clause.{IsTautology};
ghost use Rattle.bd_proof_text.specs.ProofText.{Gives, addition, clause_from, deletion, ended, from_id, hint_word, hints_from, id_word, ids_from, literal_word, literals_from};
ghost use Rattle.bd_proof_text.specs.inner.Signs.{is_sign};
ghost use Rattle.bd_proof_text.specs.inner.Words.{IsCounted, IsEnd};

use crate::fault::{ReadFault, Why, bad};
use crate::token::{Place, Token, Tokens, Word};
use bd_cnf::{Clause, Lit};
use bd_lrat::{ClauseIds, Hint, Hints, Line};
use indexmap::IndexMap;
use std::alloc::Global;

/// The line of a first token and those after it.
pub(crate) fn read_line(
    alloc: Global,
    first: Token,
    tokens: &mut Tokens<'_>,
) -> Result<Line, ReadFault>
    ensures { Gives (λ line. line) result (from_id first tokens.old) }
{
    let Word::Positive(id) = first.word else {
        return Err(bad(first.place, Why::Number));
    };
    if tokens.skip_delete() {
        read_deletion(alloc, first.place, id, tokens)
    } else {
        read_addition(alloc, first.place, id, tokens)
    }
}

/// The addition of an id with the literals and the hints that follow it, each up to a `0`.
fn read_addition(
    alloc: Global,
    first: Place,
    id: u64,
    tokens: &mut Tokens<'_>,
) -> Result<Line, ReadFault>
    ensures { Gives (λ line. line) result (addition first id tokens.old) }
{
    let clause = read_clause(alloc, first, tokens)?;
    let hints = read_hints(alloc, first, tokens)?;
    end(tokens)?;
    Ok(Line::Add { id, clause, hints })
}

/// The deletion of the ids that follow a `d` up to a `0`.
fn read_deletion(
    alloc: Global,
    first: Place,
    id: u64,
    tokens: &mut Tokens<'_>,
) -> Result<Line, ReadFault>
    ensures { Gives (λ line. line) result (deletion first id tokens.old) }
{
    let ids = read_ids(alloc, first, tokens)?;
    end(tokens)?;
    Ok(Line::Delete { id, ids })
}

/// No token may come after the `0` that ends a line.
fn end(tokens: &mut Tokens<'_>) -> Result<(), ReadFault>
    ensures { IsEnd result tokens.old }
{
    match tokens.next_token() {
        Some(token) => Err(bad(token.place, Why::Form)),
        None => Ok(()),
    }
}

/// The clause of the literals up to a `0`.
fn read_clause(alloc: Global, first: Place, tokens: &mut Tokens<'_>) -> Result<Clause, ReadFault>
    ensures { Gives (λ clause. (clause, tokens.new)) result (clause_from first tokens.old) }
{
    let lits = read_literals(alloc, first, tokens)?;
    match Clause::from_vec(lits) {
        Some(clause) => Ok(clause),
        None => unreachable!(),
    }
}

/// The literals up to a `0`, in the order of the text and with repeats. The sign of each variable is kept in a map, so
/// that a literal whose negation came before is found at once, however many there are.
fn read_literals(
    alloc: Global,
    first: Place,
    tokens: &mut Tokens<'_>,
) -> Result<Vec<Lit>, ReadFault>
    ensures read { Gives (λ lits. (lits.items, tokens.new)) result
        (literals_from first [] tokens.old) }
    ensures apart { IfOk result (λ lits. ¬ IsTautology lits.items) }
{
    let mut lits = Vec::new(alloc);
    let mut signs = IndexMap::new(alloc);
    while let Some(token) = tokens.next_token() {
        let Some(lit) = literal_of(token)? else {
            return Ok(lits);
        };
        let earlier = signs.insert(lit.var(), lit.is_positive())?;
        if clashes(earlier, lit.is_positive()) {
            return Err(bad(token.place, Why::Form));
        }
        lits.push(lit)?;
    }
    Err(bad(first, Why::Form))
}

/// Whether a variable had the other sign before.
fn clashes(earlier: Option<bool>, positive: bool) -> bool
    ensures { result ≡ is_sign earlier (not positive) }
{
    earlier == Some(!positive)
}

/// The hints up to a `0`.
fn read_hints(alloc: Global, first: Place, tokens: &mut Tokens<'_>) -> Result<Hints, ReadFault>
    ensures { Gives (λ hints. (hints, tokens.new)) result (hints_from first [] tokens.old) }
{
    let mut hints = Hints::new(alloc);
    while let Some(token) = tokens.next_token() {
        let Some(hint) = hint_of(token)? else {
            return Ok(hints);
        };
        hints.push(hint)?;
    }
    Err(bad(first, Why::Form))
}

/// The ids up to a `0`.
fn read_ids(alloc: Global, first: Place, tokens: &mut Tokens<'_>) -> Result<ClauseIds, ReadFault>
    ensures { Gives (λ ids. (ids, tokens.new)) result (ids_from first [] tokens.old) }
{
    let mut ids = ClauseIds::new(alloc);
    while let Some(token) = tokens.next_token() {
        let Some(id) = id_of(token)? else {
            return Ok(ids);
        };
        ids.push(id)?;
    }
    Err(bad(first, Why::Form))
}

/// The literal of a token, or none at the `0` that ends the literals.
fn literal_of(token: Token) -> Result<Option<Lit>, ReadFault>
    requires { IsCounted token.word }
    ensures { Gives (λ found. found) result (literal_word token.place token.word) }
{
    match token.word {
        Word::Zero => Ok(None),
        Word::Positive(var) => Ok(Some(Lit::new(var, true))),
        Word::Negative(var) => Ok(Some(Lit::new(var, false))),
        Word::Delete | Word::Other => Err(bad(token.place, Why::Number)),
    }
}

/// The hint of a token, or none at the `0` that ends the hints.
fn hint_of(token: Token) -> Result<Option<Hint>, ReadFault>
    ensures { Gives (λ found. found) result (hint_word token.place token.word) }
{
    match token.word {
        Word::Zero => Ok(None),
        Word::Positive(id) => Ok(Some(Hint::Unit(id))),
        Word::Negative(id) => Ok(Some(Hint::Rat(id))),
        Word::Delete | Word::Other => Err(bad(token.place, Why::Number)),
    }
}

/// The id of a token, or none at the `0` that ends the ids; no id is negative.
fn id_of(token: Token) -> Result<Option<u64>, ReadFault>
    ensures { Gives (λ found. found) result (id_word token.place token.word) }
{
    match token.word {
        Word::Zero => Ok(None),
        Word::Positive(id) => Ok(Some(id)),
        _ => Err(bad(token.place, Why::Number)),
    }
}
