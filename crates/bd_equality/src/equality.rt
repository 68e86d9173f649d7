//! Whether a truth value is the conjunction of the equations between two lists of words, pair by pair.
ghost use Rattle.std.specs.Prelude.{◌≡◌, ◌<◌, ◌==◌, ℕ, true, length};
ghost use Rattle.bd_model.specs.declared.table.Scalar.{Scalar as TheScalar};
ghost use Rattle.bd_terms.specs.Denotation.{truth, word};
ghost use Rattle.bd_function.specs.Flat.{under};
ghost use Rattle.bd_equality.specs.inner.Rows.{IsRestInside, RestFollows, RestIs, equal_words};

use bd_terms::{Graph, Id, Node};

/// What is left of a conjunction: a truth value, nothing, or what isn't as it should be.
#[derive(Clone, Copy)]
enum Rest {
    Term(Id),
    Nothing,
    Other,
}

/// Whether the truth value is that conjunction. A pair of one word and itself has no equation.
pub(crate) fn is_equality(graph: &Graph, id: Id, left: &[Id], right: &[Id]) -> bool
    requires inside { id < length graph.now }
    ensures { result ≡ true → (v : ℕ → TheScalar) → truth (under v) graph.now id
        ≡ equal_words graph.now v left.now right.now }
{
    if left.len() != right.len() {
        return false;
    }
    let mut rest = Rest::Term(id);
    for index in 0..left.len() {
        rest = rest_after(graph, rest, left[index], right[index]);
    }
    is_done(graph, rest)
}

/// Whether nothing is left.
fn is_done(graph: &Graph, rest: Rest) -> bool
    requires { IsRestInside graph.now rest }
    ensures { result ≡ true → (v : ℕ → TheScalar) → RestIs graph.now rest v true }
{
    match rest {
        Rest::Term(id) => is_true(graph, id),
        Rest::Nothing => true,
        Rest::Other => false,
    }
}

/// Whether a term is the constant true.
fn is_true(graph: &Graph, id: Id) -> bool
    requires { id < length graph.now }
    ensures { result ≡ true → (v : ℕ → TheScalar) → truth (under v) graph.now id ≡ true }
{
    match graph.node(id) {
        Node::True => true,
        _ => false,
    }
}

/// What is left after the equation of a pair.
fn rest_after(graph: &Graph, rest: Rest, a: Id, b: Id) -> Rest
    requires { IsRestInside graph.now rest }
    ensures inside { IsRestInside graph.now result }
    ensures follows { RestFollows graph.now rest a b result }
{
    if a == b {
        return rest;
    }
    match rest {
        Rest::Term(id) => rest_of(graph, id, a, b),
        Rest::Nothing => Rest::Other,
        Rest::Other => Rest::Other,
    }
}

/// What is left of a truth value after the equation of two different words.
fn rest_of(graph: &Graph, id: Id, a: Id, b: Id) -> Rest
    requires { id < length graph.now }
    ensures inside { IsRestInside graph.now result }
    ensures follows { RestFollows graph.now (Rest.Term id) a b result }
{
    match graph.node(id) {
        Node::And(first, rest) => {
            if is_equation(graph, *first, a, b) {
                Rest::Term(*rest)
            } else {
                Rest::Other
            }
        }
        _ => {
            if is_equation(graph, id, a, b) {
                Rest::Nothing
            } else {
                Rest::Other
            }
        }
    }
}

/// Whether a term is the equation of two words.
fn is_equation(graph: &Graph, id: Id, a: Id, b: Id) -> bool
    requires { id < length graph.now }
    ensures { result ≡ true → (v : ℕ → TheScalar) → truth (under v) graph.now id
        ≡ (word (under v) graph.now a == word (under v) graph.now b) }
{
    match graph.node(id) {
        Node::Eq(left, right) => *left == a && *right == b,
        _ => false,
    }
}
