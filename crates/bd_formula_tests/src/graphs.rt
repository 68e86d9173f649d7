//! Graphs of terms as texts. The terms are parted by commas, and each names its parts by their places: `F 0 1` is the
//! first function of the second term, `F? 0 1` that predicate of it; `E`, `I`, `A` and `V` are entries, inputs,
//! addresses and variables.
ghost use Rattle.std.specs.Prelude.{◌<◌, IsTrue, length};
ghost use Rattle.std.specs.List.{All};
ghost use Rattle.bd_model.specs.declared.design.Sort.TheVariants as sort;
ghost use Rattle.bd_terms.specs.Graph.{HasSort};
ghost use Rattle.bd_function.specs.Flat.{ReachesNoMemory};

use crate::numbers::{number, numbers};
use bd_model::Sort;
use bd_terms::{Graph, Id, Node, Sym};
use std::alloc::AllocError;
use std::process::Abort;

/// Whether the graph has a term of this name and sort.
pub(crate) fn has(graph: &Graph, id: Id, sort: Sort) -> bool
    ensures { IsTrue result → HasSort graph.now id sort }
{
    id.index() < graph.len() && graph.sort(id) == sort
}

/// Whether the graph has a word for each of these names.
fn are_words(graph: &Graph, ids: &[Id]) -> bool
    ensures { IsTrue result → All (λ id. HasSort graph.now id sort.Word) ids.now }
{
    ids.iter().all(|id| has(graph, *id, Sort::Word))
}

/// Whether no term of the graph is a memory.
pub(crate) fn has_no_memory(graph: &Graph, root: Id) -> bool
    requires { root < length graph.now }
    ensures { IsTrue result → ReachesNoMemory graph.now root }
{
    for index in 0..graph.len() {
        if graph.sort(graph.id(index)) == Sort::Memory {
            return false;
        }
    }
    true
}

/// The term that is named at the place in the list, which has the sort.
fn part(rt: &impl Abort, graph: &Graph, ids: &[Id], place: usize, sort: Sort) -> Id
    ensures { HasSort graph.now result sort }
{
    assert!(rt; place < ids.len());
    let id = ids[place];
    assert!(rt; has(graph, id, sort));
    id
}

/// The terms that stand at these places.
fn parts(rt: &(impl Abort + AllocGlobal), ids: &[Id], places: &[u32]) -> Vec<Id> {
    let mut found = Vec::new(rt.alloc());
    for place in places {
        let place = *place as usize;
        assert!(rt; place < ids.len());
        found.push(ids[place]).expect(rt, "memory");
    }
    found
}

/// The symbol of a letter and a number.
fn symbol(letter: u8, number: u32) -> Sym {
    match letter {
        b'F' => Sym::Function(number),
        b'E' => Sym::Entry(number),
        b'I' => Sym::Input(number),
        b'A' => Sym::Address(number),
        _ => Sym::Var(u64::from(number)),
    }
}

/// The symbol of a text, as `F 0`.
pub(crate) fn symbol_of(text: &str) -> Sym {
    let (letter, rest) = text.split_once(' ').unwrap_or((text, ""));
    symbol(first_byte(letter), number(rest))
}

/// The first byte of a text, and a space where there is none.
fn first_byte(text: &str) -> u8 {
    text.as_bytes().first().copied().unwrap_or(b' ')
}

/// An application as a word.
fn build_app(rt: &impl Abort, graph: &mut Graph, sym: Sym, args: &[Id]) -> Result<Id, AllocError> {
    assert!(rt; are_words(graph, args) && graph.keeps_symbol(sym, args.len(), Sort::Word));
    graph.mk_app(sym, args)
}

/// An application as a truth value.
fn build_pred(rt: &impl Abort, graph: &mut Graph, sym: Sym, args: &[Id]) -> Result<Id, AllocError> {
    assert!(rt; are_words(graph, args) && graph.keeps_symbol(sym, args.len(), Sort::Bool));
    graph.mk_pred(sym, args)
}

/// The first contents of an entry.
fn build_init(rt: &impl Abort, graph: &mut Graph, entry: u32) -> Result<Id, AllocError> {
    assert!(rt; graph.keeps_symbol(Sym::Entry(entry), 1, Sort::Word));
    graph.mk_init(entry)
}

/// A choice between two terms of one sort.
fn build_ite(rt: &impl Abort, graph: &mut Graph, ids: &[Id]) -> Result<Id, AllocError> {
    assert!(rt; ids.len() > 1 && ids[1].index() < graph.len());
    let sort = graph.sort(ids[1]);
    let control = part(rt, graph, ids, 0, Sort::Bool);
    let yes = part(rt, graph, ids, 1, sort);
    let no = part(rt, graph, ids, 2, sort);
    graph.mk_ite(control, yes, no)
}

/// A term over words or memories.
fn build_term(rt: &impl Abort, graph: &mut Graph, op: &str, ids: &[Id]) -> Result<Id, AllocError> {
    if op == "=" {
        let a = part(rt, graph, ids, 0, Sort::Word);
        let b = part(rt, graph, ids, 1, Sort::Word);
        return graph.mk_eq(a, b);
    }
    let mem = part(rt, graph, ids, 0, Sort::Memory);
    let addr = part(rt, graph, ids, 1, Sort::Word);
    if op == "read" {
        return graph.mk_read(mem, addr);
    }
    let word = part(rt, graph, ids, 2, Sort::Word);
    graph.mk_write(mem, addr, word)
}

/// A term over truth values, or over others.
fn build_over(rt: &impl Abort, graph: &mut Graph, op: &str, ids: &[Id]) -> Result<Id, AllocError> {
    if op == "ite" {
        return build_ite(rt, graph, ids);
    }
    if op != "not" && op != "and" && op != "or" {
        return build_term(rt, graph, op, ids);
    }
    let a = part(rt, graph, ids, 0, Sort::Bool);
    if op == "not" {
        return graph.mk_not(a);
    }
    let b = part(rt, graph, ids, 1, Sort::Bool);
    if op == "and" {
        graph.mk_and(a, b)
    } else {
        graph.mk_or(a, b)
    }
}

/// A term that names a symbol by this letter and a number.
fn build_use(
    rt: &(impl Abort + AllocGlobal),
    graph: &mut Graph,
    op: &str,
    letter: u8,
    ids: &[Id],
    numbers: &[u32],
) -> Result<Id, AllocError> {
    let (number, places) = match numbers.split_first() {
        Some((number, places)) => (*number, places),
        None => (0, numbers),
    };
    let args = parts(rt, ids, places);
    let sym = symbol(letter, number);
    if op.ends_with('?') {
        build_pred(rt, graph, sym, &args)
    } else {
        build_app(rt, graph, sym, &args)
    }
}

/// A term that names its parts by these numbers.
fn build_of(
    rt: &(impl Abort + AllocGlobal),
    graph: &mut Graph,
    ids: &[Id],
    op: &str,
    numbers: &[u32],
) -> Result<Id, AllocError> {
    let parts = parts(rt, ids, numbers);
    build_over(rt, graph, op, &parts)
}

/// The term of an operation and its numbers, over the terms so far.
fn build_with(
    rt: &(impl Abort + AllocGlobal),
    graph: &mut Graph,
    ids: &[Id],
    op: &str,
    numbers: &[u32],
) -> Result<Id, AllocError> {
    let letter = first_byte(op);
    if letter.is_ascii_uppercase() {
        build_use(rt, graph, op, letter, ids, numbers)
    } else if op == "true" {
        graph.mk_true()
    } else if op == "init" {
        build_init(rt, graph, numbers.first().copied().unwrap_or(0))
    } else {
        build_of(rt, graph, ids, op, numbers)
    }
}

/// The term of a text, over those so far.
fn build(rt: &(impl Abort + AllocGlobal), graph: &mut Graph, ids: &[Id], term: &str) -> Id {
    let (op, rest) = term.split_once(' ').unwrap_or((term, ""));
    let numbers = numbers(rt, rest);
    build_with(rt, graph, ids, op, &numbers).expect(rt, "memory")
}

/// Builds the terms of the text in order, and answers with the last.
pub(crate) fn build_all(rt: &(impl Abort + AllocGlobal), graph: &mut Graph, text: &str) -> Id {
    let mut ids = Vec::new(rt.alloc());
    let mut last = Id::default();
    for term in text.split(", ") {
        last = build(rt, graph, &ids, term);
        ids.push(last).expect(rt, "memory");
    }
    last
}

/// The letter and the number of a symbol.
fn letter_of(sym: Sym) -> (&'static str, u64) {
    match sym {
        Sym::Function(n) => ("F", u64::from(n)),
        Sym::Entry(n) => ("E", u64::from(n)),
        Sym::Input(n) => ("I", u64::from(n)),
        Sym::Address(n) => ("A", u64::from(n)),
        Sym::Var(n) => ("V", n),
    }
}

/// Adds a term of an operation and its parts.
fn push_over(text: &mut String, op: &str, ids: &[Id]) -> Result<(), AllocError> {
    text.push_str(op)?;
    for id in ids {
        let place = id.index();
        write!(text, " {place}")?;
    }
    Ok(())
}

/// Adds an application of a symbol, with this mark after its letter.
fn push_use(text: &mut String, sym: Sym, mark: &str, args: &[Id]) -> Result<(), AllocError> {
    let (letter, number) = letter_of(sym);
    write!(text, "{letter}{mark} {number}")?;
    push_over(text, "", args)
}

/// Adds a term.
fn push_node(text: &mut String, node: &Node) -> Result<(), AllocError> {
    match node {
        Node::True => text.push_str("true"),
        Node::Not(a) => push_over(text, "not", &[*a]),
        Node::And(a, b) => push_over(text, "and", &[*a, *b]),
        Node::Or(a, b) => push_over(text, "or", &[*a, *b]),
        Node::Ite(c, a, b) => push_over(text, "ite", &[*c, *a, *b]),
        Node::Eq(a, b) => push_over(text, "=", &[*a, *b]),
        Node::App(sym, args) => push_use(text, *sym, "", args.as_slice()),
        Node::Pred(sym, args) => push_use(text, *sym, "?", args.as_slice()),
        Node::Read(m, a) => push_over(text, "read", &[*m, *a]),
        Node::Write(m, a, d) => push_over(text, "write", &[*m, *a, *d]),
        Node::Init(entry) => write!(text, "init {entry}"),
    }
}

/// Adds the terms of the graph, as `build_all` reads them, and a comma and a space after each.
fn push_graph(text: &mut String, graph: &Graph) -> Result<(), AllocError> {
    for index in 0..graph.len() {
        push_node(text, graph.node(graph.id(index)))?;
        text.push_str(", ")?;
    }
    Ok(())
}

/// Whether the terms of the graph have this text.
pub(crate) fn is_shown(rt: &(impl Abort + AllocGlobal), graph: &Graph, want: &str) -> bool {
    let mut text = String::new(rt.alloc());
    push_graph(&mut text, graph).expect(rt, "memory");
    text.as_str().strip_suffix(", ").unwrap_or("") == want
}
