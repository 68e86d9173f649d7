//! Each application becomes a variable where no earlier one of its symbol has equal arguments, and else the earlier
//! one's variable. One pass in rising order takes arguments before the applications of them, so it needs no
//! recursion.
ghost use Rattle.std.specs.Prelude.{◌≡◌, ◌<◌, ◌∷◌, ℕ, [], true, length, map, IfOk, OnOk};
ghost use Rattle.std.specs.List.{All};
ghost use Rattle.bd_model.specs.Table.{at};
ghost use Rattle.bd_model.specs.declared.table.Scalar.{Scalar};
ghost use Rattle.bd_model.specs.declared.design.Sort.TheVariants as kind;
ghost use Rattle.bd_terms.specs.declared.node.Sym.TheVariants as symbol;
ghost use Rattle.bd_terms.specs.Graph.{AddsUses, Extends, FitsSorts, HasSort, IsGraph, KeepsSymbol, children, node_sort, node_uses, sorts};
ghost use Rattle.bd_terms.specs.Denotation.{Denotes, World, node_value, values, words};
ghost use Rattle.bd_function.specs.Flat.{AreApplications, Flattens, HasAllApplications, IsChosen, ReachesNoMemory, under};
ghost use Rattle.bd_terms.specs.Renamed.{renamed};
ghost use Rattle.bd_function.specs.Flattened.{IsMadeFlat};
ghost use Rattle.bd_function.specs.inner.Taken.{AddsApplication, AddsSymbol, AddsTerm, AddsVariable, AreAlike, IsPlain, IsTaken, MakesTerm, Steps, as_sort, is_scalar, use_of, with_row};

use crate::flat::{Flat, FlatRow, FlatRows, FlatSym, FlatSyms};
use crate::nested::nested;
use bd_model::Sort;
use bd_terms::{Graph, Id, Ids, Node, Sym, reached};
use indexmap::IndexSet;
use std::alloc::{AllocError, Global};

// What has been taken so far.
#[derive(Drop)]
struct Taken {
    graph: Graph,
    // The term of each variable.
    variables: Vec<Id>,
    // The symbols, in the order of their rows.
    symbols: IndexSet<Sym>,
    rows: Vec<FlatSym>,
}

/// The formula with a variable for each application that the root reaches.
pub fn flatten(alloc: Global, graph: &Graph, root: Id) -> Result<Flat, AllocError>
    requires sorted { HasSort graph.now root kind.Bool }
    requires memory { ReachesNoMemory graph.now root }
    ensures flattens { IfOk result (λ f. Flattens graph.now root f.graph f.root f.syms) }
    ensures made { IfOk result (λ f. IsMadeFlat graph.now root f.graph f.root f.syms) }
    ensures rows { IfOk result (λ f. AreApplications graph.now root f.graph f.syms) }
    ensures all_rows { IfOk result (λ f. HasAllApplications graph.now root f.graph f.syms) }
    ensures chosen { IfOk result (λ f. (w : World) (choice : ℕ → Scalar) →
        IsChosen graph.now root f.graph f.syms w choice) }
    ensures graph { IfOk result (λ f. IsGraph f.graph) }
{
    let marks = reached(graph, root)?;
    let mut ids = Vec::with_capacity(alloc, graph.len())?;
    let mut taken = Taken {
        graph: Graph::new(alloc),
        variables: Vec::new(alloc),
        symbols: IndexSet::new(alloc),
        rows: Vec::new(alloc),
    };
    for index in 0..graph.len() {
        let old = graph.id(index);
        let id = if marks.has(old) {
            take(alloc, &mut taken, &ids, graph.node(old))?
        } else {
            Id::default()
        };
        ids.push(id)?;
    }
    let variables = taken.variables.as_slice();
    prove!(variables.len() < 1 << 60);
    Ok(Flat {
        graph: taken.graph,
        root: ids[root.index()],
        syms: FlatSyms::from_vec(taken.rows),
    })
}

/// The term of a node in the new graph, where an application is a variable or a choice between variables.
fn take(alloc: Global, taken: &mut Taken, ids: &[Id], node: &Node) -> Result<Id, AllocError>
    requires inside { All (λ c. c < length ids.now) (children node.now) }
    requires fits { FitsSorts taken.old.graph (renamed ids.now node.now) }
    requires plain { IsPlain node.now }
    requires taken { IsTaken taken.old }
    requires rows { AreAlike taken.old (node_uses node.now) }
    ensures made { IfOk result (MakesTerm taken.old taken.new (renamed ids.now node.now)) }
    ensures steps { IfOk result (λ id. Steps taken.old taken.new (node_uses node.now)
        (children (renamed ids.now node.now)) id
        (node_sort (sorts taken.old.graph) (renamed ids.now node.now))
        (λ w v. node_value w (values (under v) taken.old.graph) (renamed ids.now node.now))) }
{
    let renamed = node.renamed(ids)?;
    match renamed {
        Node::App(sym, args) => apply(alloc, taken, sym, args.as_slice(), Sort::Word),
        Node::Pred(sym, args) => apply(alloc, taken, sym, args.as_slice(), Sort::Bool),
        other => taken.graph.build(other),
    }
}

/// The term of a variable, a word or a truth value by its sort.
fn variable(graph: &mut Graph, var: u64, sort: Sort) -> Result<Id, AllocError>
    requires symbol { KeepsSymbol graph.old (symbol.Var var) 0 sort }
    requires sort { is_scalar sort ≡ true }
    ensures { IfOk result (λ id. AddsTerm graph.old graph.new var id sort) }
{
    let id = match sort {
        Sort::Word => graph.mk_app(Sym::Var(var), &[])?,
        _ => graph.mk_pred(Sym::Var(var), &[])?,
    };
    Ok(id)
}

/// A variable of this sort that is in no earlier term.
fn add_variable(taken: &mut Taken, sort: Sort) -> Result<Id, AllocError>
    requires taken { IsTaken taken.old }
    requires sort { is_scalar sort ≡ true }
    ensures { IfOk result (λ id. AddsVariable taken.old taken.new id sort) }
{
    let var = taken.variables.len() as u64;
    let id = variable(&mut taken.graph, var, sort)?;
    taken.variables.push(id)?;
    Ok(id)
}

/// The place of the symbol's rows, which are put after the others if the symbol has none yet.
fn place(alloc: Global, taken: &mut Taken, sym: Sym) -> Result<usize, AllocError>
    requires { map (λ s. s.sym) taken.old.rows.items ≡ taken.old.symbols.keys }
    ensures { IfOk result (λ place. AddsSymbol taken.old taken.new sym place) }
{
    let (place, is_new) = taken.symbols.insert_full(sym)?;
    if is_new {
        let rows = FlatRows::new(alloc);
        taken.rows.push(FlatSym { sym, rows })?;
    }
    Ok(place)
}

/// Puts a row after the others of its symbol.
fn push(rows: &mut Vec<FlatSym>, place: usize, row: FlatRow) -> Result<(), AllocError>
    requires { place < length rows.old.items }
    ensures { OnOk result (rows.new.items ≡ with_row rows.old.items place row) }
{
    rows[place].rows.push(row)?;
    Ok(())
}

/// The term for an application of the symbol, whose row is put after its others.
fn apply(
    alloc: Global,
    taken: &mut Taken,
    sym: Sym,
    args: &[Id],
    sort: Sort,
) -> Result<Id, AllocError>
    requires arguments { All (λ a. HasSort taken.old.graph a kind.Word) args.now }
    requires sort { is_scalar sort ≡ true }
    requires taken { IsTaken taken.old }
    requires rows { AreAlike taken.old (use_of sym (length args.now) sort ∷ []) }
    ensures made { IfOk result (AddsApplication taken.old taken.new sort sym args.now) }
    ensures steps { IfOk result (λ id.
        Steps taken.old taken.new (use_of sym (length args.now) sort ∷ []) args.now id sort
        (λ w v. as_sort sort (at (w sym) (words (under v) taken.old.graph args.now)))) }
{
    let var = taken.variables.len() as u64;
    let own = add_variable(taken, sort)?;
    let place = place(alloc, taken, sym)?;
    let rows = taken.rows[place].rows.as_slice();
    let id = nested(&mut taken.graph, &taken.variables, rows, args, own)?;
    let row = row_of(alloc, args, var)?;
    push(&mut taken.rows, place, row)?;
    Ok(id)
}

/// The row of an application: its arguments and its variable.
fn row_of(alloc: Global, args: &[Id], var: u64) -> Result<FlatRow, AllocError>
    ensures { IfOk result (λ row. row ≡ record { args = args.now; var = var }) }
{
    let args = Ids::from_slice(alloc, args)?;
    Ok(FlatRow { args, var })
}
