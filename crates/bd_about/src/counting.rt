//! What is counted of each function and predicate of a design in its correspondence formula, as it is kept in diverse
//! mode: how often it is applied, whether it's positive, and its equations and clauses; and with which symbols it is
//! compared (Bryant, German and Velev 2001; Tseitin 1968).
ghost use Rattle.std.specs.Prelude.{◌≡◌, ◌≤◌, ◌<◌, ℕ, Contains, length, slice_index_or, Some, IfOk};
ghost use Rattle.bd_function.specs.Flat.{ReachesNoMemory};
ghost use Rattle.bd_model.specs.DesignView.{design_view};
ghost use Rattle.bd_model.specs.Lawful.{IsLawful};
ghost use Rattle.bd_model.specs.Limits.{most_items};
ghost use Rattle.bd_model.specs.declared.design.Sort.TheVariants as sort;
ghost use Rattle.bd_terms.specs.Graph.{HasSort};
ghost use Rattle.bd_terms.specs.declared.node.Sym.{Sym as TheSymbol};
ghost use Rattle.bd_terms.specs.declared.node.Sym.TheVariants as symbol;
ghost use Rattle.bd_verify.specs.Kept.{IsDenied};
ghost use Rattle.bd_about.specs.Applications.{AreApplications, AreCountsOf};
ghost use Rattle.bd_about.specs.Equations.{is_variable_of};
ghost use Rattle.bd_about.specs.inner.Counted.{AreCounted, AreItems, IsCountedFlat, IsCountedPlain, IsPlainOf, counted_rows, last_count};
ghost use Rattle.bd_about.specs.inner.Owned.{is_owned};

use crate::compared::{AllPartners, comparisons_of};
use crate::equations::{clause_counts, equation_counts};
use crate::owners::Owners;
use crate::tallying::Tally;
use bd_diverse::{Positive, marked, positive};
use bd_equality::encode;
use bd_function::{Flat, FlatSym, Marked, flatten};
use bd_goal::goal;
use bd_memory::forward;
use bd_model::{Design, Sequence};
use bd_prop::Prop;
use bd_terms::{Graph, Id, Sym};
use bd_transitive::Edge;
use bd_tseitin::{Formula, clauses};
use bd_verify::negated;
use bd_walk::in_walk_order;
use std::alloc::{AllocError, Global};

/// What is counted of a function or predicate.
#[derive(Clone, Copy, PartialEq, Eq)]
pub struct Applied {
    /// How many different applications of it the correspondence formula has, once memories are removed.
    pub count: usize,
    /// Whether it's a function that is applied there, and no general equation compares its applications.
    pub positive: bool,
    /// How many equations between two variables have one of its applications' at an end.
    pub equations: usize,
    /// In how many of Tseitin's clauses such an equation stands. The clauses of triangles aren't counted.
    pub clauses: usize,
}

/// What is counted of each function and predicate of a design, in their order, and with what each is compared.
#[derive(Drop)]
pub struct Applications {
    pub applied: Sequence<Applied>,
    pub compared: AllPartners,
}

/// Sets the count of a function or predicate to that of its rows.
fn count_rows(counts: &mut Vec<usize>, symbol: &FlatSym)
    ensures size { length counts.new.items ≡ length counts.old.items }
    ensures counts { (f : ℕ) → f < length counts.old.items → slice_index_or counts.new.items f 0
        ≡ counted_rows f (slice_index_or counts.old.items f 0) symbol.now }
{
    if let Sym::Function(f) = symbol.sym {
        if let Some(count) = counts.get_mut(f as usize) {
            *count = symbol.rows.len();
        }
    }
}

/// How many rows each of so many functions and predicates has.
fn row_counts(alloc: Global, symbols: usize, flat: &[FlatSym]) -> Result<Vec<usize>, AllocError>
    ensures size { IfOk result (λ counts. length counts.items ≡ symbols) }
    ensures counts { IfOk result (λ counts. (f : ℕ) → f < symbols →
        slice_index_or counts.items f 0 ≡ last_count f 0 flat.now) }
{
    let mut counts = vec![in alloc; 0; symbols]?;
    for symbol in flat {
        count_rows(&mut counts, symbol);
    }
    Ok(counts)
}

/// What is counted of each function and predicate, from lists of each count.
fn with_positive(
    alloc: Global,
    rows: &[usize],
    equations: &[Tally],
    clauses: &[Tally],
    symbols: &Positive,
) -> Result<Sequence<Applied>, AllocError>
    requires few { length rows.now ≤ most_items }
    requires equations { length equations.now ≡ length rows.now }
    requires clauses { length clauses.now ≡ length rows.now }
    ensures { IfOk result (AreItems rows.now equations.now clauses.now symbols.now) }
{
    let mut applied = Sequence::new(alloc);
    for f in 0..rows.len() as u32 {
        let place = f as usize;
        applied.push(Applied {
            count: rows[place],
            positive: symbols.has(Sym::Function(f)),
            equations: equations[place].count,
            clauses: clauses[place].count,
        })?;
    }
    Ok(applied)
}

/// What is counted of each of so many functions and predicates, where the symbols of variables are found.
fn counted(
    alloc: Global,
    functions: usize,
    flat: &Flat,
    symbols: &Positive,
    owners: &Owners,
    edges: &[Edge],
    formula: &Formula,
) -> Result<Sequence<Applied>, AllocError>
    requires few { functions ≤ most_items }
    requires owners { (symbol : TheSymbol) (x : ℕ) →
        is_owned owners.now symbol x ≡ is_variable_of flat.now.syms symbol x }
    ensures { IfOk result (AreCountsOf functions (Contains symbols.now) flat.now.syms edges.now
        formula.now.cnf.clauses formula.now.atoms) }
{
    let rows = row_counts(alloc, functions, flat.syms.as_slice())?;
    let equations = equation_counts(alloc, functions, owners, edges)?;
    let clauses = clause_counts(alloc, functions, owners, formula)?;
    with_positive(
        alloc,
        rows.as_slice(),
        equations.as_slice(),
        clauses.as_slice(),
        symbols,
    )
}

/// What is counted of each of so many functions and predicates in a flat formula, its edges and Tseitin's clauses, and
/// with what each is compared.
fn in_formula(
    alloc: Global,
    functions: usize,
    flat: &Flat,
    symbols: &Positive,
    edges: &[Edge],
    formula: &Formula,
) -> Result<Applications, AllocError>
    requires { functions ≤ most_items }
    ensures { IfOk result (AreCounted functions (Contains symbols.now) flat.now.syms edges.now
        formula.now.cnf.clauses formula.now.atoms) }
{
    let owners = Owners::of(alloc, flat)?;
    let applied = counted(alloc, functions, flat, symbols, &owners, edges, formula)?;
    let compared = comparisons_of(alloc, functions, &owners, edges, flat.syms.as_slice())?;
    Ok(Applications { applied, compared })
}

/// Tseitin's clauses of the negated root.
fn denied(alloc: Global, prop: Prop, root: usize) -> Result<Formula, AllocError>
    requires { root < length prop }
    ensures { IfOk result (λ f. IsDenied prop root f.cnf f.atoms) }
{
    let denied = negated(alloc, prop, root)?;
    let formula = clauses(alloc, &denied.prop, denied.root)?;
    Ok(formula)
}

/// What is counted of each function and predicate of a design in a flat formula.
fn in_flat(
    alloc: Global,
    design: &Design,
    flat: &Flat,
    marked: &Marked,
    symbols: &Positive,
) -> Result<Applications, AllocError>
    requires { length (design_view design.now).symbols ≤ most_items }
    ensures { IfOk result (IsCountedFlat (design_view design.now) (Contains symbols.now)
        flat.now.graph flat.now.root flat.now.syms (Some marked.now)) }
{
    let encoded = encode(alloc, flat, &design.distinct, Some(marked))?;
    let formula = denied(alloc, encoded.prop, encoded.root)?;
    let edges = encoded.edges.as_slice();
    in_formula(alloc, design.symbols.len(), flat, symbols, edges, &formula)
}

/// What is counted of each function and predicate of a design in the flat form of a formula without memories.
fn in_plain(
    alloc: Global,
    design: &Design,
    plain: &Graph,
    root: Id,
) -> Result<Applications, AllocError>
    requires symbols { length (design_view design.now).symbols ≤ most_items }
    requires sorted { HasSort plain.now root sort.Bool }
    requires memory { ReachesNoMemory plain.now root }
    ensures { IfOk result (IsCountedPlain (design_view design.now) plain.now root) }
{
    let symbols = positive(alloc, plain, root)?;
    let flat = flatten(alloc, plain, root)?;
    let marked = marked(alloc, &flat, &symbols)?;
    in_flat(alloc, design, &flat, &marked, &symbols)
}

/// The root without memories, over terms in the order of a walk.
fn plain_of(alloc: Global, graph: &Graph, root: Id) -> Result<(Graph, Id), AllocError>
    requires { HasSort graph.now root sort.Bool }
    ensures plain { IfOk result (λ r. IsPlainOf graph.now root r.0 r.1) }
    ensures memory { IfOk result (λ r. ReachesNoMemory r.0 r.1) }
{
    let (built, built_root) = forward(alloc, graph, root)?;
    let (plain, plain_root) = in_walk_order(alloc, &built, built_root)?;
    Ok((plain, plain_root))
}

/// What is counted of each function and predicate of a lawful design in its correspondence formula, and with what each
/// is compared.
pub fn applications_of(alloc: Global, design: &Design) -> Result<Applications, AllocError>
    requires { IsLawful (design_view design.now) }
    ensures { IfOk result (AreApplications (design_view design.now)) }
{
    let mut graph = Graph::new(alloc);
    let goal = goal(alloc, &mut graph, design)?;
    prove!(goal.root.index() < graph.len());
    let (plain, root) = plain_of(alloc, &graph, goal.root)?;
    in_plain(alloc, design, &plain, root)
}
