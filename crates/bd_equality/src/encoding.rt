//! A stack of visits goes down from the root to what each truth value and each equation rests on, so that only what the
//! root asks for has a node, and each is settled once.
ghost use Rattle.std.specs.Prelude.{◌≡◌, ℕ, [], List, Option, IfOk, OnOk, option_copied, slice_get};
ghost use Rattle.bd_model.specs.declared.design.Sort.TheVariants as sort;
ghost use Rattle.bd_terms.specs.Graph.{HasSort, IsGraph};
ghost use Rattle.bd_equality.specs.Made.{AreTakenApart, Pairs, Term, Words};
ghost use Rattle.bd_equality.specs.inner.Means.{Gives};
ghost use Rattle.bd_equality.specs.inner.Rows.{AreTails};
ghost use Rattle.bd_equality.specs.inner.Split.{AreAlike, IsControl, IsPair, IsWanted, IsWay, arguments_at, equations, node_parts, parts, subject_of};
ghost use Rattle.bd_equality.specs.inner.Steps.{AreInside, AreKnown, Enters, GivesNever, Include, IncludeWith, IsEncoding, Settles};

use crate::leaf::{leaf, symbol_variable};
use crate::parts::{push, push_parts};
use crate::rows::{RowWords, arguments_at};
use crate::settled::Settled;
use crate::split::sides;
use crate::trees::Trees;
use crate::wanted::{RowPair, Visit, Wanted, Way, between};
use crate::ways::way;
use bd_function::{Flat, Marked};
use bd_prop::{Atom, Prop};
use bd_terms::{Id, Node};
use std::alloc::{AllocError, Global};

/// The truth graph, and the nodes that are settled.
#[derive(Drop)]
pub(crate) struct Encoding {
    alloc: Global,
    pub(crate) prop: Prop,
    pub(crate) settled: Settled,
}

impl Encoding {
    /// The encoding in which nothing is settled. It takes no memory.
    pub(crate) fn new(alloc: Global) -> Encoding
        ensures prop { result.prop ≡ [] }
        ensures settled { result.settled ≡ [] }
    {
        Encoding {
            alloc,
            prop: Prop::new(alloc),
            settled: Settled::new(alloc),
        }
    }

    /// Settles what is wanted.
    pub(crate) fn settle(
        &mut self,
        flat: &Flat,
        marked: Option<&Marked>,
        rows: &RowWords,
        trees: &mut Trees,
        wanted: &Wanted,
    ) -> Result<(), AllocError>
        requires wanted { IsWanted flat.now.graph wanted.now }
        requires graph { IsGraph flat.now.graph }
        requires rows { AreTails flat.now.graph flat.now.syms (option_copied marked)
            rows.now.tails.items }
        requires encoding { IsEncoding flat.now.graph flat.now.syms (option_copied marked)
            self.old.prop self.old.settled }
        ensures { OnOk result (Settles flat.now.graph flat.now.syms (option_copied marked.entry)
            self.old.settled self.new.prop self.new.settled wanted.now) }
    {
        let mut visits = Vec::new(self.alloc);
        visits.push(Visit::Enter(*wanted))?;
        while let Some(visit) = visits.pop() {
            match visit {
                Visit::Enter(entered) => {
                    self.enter(flat, marked, rows, trees, &mut visits, &entered)?
                }
                Visit::Finish(waiting, way) => self.finish(flat, marked, &waiting, &way)?,
            }
        }
        Ok(())
    }

    /// Puts what is wanted on the stack with that on which it rests above it, unless it is settled.
    fn enter(
        &self,
        flat: &Flat,
        marked: Option<&Marked>,
        rows: &RowWords,
        trees: &mut Trees,
        visits: &mut Vec<Visit>,
        wanted: &Wanted,
    ) -> Result<(), AllocError>
        requires wanted { IsWanted flat.now.graph wanted.now }
        requires rows { AreTails flat.now.graph flat.now.syms (option_copied marked)
            rows.now.tails.items }
        ensures { OnOk result (Enters flat.now.graph flat.now.syms (option_copied marked.entry)
            self.now.settled visits.old.items visits.new.items wanted.now) }
    {
        if self.settled.get(wanted).is_some() {
            return Ok(());
        }
        let way = way(flat, marked, rows, trees, wanted)?;
        push(visits, *wanted, Some(way))?;
        push_parts(visits, flat, wanted, &way)
    }

    /// Settles what is wanted, when that on which it rests is settled.
    fn finish(
        &mut self,
        flat: &Flat,
        marked: Option<&Marked>,
        wanted: &Wanted,
        way: &Way,
    ) -> Result<(), AllocError>
        requires graph { IsGraph flat.now.graph }
        requires wanted { IsWanted flat.now.graph wanted.now }
        requires way { IsWay flat.now.graph flat.now.syms (option_copied marked)
            wanted.now way.now }
        requires parts { AreKnown self.old.settled
            (parts flat.now.graph flat.now.syms wanted.now way.now) }
        requires encoding { IsEncoding flat.now.graph flat.now.syms (option_copied marked)
            self.old.prop self.old.settled }
        ensures { OnOk result (Settles flat.now.graph flat.now.syms (option_copied marked.entry)
            self.old.settled self.new.prop self.new.settled wanted.now) }
    {
        if self.settled.get(wanted).is_some() {
            return Ok(());
        }
        let node = make(&mut self.prop, flat, marked, &self.settled, wanted, way)?;
        self.settled.keep(wanted, *way, node)
    }
}

/// Makes the node of what is wanted, from those of that on which it rests.
fn make(
    prop: &mut Prop,
    flat: &Flat,
    marked: Option<&Marked>,
    settled: &Settled,
    wanted: &Wanted,
    way: &Way,
) -> Result<usize, AllocError>
    requires graph { IsGraph flat.now.graph }
    requires wanted { IsWanted flat.now.graph wanted.now }
    requires way { IsWay flat.now.graph flat.now.syms (option_copied marked) wanted.now way.now }
    requires parts { AreKnown settled.now (parts flat.now.graph flat.now.syms wanted.now way.now) }
    requires encoding { IsEncoding flat.now.graph flat.now.syms (option_copied marked) prop.old
        settled.now }
    ensures { IfOk result (λ id. Gives flat.now.graph flat.now.syms (option_copied marked.entry)
        (IncludeWith flat.now.syms settled.now wanted.now way.now) prop.old prop.new id
        (subject_of wanted.now)) }
{
    match wanted {
        Wanted::Truth(id) => truth(prop, flat, settled, *id),
        Wanted::Equation(left, right) => match way {
            Way::Plain => leaf(prop, flat, marked, *left, *right),
            Way::Control(control) => chosen(prop, flat, settled, *control, *left, *right),
            Way::Arguments(pair) => compared(prop, flat, settled, *pair),
            Way::Never => never(prop),
        },
    }
}

/// Makes the node of a truth value, from those of its parts.
fn truth(prop: &mut Prop, flat: &Flat, settled: &Settled, id: Id) -> Result<usize, AllocError>
    requires sorted { HasSort flat.now.graph id sort.Bool }
    requires parts { AreKnown settled.now (node_parts (slice_get flat.now.graph id)) }
    requires inside { AreInside prop.old settled.now }
    ensures { (marked : Option (List ℕ)) →
        IsEncoding flat.now.graph flat.now.syms marked prop.old settled.now →
        IfOk result (λ node. Gives flat.now.graph flat.now.syms marked
        (Include flat.now.syms settled.now) prop.old prop.new node (Term id)) }
{
    match flat.graph.node(id) {
        Node::Not(a) => prop.mk_not(settled.node(&Wanted::Truth(*a))),
        Node::And(a, b) => {
            let a = settled.node(&Wanted::Truth(*a));
            let b = settled.node(&Wanted::Truth(*b));
            prop.mk_and(a, b)
        }
        Node::Or(a, b) => {
            let a = settled.node(&Wanted::Truth(*a));
            let b = settled.node(&Wanted::Truth(*b));
            prop.mk_or(a, b)
        }
        Node::Ite(control, yes, no) => {
            let control = settled.node(&Wanted::Truth(*control));
            let yes = settled.node(&Wanted::Truth(*yes));
            let no = settled.node(&Wanted::Truth(*no));
            prop.mk_ite(control, yes, no)
        }
        Node::Eq(a, b) => Ok(settled.node(&between(*a, *b))),
        Node::Pred(sym, _) => prop.mk_atom(Atom::Truth(symbol_variable(*sym))),
        _ => prop.mk_true(),
    }
}

/// Makes the node of an equation by a control.
fn chosen(
    prop: &mut Prop,
    flat: &Flat,
    settled: &Settled,
    control: Id,
    left: Id,
    right: Id,
) -> Result<usize, AllocError>
    requires pair { IsPair flat.now.graph left right }
    requires way { AreTakenApart flat.now.graph left right }
    requires control { IsControl flat.now.graph left right control }
    requires parts { AreKnown settled.now (parts flat.now.graph flat.now.syms
        (Wanted.Equation left right) (Way.Control control)) }
    requires inside { AreInside prop.old settled.now }
    ensures { (marked : Option (List ℕ)) →
        IsEncoding flat.now.graph flat.now.syms marked prop.old settled.now →
        IfOk result (λ node. Gives flat.now.graph flat.now.syms marked
        (IncludeWith flat.now.syms settled.now (Wanted.Equation left right) (Way.Control control))
        prop.old prop.new node (Words left right)) }
{
    let (yes, no) = sides(&flat.graph, control, left, right);
    let control = settled.node(&Wanted::Truth(control));
    let yes = settled.node(&yes);
    let no = settled.node(&no);
    prop.mk_ite(control, yes, no)
}

/// Makes the node of an equation of two rows: the conjunction of the equations of their arguments.
fn compared(
    prop: &mut Prop,
    flat: &Flat,
    settled: &Settled,
    pair: RowPair,
) -> Result<usize, AllocError>
    requires alike { AreAlike flat.now.syms (Way.Arguments pair) }
    requires parts { AreKnown settled.now (equations
        (arguments_at flat.now.syms pair.symbol pair.left)
        (arguments_at flat.now.syms pair.symbol pair.right)) }
    requires inside { AreInside prop.old settled.now }
    ensures { (marked : Option (List ℕ)) →
        IsEncoding flat.now.graph flat.now.syms marked prop.old settled.now →
        IfOk result (λ node. Gives flat.now.graph flat.now.syms marked
        (Include flat.now.syms settled.now) prop.old prop.new node
        (Pairs (arguments_at flat.now.syms pair.symbol pair.left)
        (arguments_at flat.now.syms pair.symbol pair.right))) }
{
    let left = arguments_at(flat, pair.symbol, pair.left);
    let right = arguments_at(flat, pair.symbol, pair.right);
    let mut all = prop.mk_true()?;
    for index in (0..left.len()).rev() {
        let same = settled.node(&between(left[index], right[index]));
        all = prop.mk_and(same, all)?;
    }
    Ok(all)
}

/// Makes the node of an equation that never holds.
fn never(prop: &mut Prop) -> Result<usize, AllocError>
    ensures { IfOk result (GivesNever prop.old prop.new) }
{
    let truth = prop.mk_true()?;
    prop.mk_not(truth)
}
