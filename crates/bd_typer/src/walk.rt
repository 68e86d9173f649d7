//! The expressions of a file, item by item.

ghost use Rattle.std.specs.Prelude.{◌≡◌, ◌<◌, ◌≤◌, ◌+◌, ◌++◌, ◌∷◌, [], IfOk, OnOk, Option, false, length, map, replicate, set};
ghost use Rattle.bd_model.specs.Lawful.{uses_input};
ghost use Rattle.bd_model.specs.Limits.{most_items};
ghost use Rattle.bd_typer.specs.NameMap.{declare};
ghost use Rattle.bd_model.specs.ExprView.{Truth, expr_view};
ghost use Rattle.bd_syntax.specs.Forms.{expression_of, item_view};
ghost use Rattle.bd_syntax.specs.Reading.{Gives};
ghost use Rattle.bd_typer.specs.Joined.{start};
ghost use Rattle.bd_typer.specs.Repeats.{no_texts};
ghost use Rattle.bd_typer.specs.Walk.{constant_named, constants, entry_named, typed_distinct, typed_exact, typed_input, typed_item, typed_items, typed_let, typed_next};
ghost use Rattle.bd_typer.specs.inner.Held.{lookup_names, meanings, meanings_within, typed_view};

use crate::expression::expression;
use crate::inputs::uses_input;
use crate::names::{Lookup, Meaning, NameMap, NameSet, Outer};
use crate::scope::copied;
use bd_model::{Distinct, Exact, Exacts, Expr, Local, Locals, Places, Port, Ports, Sort};
use bd_syntax::{Form, FormFault, Item, Spot, Spots, bad};
use bd_text::Code;
use std::alloc::{AllocError, Global};

/// What the items gone through give, and what names mean after them.
#[derive(Drop)]
pub struct Typed<'a> {
    pub names: NameMap<'a>,
    pub ports: Ports,
    pub locals: Locals,
    /// For each let whether it uses an input, directly or through other lets.
    pub flags: Vec<bool>,
    /// The next value of each entry, false before its item.
    pub nexts: Vec<Expr>,
    pub exact: Exacts,
    pub distinct: Distinct,
}

/// The latch or memory of this name.
pub fn entry_named(offset: usize, meaning: Option<Meaning>) -> Result<(u32, Sort), FormFault>
    ensures { Gives (λ p. p) result (entry_named offset meaning) }
{
    match meaning {
        Some(Meaning::Entry { number, sort }) => Ok((number, sort)),
        _ => Err(bad(offset, Code::UnknownName)),
    }
}

/// The number of the function of no argument that has this name.
fn constant_named(offset: usize, meaning: Option<Meaning>) -> Result<u32, FormFault>
    ensures { Gives (λ n. n) result (constant_named offset meaning) }
{
    match meaning {
        None => Err(bad(offset, Code::UnknownName)),
        Some(
            Meaning::Symbol {
                number,
                arity,
                predicate,
            },
        ) => {
            if arity == 0 && !predicate {
                Ok(number)
            } else {
                Err(bad(offset, Code::NotConstant))
            }
        }
        Some(_) => Err(bad(offset, Code::NotConstant)),
    }
}

/// The numbers of constants, each named once.
fn constants(alloc: Global, names: Lookup<'_>, spots: &Spots) -> Result<Places, FormFault>
    ensures { Gives (λ group. group) result (constants
        (lookup_names names.entry) no_texts spots.now) }
{
    let mut before = NameSet::new(alloc);
    let mut group = Vec::new(alloc);
    for spot in spots.as_slice() {
        let text = spot.text.as_slice();
        group.push(constant_named(spot.offset, names.get(text))?)?;
        if !before.insert(text)? {
            return Err(bad(spot.offset, Code::DeclaredTwice));
        }
    }
    Ok(Places::from_vec(group))
}

/// As many expressions as there are entries, each false before its item.
pub fn unset(alloc: Global, entries: usize) -> Result<Vec<Expr>, AllocError>
    ensures { IfOk result (λ values. map expr_view values.items
        ≡ replicate entries (Truth false)) }
{
    let mut values = Vec::new(alloc);
    for _ in 0..entries {
        values.push(Expr::Bool(false))?;
    }
    Ok(values)
}

/// Sets the expression of an entry, if there is one of that number.
#[tactic(auto, using(crate::proofs::Operations::map_set, crate::proofs::Operations::map_past))]
pub fn set_entry(values: &mut Vec<Expr>, number: usize, value: Expr)
    ensures { map expr_view values.new.items
        ≡ set (map expr_view values.old.items) number (expr_view value) }
{
    if number >= values.len() {
        return;
    }
    values[number] = value;
}

/// A walk that begins, over a machine of so many entries.
pub fn start<'a>(alloc: Global, names: NameMap<'a>, entries: usize) -> Result<Typed<'a>, AllocError>
    ensures view { (outer : Option Outer) → IfOk result (λ t. typed_view outer t
        ≡ start (meanings_within outer (meanings names.entry)) entries) }
    ensures locals { IfOk result (λ t. length t.locals ≡ 0) }
{
    Ok(Typed {
        names,
        ports: Ports::new(alloc),
        locals: Locals::new(alloc),
        flags: Vec::new(alloc),
        nexts: unset(alloc, entries)?,
        exact: Exacts::new(alloc),
        distinct: Distinct::new(alloc),
    })
}

impl<'a> Typed<'a> {
    /// The names in force.
    pub fn lookup<'n>(&'n self, outer: Option<Outer<'n>>) -> Lookup<'n>
        ensures own { result.own.now ≡ self.now.names }
        ensures outer { result.outer ≡ outer.entry }
    {
        Lookup {
            own: &self.names,
            outer,
        }
    }

    /// Goes through `(input NAME SORT EXPR)`.
    #[tactic(auto, unfolding(crate::specs::Walk::typed_input))]
    fn input(
        &mut self,
        alloc: Global,
        outer: Option<Outer<'_>>,
        name: &Spot,
        sort: Sort,
        idle: &Form,
    ) -> Result<(), FormFault>
        ensures { Gives (λ _. typed_view outer.entry self.new) result
            (typed_input (typed_view outer.entry self.old) name.now sort (expression_of idle.now)) }
    {
        let idle = expression(alloc, self.lookup(outer), false, sort, idle)?;
        let name = copied(alloc, name)?;
        self.ports.push(Port { name, sort, idle })?;
        Ok(())
    }

    /// Keeps a let, which its name means from now on.
    fn keep(&mut self, name: &'a Spot, sort: Sort, value: Expr) -> Result<(), AllocError>
        requires { length self.old.locals < most_items }
        ensures names { OnOk result (meanings self.new.names
            ≡ declare (meanings self.old.names) name.now.text
            (Meaning.Local (length self.old.locals)
            sort (uses_input self.old.flags.items (expr_view value)))) }
        ensures locals { OnOk result (self.new.locals
            ≡ self.old.locals ++ record { sort = sort; value = value } ∷ []) }
        ensures flags { OnOk result (self.new.flags.items
            ≡ self.old.flags.items ++ uses_input self.old.flags.items (expr_view value) ∷ []) }
        ensures ports { OnOk result (self.new.ports ≡ self.old.ports) }
        ensures nexts { OnOk result (self.new.nexts ≡ self.old.nexts) }
        ensures exact { OnOk result (self.new.exact ≡ self.old.exact) }
        ensures distinct { OnOk result (self.new.distinct ≡ self.old.distinct) }
    {
        let uses_input = uses_input(self.flags.as_slice(), &value);
        let meaning = Meaning::Local {
            number: self.locals.len() as u32,
            sort,
            uses_input,
        };
        self.names.declare(name.text.as_slice(), meaning)?;
        self.flags.push(uses_input)?;
        self.locals.push(Local { sort, value })?;
        Ok(())
    }

    /// Goes through `(let NAME SORT EXPR)`.
    #[tactic(auto, unfolding(crate::specs::Walk::typed_let))]
    fn local(
        &mut self,
        alloc: Global,
        outer: Option<Outer<'_>>,
        inputs: bool,
        name: &'a Spot,
        sort: Sort,
        value: &Form,
    ) -> Result<(), FormFault>
        requires { length self.old.locals < most_items }
        ensures { Gives (λ _. typed_view outer.entry self.new) result
            (typed_let inputs (typed_view outer.entry self.old) name.now sort
            (expression_of value.now)) }
    {
        let value = expression(alloc, self.lookup(outer), inputs, sort, value)?;
        self.keep(name, sort, value)?;
        Ok(())
    }

    /// Goes through `(next NAME EXPR)`.
    #[tactic(auto, unfolding(crate::specs::Walk::typed_next))]
    fn next(
        &mut self,
        alloc: Global,
        outer: Option<Outer<'_>>,
        name: &Spot,
        value: &Form,
    ) -> Result<(), FormFault>
        ensures { Gives (λ _. typed_view outer.entry self.new) result
            (typed_next (typed_view outer.entry self.old) name.now (expression_of value.now)) }
    {
        let meaning = self.lookup(outer).get(name.text.as_slice());
        let (number, sort) = entry_named(name.offset, meaning)?;
        let value = expression(alloc, self.lookup(outer), true, sort, value)?;
        set_entry(&mut self.nexts, number as usize, value);
        Ok(())
    }

    /// Goes through `(exact N EXPR)`.
    #[tactic(auto, unfolding(crate::specs::Walk::typed_exact))]
    fn exact(
        &mut self,
        alloc: Global,
        outer: Option<Outer<'_>>,
        count: u32,
        when: &Form,
    ) -> Result<(), FormFault>
        ensures { Gives (λ _. typed_view outer.entry self.new) result
            (typed_exact (typed_view outer.entry self.old) count (expression_of when.now)) }
    {
        let when = expression(alloc, self.lookup(outer), true, Sort::Bool, when)?;
        self.exact.push(Exact { count, when })?;
        Ok(())
    }

    /// Goes through `(distinct NAME NAME ..)`.
    #[tactic(auto, unfolding(crate::specs::Walk::typed_distinct))]
    fn distinct(
        &mut self,
        alloc: Global,
        outer: Option<Outer<'_>>,
        names: &Spots,
    ) -> Result<(), FormFault>
        ensures { Gives (λ _. typed_view outer.entry self.new) result
            (typed_distinct (typed_view outer.entry self.old) names.now) }
    {
        let group = constants(alloc, self.lookup(outer), names)?;
        self.distinct.push(group)?;
        Ok(())
    }

    /// Goes through one item, in whose lets inputs may be used or not.
    fn item(
        &mut self,
        alloc: Global,
        outer: Option<Outer<'_>>,
        inputs: bool,
        item: &'a Item,
    ) -> Result<(), FormFault>
        requires { length self.old.locals < most_items }
        ensures { Gives (λ _. typed_view outer.entry self.new) result
            (typed_item inputs (typed_view outer.entry self.old) (item_view item.now)) }
    {
        match item {
            Item::Input {
                name,
                sort,
                idle,
                ..
            } => self.input(alloc, outer, name, *sort, idle),
            Item::Let {
                name,
                sort,
                value,
                ..
            } => self.local(alloc, outer, inputs, name, *sort, value),
            Item::Next { name, value, .. } => self.next(alloc, outer, name, value),
            Item::Exact { count, when, .. } => self.exact(alloc, outer, *count, when),
            Item::Distinct { names, .. } => self.distinct(alloc, outer, names),
            _ => Ok(()),
        }
    }

    /// Goes through the items in the order of the text.
    pub fn items(
        &mut self,
        alloc: Global,
        outer: Option<Outer<'_>>,
        inputs: bool,
        items: &'a [Item],
    ) -> Result<(), FormFault>
        requires { length self.old.locals + length items.now ≤ most_items }
        ensures { Gives (λ _. typed_view outer.entry self.new) result
            (typed_items inputs (typed_view outer.entry self.old) (map item_view items.now)) }
    {
        for item in items {
            self.item(alloc, outer, inputs, item)?;
        }
        Ok(())
    }
}
