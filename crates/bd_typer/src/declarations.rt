//! The faults of declarations: names that are declared twice, next values that are missing or given twice, and
//! flush and steps. They are looked for one kind after the other, each in one pass over the items, and of all that
//! there are the one at the least offset counts, then the one with the least code.

ghost use Rattle.std.specs.Prelude.{◌≡◌, OnOk, IfOk, List, Some, None, map};
ghost use Rattle.std.specs.List.{filter_map};
ghost use Rattle.std.specs.Option.{option_map};
ghost use Rattle.bd_syntax.specs.Completion.{abstract_view, completion_view};
ghost use Rattle.bd_syntax.specs.Forms.{item_view, ast_view, invariant_view};
ghost use Rattle.bd_syntax.specs.Reading.{Gives};
ghost use Rattle.bd_typer.specs.Completions.{abstract_name, completion_faults};
ghost use Rattle.bd_typer.specs.Declarations.{count_faults, declaration_faults, declared_name, invariant_faults, not_once, offsets, taken_names};
ghost use Rattle.bd_text.specs.declared.code.Code.TheVariants.{DeclaredTwice, MissingOrTwice, FlushOrSteps};
ghost use Rattle.bd_typer.specs.Faults.{first_of, least, refused_by, without_faults};
ghost use Rattle.bd_typer.specs.Joined.{first_count};
ghost use Rattle.bd_typer.specs.Repeats.{with_names, repeated, fresh};
ghost use Rattle.bd_typer.specs.inner.Held.{members};
ghost use Rattle.bd_typer.specs.inner.Located.{at_tree, fault_at, first_offset, least_offset};
ghost use Rattle.bd_typer.specs.inner.Roles.{role_name, count_offset, counted_with, given, item_count};

use crate::names::NameSet;
use bd_syntax::{Abstract, Ast, CompAst, FormFault, InvAst, Item, Kind, Spot, bad};
use bd_text::Code;
use std::alloc::{AllocError, Global};

/// What an item may name.
#[derive(Clone, Copy, PartialEq, Eq)]
pub enum Role {
    /// What it declares.
    Declared,
    /// A latch or memory that it declares.
    Entry,
    /// A function or predicate that it declares.
    Symbol,
    /// What it gives the next value of.
    Next,
}

/// What must stand once in a pipeline.
#[derive(Clone, Copy, PartialEq, Eq)]
pub enum Once {
    Flush,
    Steps,
}

impl Role {
    /// The name that the item has in this role.
    fn name(self, item: &Item) -> Option<&Spot>
        ensures { option_map (λ name. name.now) result ≡ role_name self (item_view item.now) }
    {
        match (self, item) {
            (Role::Declared | Role::Entry, Item::Latch { name, .. } | Item::Memory { name, .. }) =>
                Some(name),
            (Role::Declared, Item::Input { name, .. } | Item::Let { name, .. }) => Some(name),
            (
                Role::Declared | Role::Symbol,
                Item::Function { name, .. } | Item::Predicate { name, .. },
            ) => Some(name),
            (Role::Next, Item::Next { name, .. }) => Some(name),
            _ => None,
        }
    }
}

impl Once {
    /// The offset of the item, where it is this one.
    fn offset(self, item: &Item) -> Option<usize>
        ensures { result ≡ count_offset self (item_view item.now) }
    {
        match (self, item) {
            (Once::Flush, Item::Flush { offset, .. }) => Some(*offset),
            (Once::Steps, Item::Steps { offset, .. }) => Some(*offset),
            _ => None,
        }
    }

    /// The number of the item, where it is this one.
    fn count(self, item: &Item) -> Option<u32>
        ensures { result ≡ item_count self (item_view item.now) }
    {
        match (self, item) {
            (Once::Flush, Item::Flush { count, .. }) => Some(*count),
            (Once::Steps, Item::Steps { count, .. }) => Some(*count),
            _ => None,
        }
    }
}

/// The number that stands first in such an item, and 0 without one.
pub fn first_count(once: Once, items: &[Item]) -> u32
    ensures { result ≡ first_count (filter_map (item_count once) (map item_view items.now)) }
{
    for item in items {
        if let Some(count) = once.count(item) {
            return count;
        }
    }
    0
}

/// The lesser of two offsets, where there are any.
pub fn first_offset(a: Option<usize>, b: Option<usize>) -> Option<usize>
    ensures { result ≡ first_offset a b }
{
    match (a, b) {
        (Some(a), Some(b)) => Some(a.min(b)),
        (Some(a), None) => Some(a),
        (None, b) => b,
    }
}

/// The least offset of the names that are repeated, and of the others.
#[derive(Clone, Copy)]
pub struct Scanned {
    repeated: Option<usize>,
    fresh: Option<usize>,
}

/// Adds a name to a set, if there is one.
fn see<'a>(
    texts: &mut NameSet<'a>,
    scanned: Scanned,
    name: Option<&'a Spot>,
) -> Result<Scanned, AllocError>
    ensures repeated { IfOk result (λ s. s.repeated ≡ first_offset scanned.repeated
        (least_offset (offsets (repeated (members texts.old) (given name.entry))))) }
    ensures fresh { IfOk result (λ s. s.fresh ≡ first_offset scanned.fresh
        (least_offset (offsets (fresh (members texts.old) (given name.entry))))) }
    ensures set { OnOk result (members texts.new ≡ with_names (members texts.old)
        (given name.entry)) }
{
    let Some(name) = name else {
        return Ok(scanned);
    };
    let mut scanned = scanned;
    if texts.insert(name.text.as_slice())? {
        scanned.fresh = first_offset(scanned.fresh, Some(name.offset));
    } else {
        scanned.repeated = first_offset(scanned.repeated, Some(name.offset));
    }
    Ok(scanned)
}

/// Adds the names that items have in a role to a set.
fn scan<'a>(texts: &mut NameSet<'a>, role: Role, items: &'a [Item]) -> Result<Scanned, AllocError>
    ensures repeated { IfOk result (λ s. s.repeated ≡ least_offset (offsets
        (repeated (members texts.old) (filter_map (role_name role) (map item_view items.now))))) }
    ensures fresh { IfOk result (λ s. s.fresh ≡ least_offset (offsets
        (fresh (members texts.old) (filter_map (role_name role) (map item_view items.now))))) }
    ensures set { OnOk result (members texts.new
        ≡ with_names (members texts.old) (filter_map (role_name role) (map item_view items.now))) }
{
    let mut scanned = Scanned {
        repeated: None,
        fresh: None,
    };
    for item in items {
        scanned = see(texts, scanned, role.name(item))?;
    }
    Ok(scanned)
}

/// Adds the names of abstracts to a set.
fn scan_abstracts<'a>(
    texts: &mut NameSet<'a>,
    parts: &'a [Abstract],
) -> Result<Option<usize>, AllocError>
    ensures repeated { IfOk result (λ again. again ≡ least_offset (offsets
        (repeated (members texts.old) (map abstract_name (map abstract_view parts.now))))) }
    ensures set { OnOk result (members texts.new
        ≡ with_names (members texts.old) (map abstract_name (map abstract_view parts.now))) }
{
    let mut scanned = Scanned {
        repeated: None,
        fresh: None,
    };
    for part in parts {
        scanned = see(texts, scanned, Some(&part.name))?;
    }
    Ok(scanned.repeated)
}

/// The offset of a file's tree, where something is missing.
fn at_tree(tree: usize, missing: Option<usize>) -> Option<usize>
    ensures { result ≡ at_tree tree missing }
{
    match missing {
        Some(_) => Some(tree),
        None => None,
    }
}

/// What was given so far of what must stand once: whether it was, and the least offset at which it was again.
#[derive(Clone, Copy)]
pub struct Counted {
    given: bool,
    again: Option<usize>,
}

/// Counts one offset more of what must stand once, if there is one.
fn count(counted: Counted, offset: Option<usize>) -> Counted
    ensures { result ≡ counted_with counted offset }
{
    match offset {
        Some(_) if !counted.given => Counted {
            given: true,
            again: counted.again,
        },
        Some(offset) => Counted {
            given: true,
            again: first_offset(counted.again, Some(offset)),
        },
        None => counted,
    }
}

/// The least offset at which what must stand once is missing, which is that of the tree, or is given again.
fn not_once(tree: usize, once: Once, items: &[Item]) -> Option<usize>
    ensures { result
        ≡ least_offset (not_once tree (filter_map (count_offset once) (map item_view items.now))) }
{
    let mut counted = Counted {
        given: false,
        again: None,
    };
    for item in items {
        counted = count(counted, once.offset(item));
    }
    if counted.given {
        counted.again
    } else {
        Some(tree)
    }
}

/// Refuses a file at the least of these offsets, and there with the least code.
fn refuse(
    twice: Option<usize>,
    missing: Option<usize>,
    counts: Option<usize>,
) -> Result<(), FormFault>
    ensures { Gives (λ _. tt {0}) result (refused_by (first_of (fault_at DeclaredTwice twice)
        (first_of (fault_at MissingOrTwice missing) (fault_at FlushOrSteps counts)))) }
{
    let Some(offset) = first_offset(twice, first_offset(missing, counts)) else {
        return Ok(());
    };
    let code = if twice == Some(offset) {
        Code::DeclaredTwice
    } else if missing == Some(offset) {
        Code::MissingOrTwice
    } else {
        Code::FlushOrSteps
    };
    Err(bad(offset, code))
}

/// The least offset at which flush or steps are missing or given again.
fn counts(ast: &Ast) -> Option<usize>
    ensures { fault_at FlushOrSteps result
        ≡ least (count_faults ast.now.kind ast.now.offset (map item_view ast.now.items)) }
{
    let items = ast.items.as_slice();
    match ast.kind {
        Kind::Pipeline => first_offset(
            not_once(ast.offset, Once::Flush, items),
            not_once(ast.offset, Once::Steps, items),
        ),
        Kind::Specification => None,
    }
}

/// Tests the declarations of a machine file.
pub fn test_machine(alloc: Global, ast: &Ast) -> Result<(), FormFault>
    ensures { Gives (λ _. tt {0}) result (without_faults (declaration_faults (ast_view ast.now))) }
{
    let items = ast.items.as_slice();
    let twice = scan(&mut NameSet::new(alloc), Role::Declared, items)?.repeated;
    let mut nexts = NameSet::new(alloc);
    let again = scan(&mut nexts, Role::Next, items)?.repeated;
    let without = scan(&mut nexts, Role::Entry, items)?.fresh;
    refuse(twice, first_offset(again, without), counts(ast))
}

/// The least offset of the names that lets declare after the names that they may not.
fn taken_twice(
    alloc: Global,
    pipe: &Ast,
    spec: &Ast,
    lets: &[Item],
) -> Result<Option<usize>, AllocError>
    ensures { IfOk result (λ twice. twice ≡ least_offset (offsets
        (repeated (taken_names (ast_view pipe.now) (ast_view spec.now))
        (filter_map declared_name (map item_view lets.now))))) }
{
    let mut taken = NameSet::new(alloc);
    scan(&mut taken, Role::Declared, pipe.items.as_slice())?;
    scan(&mut taken, Role::Symbol, spec.items.as_slice())?;
    Ok(scan(&mut taken, Role::Declared, lets)?.repeated)
}

/// Tests the declarations of a completion file.
pub fn test_completion(
    alloc: Global,
    pipe: &Ast,
    spec: &Ast,
    comp: &CompAst,
) -> Result<(), FormFault>
    ensures { Gives (λ _. tt {0}) result (without_faults
        (completion_faults (ast_view pipe.now) (ast_view spec.now) (completion_view comp.now))) }
{
    let twice = taken_twice(alloc, pipe, spec, comp.lets.as_slice())?;
    let mut abstracted = NameSet::new(alloc);
    let again = scan_abstracts(&mut abstracted, comp.parts.as_slice())?;
    let missing = scan(&mut abstracted, Role::Entry, spec.items.as_slice())?.fresh;
    refuse(
        twice,
        first_offset(again, at_tree(comp.offset, missing)),
        None,
    )
}

/// Tests the declarations of an invariant file.
pub fn test_invariant(alloc: Global, pipe: &Ast, spec: &Ast, inv: &InvAst) -> Result<(), FormFault>
    ensures { Gives (λ _. tt {0}) result (without_faults
        (invariant_faults (ast_view pipe.now) (ast_view spec.now) (invariant_view inv.now))) }
{
    let twice = taken_twice(alloc, pipe, spec, inv.items.as_slice())?;
    refuse(twice, None, None)
}
