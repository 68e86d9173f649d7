//! What the value of an expression comes from, as facts from left to right.
//!
//! The rules are those of the slice: of an `ite` the condition and the branch taken, of an `and` the first part that is
//! false, of a read the addresses written and the word that it meets.
ghost use Rattle.std.specs.Prelude.{◌≡◌, ◌∷◌, ◌++◌, [], IfOk, ℕ, false, not, slice_index_or, true};
ghost use Rattle.bd_model.specs.ExprView.{expr_view, expr_views, Entry, Input, Local, Not, Implies, Iff, Equal, Ite, Read, Write, Apply};
ghost use Rattle.bd_model.specs.Value.{Env, scalar_of, scalar_truth, truth};
ghost use Rattle.bd_model.specs.declared.table.Value.{Value};
ghost use Rattle.bd_model.specs.declared.table.Scalar.{Scalar};
ghost use Rattle.bd_slice.specs.Reasons.{AllHold};
ghost use Rattle.bd_slice.specs.Run.{word_at};
ghost use Rattle.bd_slice.specs.inner.Found.{Explains, Explained, ExplainsAfter, Follows, parts_in, scalar_in, word_in};

use crate::moment::Moment;
use crate::subject::{Cycle, Fact, Finding, Subject};
use bd_model::{Case, Expr, Exprs, Scalar, Sequence, Value};
use bd_sim::table_at;
use std::alloc::{AllocError, Global};

/// Where an expression is valued: in a cycle, after some of its lets.
#[derive(Clone, Copy)]
pub struct Here<'a> {
    pub alloc: Global,
    pub case: &'a Case,
    pub cycle: Cycle,
    pub moment: &'a Moment,
    pub lets: &'a [Value],
}

/// A value, and the facts behind it.
#[derive(Drop)]
pub struct Found {
    pub value: Scalar,
    pub facts: Vec<Fact>,
}

/// The way down to a part of an expression.
#[derive(Drop)]
pub struct Path {
    parts: Vec<u64>,
}

impl Path {
    /// The way to the whole of an expression.
    pub fn new(alloc: Global) -> Path {
        Path {
            parts: Vec::new(alloc),
        }
    }

    /// Goes down to the part of this number.
    fn down(&mut self, part: u64) -> Result<(), AllocError> {
        self.parts.push(part)?;
        Ok(())
    }

    /// Goes back up from a part to the one that it is a part of.
    fn up(&mut self) {
        self.parts.pop();
    }

    /// A fact of the part to which this way leads.
    pub fn fact(&self, finding: Finding) -> Result<Fact, AllocError>
        ensures { IfOk result (λ f. f.finding ≡ finding) }
    {
        Ok(Fact {
            path: Sequence::from_vec(self.parts.clone()?),
            finding,
        })
    }
}

/// The value of this number as a scalar, false where there is no value or a memory.
pub fn scalar_at(values: &[Value], number: u32) -> Scalar
    ensures { result ≡ scalar_of (slice_index_or values.now number (truth false)) }
{
    match values.get(number as usize) {
        Some(Value::Scalar(scalar)) => *scalar,
        _ => Scalar::Bool(false),
    }
}

/// The input of this number, false where there is none.
pub fn input_at(inputs: &[Scalar], number: u32) -> Scalar
    ensures { result ≡ slice_index_or inputs.now number (Scalar.Bool false) }
{
    match inputs.get(number as usize) {
        Some(value) => *value,
        None => Scalar::Bool(false),
    }
}

/// The word at an address of the memory of this number, 0 where there is no memory.
pub fn word_of(values: &[Value], number: u32, address: u64) -> Scalar
    ensures { result ≡ word_at (slice_index_or values.now number (truth false)) address }
{
    match values.get(number as usize) {
        Some(Value::Memory(memory)) => Scalar::Word(memory.at(address)),
        _ => Scalar::Word(0),
    }
}

impl Found {
    /// A value with no fact behind it.
    pub fn plain(alloc: Global, value: Scalar) -> Found
        ensures value { result.value ≡ value }
        ensures facts { result.facts.items ≡ [] }
    {
        Found {
            value,
            facts: Vec::new(alloc),
        }
    }

    /// A value with one fact behind it.
    pub fn with(alloc: Global, value: Scalar, fact: Fact) -> Result<Found, AllocError>
        ensures value { IfOk result (λ f. f.value ≡ value) }
        ensures facts { IfOk result (λ f. f.facts.items ≡ fact ∷ []) }
    {
        let mut facts = Vec::new(alloc);
        facts.push(fact)?;
        Ok(Found { value, facts })
    }

    /// Whether the value is this truth value.
    fn has_truth(&self, truth: bool) -> bool
        ensures yes { result ≡ true → scalar_truth self.now.value ≡ truth }
        ensures no { result ≡ false → scalar_truth self.now.value ≡ not truth }
    {
        self.value.truth() == truth
    }

    /// The value of what is found next, with these facts before its own.
    fn then(self, other: Found) -> Result<Found, AllocError>
        ensures value { IfOk result (λ f. f.value ≡ other.value) }
        ensures facts { IfOk result (λ f. f.facts.items ≡ self.facts.items ++ other.facts.items) }
    {
        let mut facts = self.facts;
        let mut more = other.facts;
        facts.append(&mut more)?;
        Ok(Found {
            value: other.value,
            facts,
        })
    }

    /// A value that is made of two that are found, with the facts of both.
    fn joined(self, other: Found, value: Scalar) -> Result<Found, AllocError>
        ensures value { IfOk result (λ f. f.value ≡ value) }
        ensures facts { IfOk result (λ f. f.facts.items ≡ self.facts.items ++ other.facts.items) }
    {
        Ok(self.then(other)?.valued(value))
    }

    /// A value in place of the one found, with the same facts.
    fn valued(self, value: Scalar) -> Found
        ensures value { result.value ≡ value }
        ensures facts { result.facts.items ≡ self.facts.items }
    {
        Found {
            value,
            facts: self.facts,
        }
    }
}

impl Here<'_> {
    /// A value that is one of the run's, which is the fact behind it.
    fn rests(self, path: &Path, subject: Subject, value: Scalar) -> Result<Found, AllocError>
        ensures value { IfOk result (λ f. f.value ≡ value) }
        ensures facts { IfOk result (λ f. (x : Fact)
            × (f.facts.items ≡ x ∷ []) × (x.finding ≡ Finding.Rests subject value)) }
    {
        let fact = path.fact(Finding::Rests(subject, value))?;
        Found::with(self.alloc, value, fact)
    }

    /// A value, with what this finding says of a part as the fact behind it.
    fn told(self, path: &Path, value: Scalar, finding: Finding) -> Result<Found, AllocError>
        ensures value { IfOk result (λ f. f.value ≡ value) }
        ensures facts { IfOk result (λ f. (x : Fact)
            × (f.facts.items ≡ x ∷ []) × (x.finding ≡ finding)) }
    {
        let fact = path.fact(finding)?;
        Found::with(self.alloc, value, fact)
    }

    /// An `implies` that is true by one of its parts.
    fn implied(self, path: &Path, part: u32, found: Found) -> Result<Found, AllocError>
        ensures value { IfOk result (λ f. f.value ≡ Scalar.Bool true) }
        ensures facts { IfOk result (λ f. (x : Fact)
            × (f.facts.items ≡ x ∷ found.facts.items) × (Follows x.finding)) }
    {
        let yes = Scalar::Bool(true);
        let decided = self.told(path, yes, Finding::Decided(part))?;
        decided.joined(found, yes)
    }

    /// The value found for a part, with a fact before those of the part.
    fn after(self, path: &Path, finding: Finding, part: Found) -> Result<Found, AllocError>
        ensures value { IfOk result (λ f. f.value ≡ part.value) }
        ensures facts { IfOk result (λ f. (x : Fact)
            × (f.facts.items ≡ x ∷ part.facts.items) × (x.finding ≡ finding)) }
    {
        self.told(path, part.value, finding)?.then(part)
    }

    /// The condition of an `ite`, with the branch that is taken as a fact before its own.
    fn chosen(self, path: &Path, condition: Found) -> Result<Found, AllocError>
        ensures value { IfOk result (λ f. f.value ≡ condition.value) }
        ensures facts { IfOk result (λ f. (x : Fact)
            × (f.facts.items ≡ x ∷ condition.facts.items) × (Follows x.finding)) }
    {
        let taken = condition.value.truth();
        self.after(path, Finding::Chosen(taken), condition)
    }

    /// The value of an input of the cycle.
    fn input(self, path: &Path, number: u32) -> Result<Found, AllocError>
        ensures { IfOk result (Explained self.entry (scalar_in (Input number))) }
    {
        let value = input_at(self.moment.inputs.as_slice(), number);
        let found = self.rests(path, Subject::Input(self.cycle, number), value)?;
        Ok(found)
    }

    /// The value of a latch in the state in which the cycle begins.
    fn entry(self, path: &Path, number: u32) -> Result<Found, AllocError>
        ensures { IfOk result (Explained self.entry (scalar_in (Entry number))) }
    {
        let value = scalar_at(self.moment.state.as_slice(), number);
        let subject = Subject::Latch(self.cycle.begins_at(), number);
        let found = self.rests(path, subject, value)?;
        Ok(found)
    }

    /// The value of an earlier let of the cycle.
    fn local(self, path: &Path, number: u32) -> Result<Found, AllocError>
        ensures { IfOk result (Explained self.entry (scalar_in (Local number))) }
    {
        let place = number as usize;
        let count = self.lets.len();
        if place >= count {
            return Ok(Found::plain(self.alloc, Scalar::Bool(false)));
        }
        let value = scalar_at(self.lets, number);
        let found = self.rests(path, Subject::Let(self.cycle, number), value)?;
        Ok(found)
    }

    /// The word at an address of a memory in the state in which the cycle begins.
    fn entry_at(self, path: &Path, number: u32, address: u64) -> Result<Found, AllocError>
        ensures { IfOk result (Explained self.entry (word_in (Entry number) address)) }
    {
        let value = word_of(self.moment.state.as_slice(), number, address);
        let subject = Subject::Cell(self.cycle.begins_at(), number, address);
        let found = self.rests(path, subject, value)?;
        Ok(found)
    }

    /// The word at an address of an earlier let of the cycle that is a memory.
    fn local_at(self, path: &Path, number: u32, address: u64) -> Result<Found, AllocError>
        ensures { IfOk result (Explained self.entry (word_in (Local number) address)) }
    {
        let place = number as usize;
        let count = self.lets.len();
        if place >= count {
            return Ok(Found::plain(self.alloc, Scalar::Word(0)));
        }
        let value = word_of(self.lets, number, address);
        let subject = Subject::LetCell(self.cycle, number, address);
        let found = self.rests(path, subject, value)?;
        Ok(found)
    }
}

/// What the value of an expression comes from.
#[cycle(find)]
pub fn find(here: Here<'_>, path: &mut Path, expr: &Expr) -> Result<Found, AllocError>
    ensures { IfOk result (Explained here.entry (scalar_in (expr_view expr.now))) }
{
    match expr {
        Expr::Bool(b) => Ok(Found::plain(here.alloc, Scalar::Bool(*b))),
        Expr::Entry(i) => here.entry(path, *i),
        Expr::Input(i) => here.input(path, *i),
        Expr::Local(i) => here.local(path, *i),
        Expr::Not(a) => find_not(here, path, a),
        Expr::And(parts) => find_first(here, path, parts, false),
        Expr::Or(parts) => find_first(here, path, parts, true),
        Expr::Implies(a, b) => find_implies(here, path, a, b),
        Expr::Iff(a, b) => find_iff(here, path, a, b),
        Expr::Equal(a, b) => find_equal(here, path, a, b),
        Expr::Ite(p, a, b) => find_choice(here, path, p, a, b),
        Expr::Read(m, a) => find_read(here, path, m, a),
        Expr::Write(_, _, _) => Ok(Found::plain(here.alloc, Scalar::Bool(false))),
        Expr::Apply(f, args) => find_applied(here, path, *f, args),
    }
}

/// What the value of the part of this number comes from, as facts of that part.
#[cycle(find)]
fn find_part(here: Here<'_>, path: &mut Path, part: u64, expr: &Expr) -> Result<Found, AllocError>
    ensures { IfOk result (Explained here.entry (scalar_in (expr_view expr.now))) }
{
    path.down(part)?;
    let found = find(here, path, expr)?;
    path.up();
    Ok(found)
}

/// What the value of a part comes from, told after facts that are found before.
#[cycle(find)]
fn find_after(
    here: Here<'_>,
    path: &mut Path,
    before: Found,
    part: u64,
    expr: &Expr,
) -> Result<Found, AllocError>
    ensures { IfOk result
        (ExplainsAfter here.entry before.facts.items (scalar_in (expr_view expr.now))) }
{
    let found = find_part(here, path, part, expr)?;
    let all = before.then(found)?;
    Ok(all)
}

/// What the value of a `not` comes from: its part.
#[cycle(find)]
fn find_not(here: Here<'_>, path: &mut Path, a: &Expr) -> Result<Found, AllocError>
    ensures { IfOk result (Explained here.entry (scalar_in (Not (expr_view a.now)))) }
{
    let part = find_part(here, path, 0, a)?;
    let value = Scalar::Bool(!part.value.truth());
    Ok(part.valued(value))
}

/// What the value of an `implies` comes from: the first part where that is false, else the second where that is true,
/// else both.
#[cycle(find)]
fn find_implies(here: Here<'_>, path: &mut Path, a: &Expr, b: &Expr) -> Result<Found, AllocError>
    ensures { IfOk result
        (Explained here.entry (scalar_in (Implies (expr_view a.now) (expr_view b.now)))) }
{
    let p = find_part(here, path, 0, a)?;
    if !p.value.truth() {
        let decided = here.implied(path, 0, p)?;
        return Ok(decided);
    }
    let q = find_part(here, path, 1, b)?;
    if q.value.truth() {
        let decided = here.implied(path, 1, q)?;
        return Ok(decided);
    }
    let both = p.joined(q, Scalar::Bool(false))?;
    Ok(both)
}

/// What the value of an `iff` comes from: both parts.
#[cycle(find)]
fn find_iff(here: Here<'_>, path: &mut Path, a: &Expr, b: &Expr) -> Result<Found, AllocError>
    ensures { IfOk result
        (Explained here.entry (scalar_in (Iff (expr_view a.now) (expr_view b.now)))) }
{
    let p = find_part(here, path, 0, a)?;
    let q = find_part(here, path, 1, b)?;
    let same = p.value.truth() == q.value.truth();
    let both = p.joined(q, Scalar::Bool(same))?;
    Ok(both)
}

/// What the value of an `=` comes from: both parts.
#[cycle(find)]
fn find_equal(here: Here<'_>, path: &mut Path, a: &Expr, b: &Expr) -> Result<Found, AllocError>
    ensures { IfOk result
        (Explained here.entry (scalar_in (Equal (expr_view a.now) (expr_view b.now)))) }
{
    let p = find_part(here, path, 0, a)?;
    let q = find_part(here, path, 1, b)?;
    let same = p.value.word() == q.value.word();
    let both = p.joined(q, Scalar::Bool(same))?;
    Ok(both)
}

/// What the value of an `ite` comes from: its condition, and the branch taken.
#[cycle(find)]
fn find_choice(
    here: Here<'_>,
    path: &mut Path,
    p: &Expr,
    a: &Expr,
    b: &Expr,
) -> Result<Found, AllocError>
    ensures { IfOk result (Explained here.entry
        (scalar_in (Ite (expr_view p.now) (expr_view a.now) (expr_view b.now)))) }
{
    let condition = find_part(here, path, 0, p)?;
    let taken = condition.value.truth();
    let chosen = here.chosen(path, condition)?;
    if taken {
        let branch = find_after(here, path, chosen, 1, a)?;
        Ok(branch)
    } else {
        let branch = find_after(here, path, chosen, 2, b)?;
        Ok(branch)
    }
}

/// What the value of a `read` comes from: its address, and the word of the memory there.
#[cycle(find)]
fn find_read(here: Here<'_>, path: &mut Path, m: &Expr, a: &Expr) -> Result<Found, AllocError>
    ensures { IfOk result
        (Explained here.entry (scalar_in (Read (expr_view m.now) (expr_view a.now)))) }
{
    let address = find_part(here, path, 1, a)?;
    let at = address.value.word();
    let word = find_word_after(here, path, address, 0, m, at)?;
    Ok(word)
}

/// What the value of an `and` or an `or` comes from: the first part that has the value that decides, else all.
#[cycle(find)]
fn find_first(
    here: Here<'_>,
    path: &mut Path,
    parts: &Exprs,
    decides: bool,
) -> Result<Found, AllocError>
    ensures { IfOk result (Explained here.entry (parts_in decides (expr_views parts.now))) }
{
    let mut all = Found::plain(here.alloc, Scalar::Bool(!decides));
    let mut number = 0u32;
    for part in &parts.items {
        let found = find_part(here, path, u64::from(number), part)?;
        if found.has_truth(decides) {
            let decided = here.after(path, Finding::Decided(number), found)?;
            return Ok(decided.valued(Scalar::Bool(decides)));
        }
        all = all.joined(found, Scalar::Bool(!decides))?;
        number = number.saturating_add(1);
    }
    Ok(all)
}

/// What the value of an application comes from: its arguments, and the table's row for them.
#[cycle(find)]
fn find_applied(
    here: Here<'_>,
    path: &mut Path,
    symbol: u32,
    args: &Exprs,
) -> Result<Found, AllocError>
    ensures { IfOk result (Explained here.entry (scalar_in (Apply symbol (expr_views args.now)))) }
{
    let mut words = Vec::new(here.alloc);
    let mut all = Found::plain(here.alloc, Scalar::Bool(false));
    let mut number = 0u64;
    for arg in &args.items {
        let found = find_part(here, path, number, arg)?;
        words.push(found.value.word())?;
        all = all.then(found)?;
        number = number.saturating_add(1);
    }
    let value = table_at(here.case.interp.as_slice(), symbol, words.as_slice());
    let row = Finding::Applied(symbol, Sequence::from_vec(words), value);
    let applied = here.after(path, row, all.valued(value))?;
    Ok(applied)
}

/// What the word of a memory at an address comes from.
#[cycle(find)]
pub fn find_word(
    here: Here<'_>,
    path: &mut Path,
    expr: &Expr,
    address: u64,
) -> Result<Found, AllocError>
    ensures { IfOk result (Explained here.entry (word_in (expr_view expr.now) address)) }
{
    match expr {
        Expr::Entry(i) => here.entry_at(path, *i, address),
        Expr::Local(i) => here.local_at(path, *i, address),
        Expr::Ite(p, a, b) => find_word_choice(here, path, p, a, b, address),
        Expr::Write(m, a, d) => find_written(here, path, m, a, d, address),
        Expr::Bool(_) => Ok(Found::plain(here.alloc, Scalar::Word(0))),
        Expr::Input(_) => Ok(Found::plain(here.alloc, Scalar::Word(0))),
        Expr::Not(_) => Ok(Found::plain(here.alloc, Scalar::Word(0))),
        Expr::And(_) => Ok(Found::plain(here.alloc, Scalar::Word(0))),
        Expr::Or(_) => Ok(Found::plain(here.alloc, Scalar::Word(0))),
        Expr::Implies(_, _) => Ok(Found::plain(here.alloc, Scalar::Word(0))),
        Expr::Iff(_, _) => Ok(Found::plain(here.alloc, Scalar::Word(0))),
        Expr::Equal(_, _) => Ok(Found::plain(here.alloc, Scalar::Word(0))),
        Expr::Read(_, _) => Ok(Found::plain(here.alloc, Scalar::Word(0))),
        Expr::Apply(_, _) => Ok(Found::plain(here.alloc, Scalar::Word(0))),
    }
}

/// What the word at an address of a part that is a memory comes from, told after facts that are found before.
#[cycle(find)]
fn find_word_after(
    here: Here<'_>,
    path: &mut Path,
    before: Found,
    part: u64,
    expr: &Expr,
    address: u64,
) -> Result<Found, AllocError>
    ensures { IfOk result
        (ExplainsAfter here.entry before.facts.items (word_in (expr_view expr.now) address)) }
{
    path.down(part)?;
    let found = find_word(here, path, expr, address)?;
    path.up();
    let all = before.then(found)?;
    Ok(all)
}

/// What the word at an address of an `ite` of memories comes from: its condition, and the word of the one taken.
#[cycle(find)]
fn find_word_choice(
    here: Here<'_>,
    path: &mut Path,
    p: &Expr,
    a: &Expr,
    b: &Expr,
    address: u64,
) -> Result<Found, AllocError>
    ensures { IfOk result (Explained here.entry
        (word_in (Ite (expr_view p.now) (expr_view a.now) (expr_view b.now)) address)) }
{
    let condition = find_part(here, path, 0, p)?;
    let taken = condition.value.truth();
    let chosen = here.chosen(path, condition)?;
    if taken {
        let word = find_word_after(here, path, chosen, 1, a, address)?;
        Ok(word)
    } else {
        let word = find_word_after(here, path, chosen, 2, b, address)?;
        Ok(word)
    }
}

/// What the word at an address of a `write` comes from: where it writes, then the word written where that is this
/// address, else the word of the memory below.
#[cycle(find)]
fn find_written(
    here: Here<'_>,
    path: &mut Path,
    m: &Expr,
    a: &Expr,
    d: &Expr,
    address: u64,
) -> Result<Found, AllocError>
    ensures { IfOk result (Explained here.entry
        (word_in (Write (expr_view m.now) (expr_view a.now) (expr_view d.now)) address)) }
{
    let at = find_part(here, path, 1, a)?;
    let written = at.value.word();
    if written == address {
        let met = here.after(path, Finding::Met(address), at)?;
        let put = find_after(here, path, met, 2, d)?;
        let word = put.value.word();
        Ok(put.valued(Scalar::Word(word)))
    } else {
        let passed = here.after(path, Finding::Passed(address, written), at)?;
        let below = find_word_after(here, path, passed, 0, m, address)?;
        Ok(below)
    }
}
