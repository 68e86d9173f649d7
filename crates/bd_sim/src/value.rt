//! Values of expressions.
//!
//! A value is found form by form. What gives a scalar is valued as a scalar, and a read goes down the writes of its
//! memory to the first with its address, so no memory is copied but where one is handed out. The lets of a machine are
//! valued once, in order, and kept where later expressions name them; a memory is kept as the writes that made it. What
//! no lawful design has is false, 0 or the memory of zeros, so no call has a condition on sorts. Recursion goes down
//! the expression alone.
ghost use Rattle.std.specs.Prelude.{◌≡◌, IfOk, false, map, slice_index_or};
ghost use Rattle.std.specs.List.{list_all, list_any};
ghost use Rattle.bd_model.specs.Lawful.{IsWithinLimits};
ghost use Rattle.bd_model.specs.Table.{at, read, write};
ghost use Rattle.bd_model.specs.ExprView.{expr_view, expr_views, list_of_views};
ghost use Rattle.bd_model.specs.Value.{value_of, values_of, scalar_of, memory_of, is_true, word_of, table_of, env_of, truth as truth_value};
ghost use Rattle.bd_model.specs.DesignView.{local_view};
ghost use Rattle.bd_sim.specs.inner.Env.{env_view, IsMadeWhole};
ghost use Rattle.bd_sim.specs.inner.Writes.{kept_value, IsMade};

use crate::writes::{Chain, Kept, Memories};
use bd_model::{
    Design, Expr, Exprs, Inputs, Interp, LetValues, Local, Memory, Scalar, Sequence, Slot, State,
    Table, Value,
};
use std::alloc::{AllocError, Global};

/// What names stand for where an expression is valued.
#[derive(Drop)]
pub struct Env<'a> {
    pub alloc: Global,
    pub interp: &'a [Table],
    pub inputs: &'a [Scalar],
    pub lets: Vec<Kept>,
    pub memories: Memories<'a>,
}

impl<'a> Env<'a> {
    /// What names stand for after these lets, each of which is valued once.
    pub fn new(
        alloc: Global,
        locals: &[Local],
        interp: &'a [Table],
        state: &'a [Value],
        inputs: &'a [Scalar],
    ) -> Result<Env<'a>, AllocError>
        ensures { IfOk result (λ env. env_view env
            ≡ env_of (map local_view locals.now) interp.now state.now inputs.now) }
    {
        let mut env = Env::given(alloc, interp, state, inputs, &[]);
        for local in locals {
            let next = keep(&mut env, &local.value)?;
            env.lets.push(next)?;
        }
        Ok(env)
    }

    /// What names stand for where the first lets have these values.
    fn given(
        alloc: Global,
        interp: &'a [Table],
        state: &'a [Value],
        inputs: &'a [Scalar],
        lets: &'a [Value],
    ) -> Env<'a>
        ensures view { env_view result ≡ record {
          interp = interp.now;
          state = state.now;
          inputs = inputs.now;
          locals = lets.now;
        } }
        ensures made { IsMadeWhole result }
    {
        Env {
            alloc,
            interp,
            inputs,
            lets: Vec::new(alloc),
            memories: Memories {
                state,
                given: lets,
                writes: Vec::new(alloc),
            },
        }
    }

    /// What the let at this place is, where there is one.
    fn local(&self, i: u32) -> Kept
        ensures value { kept_value self.now.memories result
            ≡ slice_index_or (env_view self.now).locals i (truth_value false) }
        ensures made { IsMadeWhole self.now → IsMade self.now.memories result }
    {
        match self.memories.given.get(i as usize) {
            Some(Value::Scalar(scalar)) => Kept::Scalar(*scalar),
            Some(Value::Memory(_)) => Kept::Memory(Chain::Given(i)),
            None => self.kept(i as usize - self.memories.given.len()),
        }
    }

    /// What the let at this place after those that were handed in is kept as, where there is one.
    fn kept(&self, place: usize) -> Kept
        ensures value { kept_value self.now.memories result
            ≡ slice_index_or (map (kept_value self.now.memories) self.now.lets.items) place
            (truth_value false) }
        ensures made { IsMadeWhole self.now → IsMade self.now.memories result }
    {
        match self.lets.get(place) {
            Some(kept) => *kept,
            None => Kept::Scalar(Scalar::Bool(false)),
        }
    }

    /// The values of the lets.
    pub fn let_values(&self) -> Result<Vec<Value>, AllocError>
        ensures { IfOk result (λ v. v.items ≡ (env_view self.now).locals) }
    {
        let mut values = self.memories.given.to_vec(self.alloc)?;
        for kept in &self.lets {
            values.push(self.memories.value(self.alloc, *kept)?)?;
        }
        Ok(values)
    }
}

/// The value of a let, of which a memory is kept as the writes that made it.
fn keep(env: &mut Env, expr: &Expr) -> Result<Kept, AllocError>
    requires { IsMadeWhole env.old }
    ensures value { IfOk result (λ k. kept_value env.new.memories k
        ≡ value_of (env_view env.old) (expr_view expr.now)) }
    ensures made { IfOk result (λ k. IsMade env.new.memories k) }
    ensures same { IfOk result (λ k. env_view env.new ≡ env_view env.old) }
    ensures whole { IfOk result (λ k. IsMadeWhole env.new) }
{
    match expr {
        Expr::Entry(i) => Ok(match env.memories.state.get(*i as usize) {
            Some(Value::Scalar(scalar)) => Kept::Scalar(*scalar),
            Some(Value::Memory(_)) => Kept::Memory(Chain::Entry(*i)),
            None => Kept::Scalar(Scalar::Bool(false)),
        }),
        Expr::Local(i) => Ok(env.local(*i)),
        Expr::Ite(p, a, b) => {
            if truth(env, p)? {
                keep(env, a)
            } else {
                keep(env, b)
            }
        }
        Expr::Write(m, a, d) => {
            let below = keep(env, m)?.memory();
            let slot = Slot {
                address: word(env, a)?,
                value: word(env, d)?,
            };
            Ok(Kept::Memory(env.memories.write(below, slot)?))
        }
        _ => Ok(Kept::Scalar(scalar(env, expr)?)),
    }
}

/// The value of an expression of the design, where the lets that it names have these values. A place past the
/// end or a part of another sort has the value false, 0 or the memory of zeros.
pub fn eval(
    alloc: Global,
    _design: &Design,
    expr: &Expr,
    interp: &Interp,
    state: &State,
    inputs: &Inputs,
    lets: &LetValues,
) -> Result<Value, AllocError>
    requires limits { IsWithinLimits (expr_view expr.now) }
    ensures { IfOk result (λ v. v ≡ value_of
        (record { interp = interp.now; state = state.now; inputs = inputs.now; locals = lets.now })
        (expr_view expr.now)) }
{
    let env = Env::given(
        alloc,
        interp.as_slice(),
        state.as_slice(),
        inputs.as_slice(),
        lets.as_slice(),
    );
    value(&env, expr)
}

/// The values of expressions, in order.
pub fn values(env: &Env, exprs: &Exprs) -> Result<Vec<Value>, AllocError>
    ensures { IfOk result (λ v. v.items
        ≡ map (value_of (env_view env.now)) (list_of_views (expr_views exprs.now))) }
{
    let mut values = Vec::new(env.alloc);
    for expr in &exprs.items {
        values.push(value(env, expr)?)?;
    }
    Ok(values)
}

/// The value of an expression.
pub fn value(env: &Env, expr: &Expr) -> Result<Value, AllocError>
    ensures { IfOk result (λ v. v ≡ value_of (env_view env.now) (expr_view expr.now)) }
{
    match expr {
        Expr::Entry(i) => value_at(env.memories.state, *i),
        Expr::Local(i) => env.memories.value(env.alloc, env.local(*i)),
        Expr::Ite(p, a, b) => {
            if truth(env, p)? {
                value(env, a)
            } else {
                value(env, b)
            }
        }
        Expr::Write(m, a, d) => {
            let old = value(env, m)?;
            let address = word(env, a)?;
            let word = word(env, d)?;
            Ok(Value::Memory(written(env.alloc, old, address, word)?))
        }
        _ => Ok(Value::Scalar(scalar(env, expr)?)),
    }
}

/// The value of an expression, false where it's a memory.
#[cycle(scalar)]
pub fn scalar(env: &Env, expr: &Expr) -> Result<Scalar, AllocError>
    ensures { IfOk result (λ x. x ≡ scalar_of (value_of (env_view env.now) (expr_view expr.now))) }
{
    match expr {
        Expr::Bool(b) => Ok(Scalar::Bool(*b)),
        Expr::Entry(i) => Ok(scalar_at(env.memories.state, *i)),
        Expr::Input(i) => Ok(input_at(env.inputs, *i)),
        Expr::Local(i) => Ok(env.local(*i).scalar()),
        Expr::Not(a) => Ok(Scalar::Bool(!truth(env, a)?)),
        Expr::And(parts) => Ok(Scalar::Bool(all_true(env, parts)?)),
        Expr::Or(parts) => Ok(Scalar::Bool(any_true(env, parts)?)),
        Expr::Implies(a, b) => Ok(Scalar::Bool(!truth(env, a)? || truth(env, b)?)),
        Expr::Iff(a, b) => Ok(Scalar::Bool(truth(env, a)? == truth(env, b)?)),
        Expr::Equal(a, b) => Ok(Scalar::Bool(word(env, a)? == word(env, b)?)),
        Expr::Ite(p, a, b) => {
            if truth(env, p)? {
                scalar(env, a)
            } else {
                scalar(env, b)
            }
        }
        Expr::Read(m, a) => {
            let address = word(env, a)?;
            Ok(Scalar::Word(read_at(env, m, address)?))
        }
        Expr::Write(_, _, _) => Ok(Scalar::Bool(false)),
        Expr::Apply(f, args) => {
            let args = words(env, args)?;
            Ok(table_at(env.interp, *f, args.as_slice()))
        }
    }
}

/// The value of an expression as a truth value: false where it is a word or a memory.
#[cycle(scalar)]
pub fn truth(env: &Env, expr: &Expr) -> Result<bool, AllocError>
    ensures { IfOk result (λ b. b ≡ is_true (value_of (env_view env.now) (expr_view expr.now))) }
{
    Ok(scalar(env, expr)?.truth())
}

/// The value of an expression as a word: 0 where it is a truth value or a memory.
#[cycle(scalar)]
fn word(env: &Env, expr: &Expr) -> Result<u64, AllocError>
    ensures { IfOk result (λ n. n ≡ word_of (value_of (env_view env.now) (expr_view expr.now))) }
{
    Ok(scalar(env, expr)?.word())
}

/// What a memory has at an address, without copying the memory.
#[cycle(scalar)]
fn read_at(env: &Env, memory: &Expr, address: u64) -> Result<u64, AllocError>
    ensures { IfOk result (λ n. n
        ≡ read (memory_of (value_of (env_view env.now) (expr_view memory.now))) address) }
{
    match memory {
        Expr::Entry(i) => Ok(env.memories.read(Chain::Entry(*i), address)),
        Expr::Local(i) => {
            let memory = env.local(*i).memory();
            Ok(env.memories.read(memory, address))
        }
        Expr::Ite(p, a, b) => {
            if truth(env, p)? {
                read_at(env, a, address)
            } else {
                read_at(env, b, address)
            }
        }
        Expr::Write(m, a, d) => {
            if word(env, a)? == address {
                word(env, d)
            } else {
                read_at(env, m, address)
            }
        }
        _ => Ok(0),
    }
}

/// Whether each of these expressions is true. Those after the first that isn't are not valued.
#[cycle(scalar)]
fn all_true(env: &Env, parts: &Exprs) -> Result<bool, AllocError>
    ensures { IfOk result (λ b. b
        ≡ list_all is_true (values_of (env_view env.now) (expr_views parts.now))) }
{
    for part in &parts.items {
        if !truth(env, part)? {
            return Ok(false);
        }
    }
    Ok(true)
}

/// Whether one of these expressions is true. Those after the first that is are not valued.
#[cycle(scalar)]
fn any_true(env: &Env, parts: &Exprs) -> Result<bool, AllocError>
    ensures { IfOk result (λ b. b
        ≡ list_any is_true (values_of (env_view env.now) (expr_views parts.now))) }
{
    for part in &parts.items {
        if truth(env, part)? {
            return Ok(true);
        }
    }
    Ok(false)
}

/// The values of expressions as words, in order.
#[cycle(scalar)]
fn words(env: &Env, parts: &Exprs) -> Result<Vec<u64>, AllocError>
    ensures { IfOk result (λ v. v.items
        ≡ map word_of (values_of (env_view env.now) (expr_views parts.now))) }
{
    let mut words = Vec::new(env.alloc);
    for part in &parts.items {
        words.push(word(env, part)?)?;
    }
    Ok(words)
}

/// A copy of the value of the entry at a place, false past the last.
pub fn value_at(values: &[Value], i: u32) -> Result<Value, AllocError>
    ensures { IfOk result (λ v. v ≡ slice_index_or values.now i (truth_value false)) }
{
    match values.get(i as usize) {
        Some(value) => value.clone(),
        None => Ok(Value::Scalar(Scalar::Bool(false))),
    }
}

/// The value of the entry at a place: false where it is a memory, and past the last.
fn scalar_at(values: &[Value], i: u32) -> Scalar
    ensures { result ≡ scalar_of (slice_index_or values.now i (truth_value false)) }
{
    match values.get(i as usize) {
        Some(Value::Scalar(scalar)) => *scalar,
        _ => Scalar::Bool(false),
    }
}

/// The value of the input at a place, false past the last.
fn input_at(inputs: &[Scalar], i: u32) -> Scalar
    ensures { result ≡ slice_index_or inputs.now i (Scalar.Bool false) }
{
    match inputs.get(i as usize) {
        Some(scalar) => *scalar,
        None => Scalar::Bool(false),
    }
}

/// What the symbol of a number has at arguments, false past the last symbol.
pub fn table_at(interp: &[Table], f: u32, args: &[u64]) -> Scalar
    ensures { result ≡ at (table_of interp.now f) args.now }
{
    match interp.get(f as usize) {
        Some(table) => table.at(args),
        None => Scalar::Bool(false),
    }
}

/// The memory with the word at the address; where the old value is no memory, that of zeros.
fn written(alloc: Global, old: Value, address: u64, word: u64) -> Result<Memory, AllocError>
    ensures { IfOk result (λ m. m ≡ write (memory_of old) address word) }
{
    let (default, mut rows) = match old {
        Value::Memory(Memory { default, rows }) => (default, rows.into_vec()),
        Value::Scalar(_) => (0, Vec::new(alloc)),
    };
    rows.insert(
        0,
        Slot {
            address,
            value: word,
        },
    )?;
    Ok(Memory {
        default,
        rows: Sequence::from_vec(rows),
    })
}
