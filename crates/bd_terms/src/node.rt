//! Symbols and nodes.
ghost use Rattle.std.specs.Prelude.{◌≡◌, ◌<◌, ◌↔◌, IfOk, IsTrue, length};
ghost use Rattle.std.specs.List.{All};

use crate::id::{Id, Ids};
use bd_model::Sort;
use std::alloc::AllocError;

/// What an application stands for: a function or predicate of the design, the first contents of an entry, an
/// input, a fresh address, or a variable.
#[derive(Clone, Copy, PartialEq, Eq, Hash)]
pub enum Sym {
    Function(u32),
    Entry(u32),
    Input(u32),
    Address(u32),
    Var(u64),
}

/// A term over terms that stand before it in the same graph.
#[derive(PartialEq, Eq, Hash, Drop)]
pub enum Node {
    True,
    Not(Id),
    And(Id, Id),
    Or(Id, Id),
    Ite(Id, Id, Id),
    Eq(Id, Id),
    App(Sym, Ids),
    Pred(Sym, Ids),
    Read(Id, Id),
    Write(Id, Id, Id),
    /// The first contents of a memory entry.
    Init(u32),
}

impl Node {
    ghost use Rattle.bd_terms.specs.Graph.{children};
    ghost use Rattle.bd_terms.specs.Renamed.{renamed};
    ghost use Rattle.bd_terms.specs.inner.Kept.{NodeKeepsSymbol};

    /// The node over the Ids that its children have in another graph.
    pub fn renamed(&self, ids: &[Id]) -> Result<Node, AllocError>
        requires { All (λ c. c < length ids.now) (children self.now) }
        ensures { IfOk result (λ node. node ≡ renamed ids.now self.now) }
    {
        let node = match self {
            Node::True => Node::True,
            Node::Not(a) => Node::Not(ids[a.index()]),
            Node::And(a, b) => Node::And(ids[a.index()], ids[b.index()]),
            Node::Or(a, b) => Node::Or(ids[a.index()], ids[b.index()]),
            Node::Ite(c, a, b) => Node::Ite(ids[c.index()], ids[a.index()], ids[b.index()]),
            Node::Eq(a, b) => Node::Eq(ids[a.index()], ids[b.index()]),
            Node::App(sym, args) => Node::App(*sym, args.renamed(ids)?),
            Node::Pred(sym, args) => Node::Pred(*sym, args.renamed(ids)?),
            Node::Read(m, a) => Node::Read(ids[m.index()], ids[a.index()]),
            Node::Write(m, a, d) => Node::Write(ids[m.index()], ids[a.index()], ids[d.index()]),
            Node::Init(entry) => Node::Init(*entry),
        };
        Ok(node)
    }

    /// Whether the node applies the symbol to so many arguments and as a term of this sort, if it applies it.
    pub(crate) fn keeps_symbol(&self, sym: Sym, arity: usize, sort: Sort) -> bool
        ensures { IsTrue result ↔ NodeKeepsSymbol self.now sym arity sort }
    {
        match self {
            Node::App(applied, args) => {
                *applied != sym || (args.as_slice().len() == arity && sort == Sort::Word)
            }
            Node::Pred(applied, args) => {
                *applied != sym || (args.as_slice().len() == arity && sort == Sort::Bool)
            }
            Node::Init(entry) => Sym::Entry(*entry) != sym || (arity == 1 && sort == Sort::Word),
            _ => true,
        }
    }
}
