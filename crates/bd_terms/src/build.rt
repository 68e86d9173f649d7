//! The calls that build terms. Each simplifies the term by the rules and keeps what comes out, so it costs a
//! few looks into the graph and one look into its table.
ghost use Rattle.std.specs.Prelude.{◌≡◌, ◌&&◌, ◌||◌, ◌==◌, ◌∷◌, [], not, true, length, IfOk, OnErr, if◌then◌else◌};
ghost use Rattle.std.specs.List.{All};
ghost use Rattle.bd_model.specs.declared.design.Sort.TheVariants as sort;
ghost use Rattle.bd_terms.specs.declared.node.Node.TheVariants as node;
ghost use Rattle.bd_terms.specs.declared.node.Sym.TheVariants as symbol;
ghost use Rattle.bd_terms.specs.Graph.{AddsUses, Extends, FitsSorts, HasSort, IsGraph, KeepsSymbol, KeepsUses, node_sort, node_uses, sort_at, sorts};
ghost use Rattle.bd_terms.specs.Denotation.{Contents, Denotes, Truth, Word, applied, contents, denoted, holds, node_value, truth, values, word, word as word_at, words, written};
ghost use Rattle.bd_terms.specs.Simplified.{Gives, simplified};

use crate::graph::Graph;
use crate::id::{Id, Ids};
use crate::node::{Node, Sym};
use crate::simplify::Outcome;
use std::alloc::AllocError;

impl Graph {
    /// The true term.
    pub fn mk_true(&mut self) -> Result<Id, AllocError>
        ensures denotes { IfOk result (λ id. Denotes self.new id
            (λ w. Truth true)) }
        ensures sorted { IfOk result (λ id. HasSort self.new id sort.Bool) }
        ensures simplified { IfOk result (λ id.
            Gives self.old self.new id (simplified self.old node.True)) }
        ensures extends { Extends self.old self.new }
        ensures uses { AddsUses self.old self.new [] }
        ensures graph { IsGraph self.new }
        ensures err { OnErr result (self.new ≡ self.old) }
    {
        self.build(Node::True)
    }

    /// The negation of a term.
    pub fn mk_not(&mut self, a: Id) -> Result<Id, AllocError>
        requires { HasSort self.old a sort.Bool }
        ensures denotes { IfOk result (λ id. Denotes self.new id
            (λ w. Truth (not (truth w self.old a)))) }
        ensures sorted { IfOk result (λ id. HasSort self.new id sort.Bool) }
        ensures simplified { IfOk result (λ id.
            Gives self.old self.new id (simplified self.old (node.Not a))) }
        ensures extends { Extends self.old self.new }
        ensures uses { AddsUses self.old self.new [] }
        ensures graph { IsGraph self.new }
        ensures err { OnErr result (self.new ≡ self.old) }
    {
        self.build(Node::Not(a))
    }

    /// The conjunction of two terms.
    pub fn mk_and(&mut self, a: Id, b: Id) -> Result<Id, AllocError>
        requires first { HasSort self.old a sort.Bool }
        requires second { HasSort self.old b sort.Bool }
        ensures denotes { IfOk result (λ id. Denotes self.new id
            (λ w. Truth (truth w self.old a && truth w self.old b))) }
        ensures sorted { IfOk result (λ id. HasSort self.new id sort.Bool) }
        ensures simplified { IfOk result (λ id.
            Gives self.old self.new id (simplified self.old (node.And a b))) }
        ensures extends { Extends self.old self.new }
        ensures uses { AddsUses self.old self.new [] }
        ensures graph { IsGraph self.new }
        ensures err { OnErr result (self.new ≡ self.old) }
    {
        self.build(Node::And(a, b))
    }

    /// The disjunction of two terms.
    pub fn mk_or(&mut self, a: Id, b: Id) -> Result<Id, AllocError>
        requires first { HasSort self.old a sort.Bool }
        requires second { HasSort self.old b sort.Bool }
        ensures denotes { IfOk result (λ id. Denotes self.new id
            (λ w. Truth (truth w self.old a || truth w self.old b))) }
        ensures sorted { IfOk result (λ id. HasSort self.new id sort.Bool) }
        ensures simplified { IfOk result (λ id.
            Gives self.old self.new id (simplified self.old (node.Or a b))) }
        ensures extends { Extends self.old self.new }
        ensures uses { AddsUses self.old self.new [] }
        ensures graph { IsGraph self.new }
        ensures err { OnErr result (self.new ≡ self.old) }
    {
        self.build(Node::Or(a, b))
    }

    /// One term where the control is true, else the other: of truth values, words or memories.
    pub fn mk_ite(&mut self, control: Id, yes: Id, no: Id) -> Result<Id, AllocError>
        requires control { HasSort self.old control sort.Bool }
        requires yes { HasSort self.old yes (sort_at self.old yes) }
        requires no { HasSort self.old no (sort_at self.old yes) }
        ensures denotes { IfOk result (λ id. Denotes self.new id
            (λ w. if truth w self.old control
            then denoted w self.old yes else denoted w self.old no)) }
        ensures sorted { IfOk result (λ id. HasSort self.new id (sort_at self.old yes)) }
        ensures simplified { IfOk result (λ id.
            Gives self.old self.new id (simplified self.old (node.Ite control yes no))) }
        ensures extends { Extends self.old self.new }
        ensures uses { AddsUses self.old self.new [] }
        ensures graph { IsGraph self.new }
        ensures err { OnErr result (self.new ≡ self.old) }
    {
        self.build(Node::Ite(control, yes, no))
    }

    /// The equality of two words.
    pub fn mk_eq(&mut self, a: Id, b: Id) -> Result<Id, AllocError>
        requires first { HasSort self.old a sort.Word }
        requires second { HasSort self.old b sort.Word }
        ensures denotes { IfOk result (λ id. Denotes self.new id
            (λ w. Truth (word w self.old a == word w self.old b))) }
        ensures sorted { IfOk result (λ id. HasSort self.new id sort.Bool) }
        ensures simplified { IfOk result (λ id.
            Gives self.old self.new id (simplified self.old (node.Eq a b))) }
        ensures extends { Extends self.old self.new }
        ensures uses { AddsUses self.old self.new [] }
        ensures graph { IsGraph self.new }
        ensures err { OnErr result (self.new ≡ self.old) }
    {
        self.build(Node::Eq(a, b))
    }

    /// A symbol of words applied to words. A first latch, an input and a fresh address have no argument.
    pub fn mk_app(&mut self, sym: Sym, args: &[Id]) -> Result<Id, AllocError>
        requires arguments { All (λ a. HasSort self.old a sort.Word) args.now }
        requires symbol { KeepsSymbol self.old sym (length args.now) sort.Word }
        ensures denotes { IfOk result (λ id. Denotes self.new id
            (λ w. Word (applied w sym (words w self.old args.now)))) }
        ensures sorted { IfOk result (λ id. HasSort self.new id sort.Word) }
        ensures simplified { IfOk result (λ id.
            Gives self.old self.new id (simplified self.old (node.App sym args.now))) }
        ensures extends { Extends self.old self.new }
        ensures uses { AddsUses self.old self.new (node_uses (node.App sym args.now)) }
        ensures graph { IsGraph self.new }
        ensures err { OnErr result (self.new ≡ self.old) }
    {
        let args = Ids::from_slice(*self.nodes.allocator(), args)?;
        self.build(Node::App(sym, args))
    }

    /// A symbol of truth values applied to words.
    pub fn mk_pred(&mut self, sym: Sym, args: &[Id]) -> Result<Id, AllocError>
        requires arguments { All (λ a. HasSort self.old a sort.Word) args.now }
        requires symbol { KeepsSymbol self.old sym (length args.now) sort.Bool }
        ensures denotes { IfOk result (λ id. Denotes self.new id
            (λ w. Truth (holds w sym (words w self.old args.now)))) }
        ensures sorted { IfOk result (λ id. HasSort self.new id sort.Bool) }
        ensures simplified { IfOk result (λ id.
            Gives self.old self.new id (simplified self.old (node.Pred sym args.now))) }
        ensures extends { Extends self.old self.new }
        ensures uses { AddsUses self.old self.new (node_uses (node.Pred sym args.now)) }
        ensures graph { IsGraph self.new }
        ensures err { OnErr result (self.new ≡ self.old) }
    {
        let args = Ids::from_slice(*self.nodes.allocator(), args)?;
        self.build(Node::Pred(sym, args))
    }

    /// The word that a memory has at an address.
    pub fn mk_read(&mut self, mem: Id, addr: Id) -> Result<Id, AllocError>
        requires memory { HasSort self.old mem sort.Memory }
        requires address { HasSort self.old addr sort.Word }
        ensures denotes { IfOk result (λ id. Denotes self.new id
            (λ w. Word (contents w self.old mem (word w self.old addr)))) }
        ensures sorted { IfOk result (λ id. HasSort self.new id sort.Word) }
        ensures simplified { IfOk result (λ id.
            Gives self.old self.new id (simplified self.old (node.Read mem addr))) }
        ensures extends { Extends self.old self.new }
        ensures uses { AddsUses self.old self.new [] }
        ensures graph { IsGraph self.new }
        ensures err { OnErr result (self.new ≡ self.old) }
    {
        self.build(Node::Read(mem, addr))
    }

    /// A memory with a word written at an address.
    pub fn mk_write(&mut self, mem: Id, addr: Id, word: Id) -> Result<Id, AllocError>
        requires memory { HasSort self.old mem sort.Memory }
        requires address { HasSort self.old addr sort.Word }
        requires word { HasSort self.old word sort.Word }
        ensures denotes { IfOk result (λ id. Denotes self.new id
            (λ w. Contents (written (contents w self.old mem)
            (word_at w self.old addr) (word_at w self.old word)))) }
        ensures sorted { IfOk result (λ id. HasSort self.new id sort.Memory) }
        ensures simplified { IfOk result (λ id.
            Gives self.old self.new id (simplified self.old (node.Write mem addr word))) }
        ensures extends { Extends self.old self.new }
        ensures uses { AddsUses self.old self.new [] }
        ensures graph { IsGraph self.new }
        ensures err { OnErr result (self.new ≡ self.old) }
    {
        self.build(Node::Write(mem, addr, word))
    }

    /// The first contents of a memory entry: at each address the entry's symbol applied to it.
    pub fn mk_init(&mut self, entry: u32) -> Result<Id, AllocError>
        requires symbol { KeepsSymbol self.old (symbol.Entry entry) 1 sort.Word }
        ensures denotes { IfOk result (λ id. Denotes self.new id
            (λ w. Contents (λ a. applied w (symbol.Entry entry) (a ∷ [])))) }
        ensures sorted { IfOk result (λ id. HasSort self.new id sort.Memory) }
        ensures simplified { IfOk result (λ id.
            Gives self.old self.new id (simplified self.old (node.Init entry))) }
        ensures extends { Extends self.old self.new }
        ensures uses { AddsUses self.old self.new (node_uses (node.Init entry)) }
        ensures graph { IsGraph self.new }
        ensures err { OnErr result (self.new ≡ self.old) }
    {
        self.build(Node::Init(entry))
    }

    /// The implication, as the disjunction with the negation. Refused, it may keep the negation.
    pub fn mk_implies(&mut self, a: Id, b: Id) -> Result<Id, AllocError>
        requires first { HasSort self.old a sort.Bool }
        requires second { HasSort self.old b sort.Bool }
        ensures denotes { IfOk result (λ id. Denotes self.new id
            (λ w. Truth (not (truth w self.old a) || truth w self.old b))) }
        ensures sorted { IfOk result (λ id. HasSort self.new id sort.Bool) }
        ensures extends { Extends self.old self.new }
        ensures uses { AddsUses self.old self.new [] }
        ensures graph { IsGraph self.new }
    {
        let denied = self.mk_not(a)?;
        self.mk_or(denied, b)
    }

    /// The term of this node, simplified, and where it was if it is there.
    pub fn build(&mut self, node: Node) -> Result<Id, AllocError>
        requires fits { FitsSorts self.old node }
        requires symbols { KeepsUses self.old node }
        ensures gives { IfOk result (λ id.
            Gives self.old self.new id (simplified self.old node)) }
        ensures denotes { IfOk result (λ id. Denotes self.new id
            (λ w. node_value w (values w self.old) node)) }
        ensures sorted { IfOk result (λ id. HasSort self.new id (node_sort (sorts self.old) node)) }
        ensures extends { Extends self.old self.new }
        ensures uses { AddsUses self.old self.new (node_uses node) }
        ensures graph { IsGraph self.new }
        ensures err { OnErr result (self.new ≡ self.old) }
    {
        match self.simplified(node) {
            Outcome::Same(id) => Ok(id),
            Outcome::Built(node) => self.keep(node),
        }
    }
}
