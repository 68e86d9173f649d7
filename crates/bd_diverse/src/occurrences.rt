//! The ways in which walks from a root come to its terms: one pass downwards, since children stand before parents.
ghost use Rattle.std.specs.Prelude.{◌≡◌, ◌<◌, ◌↔◌, ℕ, true, length, IfOk};
ghost use Rattle.std.specs.List.{All};
ghost use Rattle.bd_terms.specs.Graph.{children};
ghost use Rattle.bd_diverse.specs.Positive.{Walks, Way};
ghost use Rattle.bd_diverse.specs.inner.Walked.{flows, freely, has_way, is_any, joined, negated_ways, side_ways, ways_at, with_flows, with_ways};

use bd_terms::{Graph, Id, Node};
use std::alloc::{AllocError, Global};

/// A set of ways in which walks come to a term.
#[derive(Clone, Copy)]
pub(crate) struct Occurrences {
    /// To a truth value, under an even number of negations.
    pub(crate) even: bool,
    /// To a truth value, under an odd number of negations.
    pub(crate) odd: bool,
    /// To a truth value, inside the control of an ite.
    pub(crate) control: bool,
    /// To a leaf of a side of an equation that is reached negatively or inside a control.
    pub(crate) compared: bool,
    /// To any other word.
    pub(crate) free: bool,
}

impl Occurrences {
    const NONE: Occurrences = Occurrences {
        even: false,
        odd: false,
        control: false,
        compared: false,
        free: false,
    };

    const EVEN: Occurrences = Occurrences {
        even: true,
        odd: false,
        control: false,
        compared: false,
        free: false,
    };

    const CONTROL: Occurrences = Occurrences {
        even: false,
        odd: false,
        control: true,
        compared: false,
        free: false,
    };

    const FREE: Occurrences = Occurrences {
        even: false,
        odd: false,
        control: false,
        compared: false,
        free: true,
    };

    /// Whether some walk comes to the term.
    pub(crate) fn is_any(self) -> bool
        ensures { result ≡ is_any self }
    {
        self.even || self.odd || self.control || self.compared || self.free
    }

    /// The ways of both, as a term has them that two walks come to.
    fn joined(self, other: Occurrences) -> Occurrences
        ensures { result ≡ joined self other }
    {
        Occurrences {
            even: self.even || other.even,
            odd: self.odd || other.odd,
            control: self.control || other.control,
            compared: self.compared || other.compared,
            free: self.free || other.free,
        }
    }

    /// The ways in which walks go on below a negation: even and odd change places.
    fn negated(self) -> Occurrences
        ensures { result ≡ negated_ways self }
    {
        Occurrences {
            even: self.odd,
            odd: self.even,
            control: self.control,
            compared: self.compared,
            free: self.free,
        }
    }

    /// The ways in which walks go on from an equation to its sides.
    fn sides(self) -> Occurrences
        ensures { result ≡ side_ways self }
    {
        Occurrences {
            even: false,
            odd: false,
            control: false,
            compared: self.odd || self.control,
            free: self.even || self.compared || self.free,
        }
    }
}

/// The ways in which walks from the root come to each term.
pub(crate) fn walked(alloc: Global, graph: &Graph, root: Id) -> Result<Vec<Occurrences>, AllocError>
    requires { root < length graph.now }
    ensures length { IfOk result (λ marks. length marks.items ≡ length graph.now) }
    ensures ways { IfOk result (λ marks. (way : Way) (id : ℕ) →
        (has_way (ways_at marks.items id) way ≡ true) ↔ Walks graph.now root way id) }
{
    let mut marks = vec![in alloc; Occurrences::NONE; graph.len()]?;
    marks[root.index()] = Occurrences::EVEN;
    for index in (0..graph.len()).rev() {
        let ways = marks[index];
        if ways.is_any() {
            mark_steps(&mut marks, ways, graph.node(graph.id(index)));
        }
    }
    Ok(marks)
}

/// Marks what walks go on to from a node to which they come in these ways.
fn mark_steps(marks: &mut [Occurrences], ways: Occurrences, node: &Node)
    requires { All (λ c. c < length marks.old) (children node.now) }
    ensures { marks.new ≡ with_flows marks.old (flows ways node.now) }
{
    match node {
        Node::True | Node::Init(_) => {}
        Node::Not(a) => mark(marks, *a, ways.negated()),
        Node::And(a, b) | Node::Or(a, b) => {
            mark(marks, *a, ways);
            mark(marks, *b, ways);
        }
        Node::Ite(control, yes, no) => {
            mark(marks, *control, Occurrences::CONTROL);
            mark(marks, *yes, ways);
            mark(marks, *no, ways);
        }
        Node::Eq(a, b) => {
            mark(marks, *a, ways.sides());
            mark(marks, *b, ways.sides());
        }
        Node::App(_, args) | Node::Pred(_, args) => mark_all(marks, args.as_slice()),
        Node::Read(memory, address) => mark_all(marks, &[*memory, *address]),
        Node::Write(memory, address, word) => mark_all(marks, &[*memory, *address, *word]),
    }
}

/// Marks words that no general equation compares.
fn mark_all(marks: &mut [Occurrences], ids: &[Id])
    requires { All (λ c. c < length marks.old) ids.now }
    ensures { marks.new ≡ with_flows marks.old (freely ids.now) }
{
    for id in ids {
        mark(marks, *id, Occurrences::FREE);
    }
}

/// Joins ways to those that a term has.
fn mark(marks: &mut [Occurrences], id: Id, ways: Occurrences)
    requires { id < length marks.old }
    ensures { marks.new ≡ with_ways marks.old id ways }
{
    let index = id.index();
    marks[index] = marks[index].joined(ways);
}
