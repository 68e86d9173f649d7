//! What holds of every text: laws that are proved, and have no code.
//!
//! A text has a first fault or spells trees, and not two of either: `some_reading`, `one_reading`
//! and `one_fault`. So whoever knows that a text spells some trees knows what reading it gives.
//! Writing and reading are inverse up to offsets: `reads_readable` and `reads_back`.

ghost use Rattle.std.specs.Prelude.{◌≡◌, ℕ, ◌≤◌, List};
ghost use Rattle.bd_text.specs.Faults.{HasNoFault, IsFirstFault};
ghost use Rattle.bd_text.specs.Grammar.{Spells};
ghost use Rattle.bd_text.specs.Nodes.{Node, Nodes, node, no_nodes};
ghost use Rattle.bd_text.specs.Written.{AreReadable, IsReadable, LayOut, all_without_offsets, nesting_inside, without_offsets, written};
ghost use Rattle.bd_text.specs.declared.code.Code.{Code};

/// A text spells at most one list of trees.
pub fn one_reading()
    ensures { (source : List ℕ) (ts us : Nodes) → Spells source ts → Spells source us → ts ≡ us }
{}

/// A text without a fault spells some trees.
pub fn some_reading()
    ensures { (source : List ℕ) → HasNoFault source → (ts : Nodes) × Spells source ts }
{}

/// A text has at most one first fault.
pub fn one_fault()
    ensures { (source : List ℕ) (o p : ℕ) (code other : Code) →
        IsFirstFault source o code → IsFirstFault source p other → (o ≡ p) × (code ≡ other) }
{}

/// Trees that are laid out with separators as one likes read back, with offsets of their own.
pub fn reads_layout()
    ensures { (ts : Nodes) (source : List ℕ) → LayOut ts source → nesting_inside ts ≤ 200 →
        HasNoFault source × ((us : Nodes)
        × Spells source us × (all_without_offsets us ≡ all_without_offsets ts)) }
{}

/// What a text without a fault spells can be written and read back: each atom has a byte, and only
/// bytes of atoms, and at most 200 lists are open at once.
pub fn reads_readable()
    ensures { (source : List ℕ) (ts : Nodes) →
        HasNoFault source → Spells source ts → AreReadable ts }
{}

/// What is written of a tree reads back as one tree of the same shape with the same atoms.
pub fn reads_back()
    ensures { (t : Node) → IsReadable t →
        HasNoFault (written t) × ((u : Node)
        × Spells (written t) (node u no_nodes) × (without_offsets u ≡ without_offsets t)) }
{}
