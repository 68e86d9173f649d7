//! Reading texts as a design.

ghost use Rattle.std.specs.Prelude.{◌≤◌, Some, length, IfErr, IfOk, IfSome};
ghost use Rattle.std.specs.Option.{option_map};
ghost use Rattle.bd_text.specs.Faults.{HasNoFault, IsFirstFault};
ghost use Rattle.bd_text.specs.Grammar.{Spells};
ghost use Rattle.bd_text.specs.View.{nodes_of};
ghost use Rattle.bd_model.specs.Abstraction.{IsLawfulAbstraction};
ghost use Rattle.bd_model.specs.DesignView.{design_view};
ghost use Rattle.bd_model.specs.Lawful.{IsLawful};
ghost use Rattle.bd_syntax.specs.Completion.{completion_form, completion_view};
ghost use Rattle.bd_syntax.specs.Forms.{ast_view, invariant_view};
ghost use Rattle.bd_syntax.specs.Reading.{machine_form};
ghost use Rattle.bd_syntax.specs.WellFormed.{AreWithinLimits};
ghost use Rattle.bd_syntax.specs.declared.ast.Kind.TheVariants.{Pipeline, Specification};
ghost use Rattle.bd_typer.specs.declared.fault.Text.TheVariants.{Comp, Inv, Start};
ghost use Rattle.bd_typer.specs.Denotes.{CompletesMachines, CompletesTrees, Denotes, DenotesCompleted, DenotesThird, DenotesWith, OnDesign, OnJoined, completed_of_forms, completed_of_machines, completed_of_trees, design_of_machines, design_of_trees, premise_file, premise_form};
ghost use Rattle.bd_typer.specs.Faults.{GivesIn, in_file};
ghost use Rattle.bd_typer.specs.Given.{IsCompFile, IsInvFile, IsMachineFile};
ghost use Rattle.bd_typer.specs.Joined.{joined_view};
ghost use Rattle.bd_typer.specs.inner.Located.{OnText};
ghost use Rattle.bd_model.specs.Limits.{longest_text};

use crate::fault::{DesignFault, Text, TypeFault, located, text_located};
use crate::joining::{Joined, join, join_completion};
use crate::premise::{Premise, with_premise};
use bd_model::Design;
use bd_syntax::laws::reads_within_limits;
use bd_syntax::{
    Ast, CompAst, InvAst, Kind, read_completion, read_invariant, read_machine, read_start,
};
use bd_text::{Trees, read_trees};
use std::alloc::Global;

/// The trees of a text.
fn trees(alloc: Global, file: Text, bytes: &[u8]) -> Result<Trees, TypeFault>
    requires { length bytes.now ≤ longest_text }
    ensures no_fault { IfOk result (λ _. HasNoFault bytes.now) }
    ensures trees { IfOk result (λ trees. Spells bytes.now (nodes_of trees)) }
    ensures limits { IfOk result (λ trees. AreWithinLimits (nodes_of trees)) }
    ensures fault { IfErr result (λ fault. OnText file fault (IsFirstFault bytes.now)) }
{
    reads_within_limits();
    match read_trees(alloc, bytes) {
        Ok(trees) => Ok(trees),
        Err(fault) => Err(text_located(file, fault)),
    }
}

/// The forms of a machine's trees.
fn machine(alloc: Global, file: Text, trees: &Trees, kind: Kind) -> Result<Ast, TypeFault>
    requires { AreWithinLimits (nodes_of trees.now) }
    ensures exact { GivesIn ast_view result
        (in_file file (machine_form kind (nodes_of trees.now))) }
    ensures formed { IfOk result (λ ast. IsMachineFile kind (ast_view ast)) }
{
    located(file, read_machine(alloc, trees, kind))
}

/// The forms of a completion's trees.
fn completion(alloc: Global, trees: &Trees) -> Result<CompAst, TypeFault>
    requires { AreWithinLimits (nodes_of trees.now) }
    ensures exact { GivesIn completion_view result
        (in_file Comp (completion_form (nodes_of trees.now))) }
    ensures formed { IfOk result (λ comp. IsCompFile (completion_view comp)) }
{
    located(Text::Comp, read_completion(alloc, trees))
}

/// The forms of an invariant's trees.
fn invariant(alloc: Global, trees: &Trees) -> Result<InvAst, TypeFault>
    requires { AreWithinLimits (nodes_of trees.now) }
    ensures exact { GivesIn (λ inv. Some (invariant_view inv)) result
        (in_file Inv (premise_form Premise.Invariant (Some (nodes_of trees.now)))) }
    ensures formed { IfOk result (λ inv. IsInvFile (invariant_view inv)) }
{
    located(Text::Inv, read_invariant(alloc, trees))
}

/// The forms of a start's trees.
fn start(alloc: Global, trees: &Trees) -> Result<InvAst, TypeFault>
    requires { AreWithinLimits (nodes_of trees.now) }
    ensures exact { GivesIn (λ inv. Some (invariant_view inv)) result
        (in_file Start (premise_form Premise.Start (Some (nodes_of trees.now)))) }
    ensures formed { IfOk result (λ inv. IsInvFile (invariant_view inv)) }
{
    located(Text::Start, read_start(alloc, trees))
}

/// The forms of a premise's trees.
fn premise_form(alloc: Global, premise: Premise, trees: &Trees) -> Result<InvAst, TypeFault>
    requires { AreWithinLimits (nodes_of trees.now) }
    ensures exact { GivesIn (λ inv. Some (invariant_view inv)) result
        (in_file (premise_file premise) (premise_form premise (Some (nodes_of trees.now)))) }
    ensures formed { IfOk result (λ inv. IsInvFile (invariant_view inv)) }
{
    match premise {
        Premise::Invariant => invariant(alloc, trees),
        Premise::Start => start(alloc, trees),
    }
}

/// The design that the forms of two machines and the trees of a third file denote.
#[tactic(auto, unfolding(crate::specs::Denotes::design_of_machines))]
fn design_of_machines(
    alloc: Global,
    pipe: &Ast,
    spec: &Ast,
    premise: Premise,
    third: Option<&Trees>,
) -> Result<Design, TypeFault>
    requires pipe { IsMachineFile Pipeline (ast_view pipe.now) }
    requires spec { IsMachineFile Specification (ast_view spec.now) }
    requires third { IfSome third (λ third. AreWithinLimits (nodes_of third.now)) }
    ensures { GivesIn design_view result (design_of_machines premise (ast_view pipe.now)
        (ast_view spec.now) (option_map (λ third. nodes_of third.now) third.entry)) }
{
    match third {
        None => with_premise(premise, join(alloc, pipe, spec, None)),
        Some(third) => {
            let third = premise_form(alloc, premise, third)?;
            with_premise(premise, join(alloc, pipe, spec, Some(&third)))
        }
    }
}

/// The design that trees denote.
#[tactic(auto, unfolding(crate::specs::Denotes::design_of_trees))]
fn design_of_trees(
    alloc: Global,
    pipe: &Trees,
    spec: &Trees,
    premise: Premise,
    third: Option<&Trees>,
) -> Result<Design, TypeFault>
    requires pipe { AreWithinLimits (nodes_of pipe.now) }
    requires spec { AreWithinLimits (nodes_of spec.now) }
    requires third { IfSome third (λ third. AreWithinLimits (nodes_of third.now)) }
    ensures { GivesIn design_view result (design_of_trees premise (nodes_of pipe.now)
        (nodes_of spec.now) (option_map (λ third. nodes_of third.now) third.entry)) }
{
    let pipe = machine(alloc, Text::Pipe, pipe, Kind::Pipeline)?;
    let spec = machine(alloc, Text::Spec, spec, Kind::Specification)?;
    design_of_machines(alloc, &pipe, &spec, premise, third)
}

/// The design that the trees of two machines and the text of a third file denote, or its first fault.
fn denoted_third(
    alloc: Global,
    pipe: &Trees,
    spec: &Trees,
    premise: Premise,
    third: Option<&[u8]>,
) -> Result<Design, TypeFault>
    requires pipe { AreWithinLimits (nodes_of pipe.now) }
    requires spec { AreWithinLimits (nodes_of spec.now) }
    requires third { IfSome third (λ third. length third.now ≤ longest_text) }
    ensures { OnDesign result (DenotesThird premise (nodes_of pipe.now) (nodes_of spec.now)
        (option_map (λ third. third.now) third.entry)) }
{
    match third {
        None => design_of_trees(alloc, pipe, spec, premise, None),
        Some(third) => {
            let third = trees(alloc, premise.file(), third)?;
            design_of_trees(alloc, pipe, spec, premise, Some(&third))
        }
    }
}

/// The design that texts denote, or their first fault.
fn denoted(
    alloc: Global,
    pipe: &[u8],
    spec: &[u8],
    premise: Premise,
    third: Option<&[u8]>,
) -> Result<Design, TypeFault>
    requires pipe { length pipe.now ≤ longest_text }
    requires spec { length spec.now ≤ longest_text }
    requires third { IfSome third (λ third. length third.now ≤ longest_text) }
    ensures { OnDesign result (DenotesWith premise pipe.now spec.now
        (option_map (λ third. third.now) third.entry)) }
{
    let pipe = trees(alloc, Text::Pipe, pipe)?;
    let spec = trees(alloc, Text::Spec, spec)?;
    denoted_third(alloc, &pipe, &spec, premise, third)
}

/// The design that texts of at most 1,048,576 bytes denote, or their first fault. The third says what this premise
/// does; a start stands in the design as its invariant.
///
/// The passes follow each other, and each goes over the pipeline, the specification and the third file: the texts
/// (`E01` to `E03`), the forms (`E04` to `E06`, `E11`, `E14`), the declarations (`E07`, `E12`, `E13`), the
/// expressions (`E07` to `E10`, `E17`, `E18`), and the specification against the pipeline (`E15`, `E16`).
pub fn design_with(
    alloc: Global,
    pipe: &[u8],
    spec: &[u8],
    premise: Premise,
    third: Option<&[u8]>,
) -> Result<Design, DesignFault>
    requires pipe { length pipe.now ≤ longest_text }
    requires spec { length spec.now ≤ longest_text }
    requires third { IfSome third (λ third. length third.now ≤ longest_text) }
    ensures exact { OnDesign result (DenotesWith premise pipe.now spec.now
        (option_map (λ third. third.now) third.entry)) }
    ensures lawful { IfOk result (λ d. IsLawful (design_view d)) }
{
    denoted(alloc, pipe, spec, premise, third)
}

/// The design that texts of at most 1,048,576 bytes denote, or their first fault, where the third is an invariant.
pub fn design_of(
    alloc: Global,
    pipe: &[u8],
    spec: &[u8],
    inv: Option<&[u8]>,
) -> Result<Design, DesignFault>
    requires pipe { length pipe.now ≤ longest_text }
    requires spec { length spec.now ≤ longest_text }
    requires inv { IfSome inv (λ inv. length inv.now ≤ longest_text) }
    ensures exact { OnDesign result
        (Denotes pipe.now spec.now (option_map (λ inv. inv.now) inv.entry)) }
    ensures lawful { IfOk result (λ d. IsLawful (design_view d)) }
{
    design_with(alloc, pipe, spec, Premise::Invariant, inv)
}

/// The design and the abstraction that forms and the trees of an invariant denote.
#[tactic(auto, unfolding(crate::specs::Denotes::completed_of_forms))]
fn completed_of_forms(
    alloc: Global,
    pipe: &Ast,
    spec: &Ast,
    comp: &CompAst,
    inv: Option<&Trees>,
) -> Result<Joined, TypeFault>
    requires pipe { IsMachineFile Pipeline (ast_view pipe.now) }
    requires spec { IsMachineFile Specification (ast_view spec.now) }
    requires comp { IsCompFile (completion_view comp.now) }
    requires inv { IfSome inv (λ inv. AreWithinLimits (nodes_of inv.now)) }
    ensures exact { GivesIn joined_view result (completed_of_forms (ast_view pipe.now)
        (ast_view spec.now) (completion_view comp.now)
        (option_map (λ inv. nodes_of inv.now) inv.entry)) }
    ensures lawful { IfOk result (λ joined. IsLawful (design_view joined.design)) }
    ensures abstraction { IfOk result
        (λ joined. IsLawfulAbstraction (design_view joined.design) joined.abs) }
{
    match inv {
        None => join_completion(alloc, pipe, spec, comp, None),
        Some(inv) => {
            let inv = invariant(alloc, inv)?;
            join_completion(alloc, pipe, spec, comp, Some(&inv))
        }
    }
}

/// The design and the abstraction that the forms of two machines and the trees of other files denote.
#[tactic(auto, unfolding(crate::specs::Denotes::completed_of_machines))]
fn completed_of_machines(
    alloc: Global,
    pipe: &Ast,
    spec: &Ast,
    comp: &Trees,
    inv: Option<&Trees>,
) -> Result<Joined, TypeFault>
    requires pipe { IsMachineFile Pipeline (ast_view pipe.now) }
    requires spec { IsMachineFile Specification (ast_view spec.now) }
    requires comp { AreWithinLimits (nodes_of comp.now) }
    requires inv { IfSome inv (λ inv. AreWithinLimits (nodes_of inv.now)) }
    ensures exact { GivesIn joined_view result (completed_of_machines (ast_view pipe.now)
        (ast_view spec.now) (nodes_of comp.now)
        (option_map (λ inv. nodes_of inv.now) inv.entry)) }
    ensures lawful { IfOk result (λ joined. IsLawful (design_view joined.design)) }
    ensures abstraction { IfOk result
        (λ joined. IsLawfulAbstraction (design_view joined.design) joined.abs) }
{
    let comp = completion(alloc, comp)?;
    completed_of_forms(alloc, pipe, spec, &comp, inv)
}

/// The design and the abstraction that trees denote.
#[tactic(auto, unfolding(crate::specs::Denotes::completed_of_trees))]
fn completed_of_trees(
    alloc: Global,
    pipe: &Trees,
    spec: &Trees,
    comp: &Trees,
    inv: Option<&Trees>,
) -> Result<Joined, TypeFault>
    requires pipe { AreWithinLimits (nodes_of pipe.now) }
    requires spec { AreWithinLimits (nodes_of spec.now) }
    requires comp { AreWithinLimits (nodes_of comp.now) }
    requires inv { IfSome inv (λ inv. AreWithinLimits (nodes_of inv.now)) }
    ensures exact { GivesIn joined_view result (completed_of_trees (nodes_of pipe.now)
        (nodes_of spec.now) (nodes_of comp.now)
        (option_map (λ inv. nodes_of inv.now) inv.entry)) }
    ensures lawful { IfOk result (λ joined. IsLawful (design_view joined.design)) }
    ensures abstraction { IfOk result
        (λ joined. IsLawfulAbstraction (design_view joined.design) joined.abs) }
{
    let pipe = machine(alloc, Text::Pipe, pipe, Kind::Pipeline)?;
    let spec = machine(alloc, Text::Spec, spec, Kind::Specification)?;
    completed_of_machines(alloc, &pipe, &spec, comp, inv)
}

/// The design and the abstraction that trees and the text of an invariant denote, or its first fault.
fn completed_with(
    alloc: Global,
    pipe: &Trees,
    spec: &Trees,
    comp: &Trees,
    inv: Option<&[u8]>,
) -> Result<Joined, TypeFault>
    requires pipe { AreWithinLimits (nodes_of pipe.now) }
    requires spec { AreWithinLimits (nodes_of spec.now) }
    requires comp { AreWithinLimits (nodes_of comp.now) }
    requires inv { IfSome inv (λ inv. length inv.now ≤ longest_text) }
    ensures exact { OnJoined result (CompletesTrees (nodes_of pipe.now) (nodes_of spec.now)
        (nodes_of comp.now) (option_map (λ inv. inv.now) inv.entry)) }
    ensures lawful { IfOk result (λ joined. IsLawful (design_view joined.design)) }
    ensures abstraction { IfOk result
        (λ joined. IsLawfulAbstraction (design_view joined.design) joined.abs) }
{
    match inv {
        None => completed_of_trees(alloc, pipe, spec, comp, None),
        Some(inv) => {
            let inv = trees(alloc, Text::Inv, inv)?;
            completed_of_trees(alloc, pipe, spec, comp, Some(&inv))
        }
    }
}

/// The design and the abstraction that the trees of two machines and the texts of other files denote, or the first
/// fault of these.
fn completed_machines(
    alloc: Global,
    pipe: &Trees,
    spec: &Trees,
    comp: &[u8],
    inv: Option<&[u8]>,
) -> Result<Joined, TypeFault>
    requires pipe { AreWithinLimits (nodes_of pipe.now) }
    requires spec { AreWithinLimits (nodes_of spec.now) }
    requires comp { length comp.now ≤ longest_text }
    requires inv { IfSome inv (λ inv. length inv.now ≤ longest_text) }
    ensures exact { OnJoined result (CompletesMachines (nodes_of pipe.now) (nodes_of spec.now)
        comp.now (option_map (λ inv. inv.now) inv.entry)) }
    ensures lawful { IfOk result (λ joined. IsLawful (design_view joined.design)) }
    ensures abstraction { IfOk result
        (λ joined. IsLawfulAbstraction (design_view joined.design) joined.abs) }
{
    let comp = trees(alloc, Text::Comp, comp)?;
    completed_with(alloc, pipe, spec, &comp, inv)
}

/// The design and the abstraction that texts of at most 1,048,576 bytes denote, or their first fault: a pipeline, a
/// specification, a completion, which is taken before the invariant in each pass, and an invariant.
pub fn completed_design(
    alloc: Global,
    pipe: &[u8],
    spec: &[u8],
    comp: &[u8],
    inv: Option<&[u8]>,
) -> Result<Joined, DesignFault>
    requires pipe { length pipe.now ≤ longest_text }
    requires spec { length spec.now ≤ longest_text }
    requires comp { length comp.now ≤ longest_text }
    requires inv { IfSome inv (λ inv. length inv.now ≤ longest_text) }
    ensures exact { OnJoined result (DenotesCompleted pipe.now spec.now comp.now
        (option_map (λ inv. inv.now) inv.entry)) }
    ensures lawful { IfOk result (λ joined. IsLawful (design_view joined.design)) }
    ensures abstraction { IfOk result
        (λ joined. IsLawfulAbstraction (design_view joined.design) joined.abs) }
{
    let pipe = trees(alloc, Text::Pipe, pipe)?;
    let spec = trees(alloc, Text::Spec, spec)?;
    completed_machines(alloc, &pipe, &spec, comp, inv)
}
