//! `show` of a trail: each cycle with its inputs, and the first that breaks with its diagram.
ghost use Rattle.std.specs.Prelude.{◌≡◌, ◌≢◌, ◌≤◌, ◌<◌, ◌++◌, ◌∷◌, ℕ, length, map, true, None, Ok, OnOk, IfOk, IfErr};
ghost use Rattle.bd_app.specs.Retrace.{retraced_words};
ghost use Rattle.bd_model.specs.Cycle.{state_after};
ghost use Rattle.bd_model.specs.DesignView.{design_view, port_view};
ghost use Rattle.bd_model.specs.Lawful.{IsLawful};
ghost use Rattle.bd_model.specs.Limits.{most_cycles};
ghost use Rattle.bd_model.specs.TrailJudged.{IsTrailJudged};
ghost use Rattle.bd_picture.specs.Sentence.{sentence};
ghost use Rattle.bd_syntax.specs.declared.ast.Kind.TheVariants.{Pipeline, Specification};
ghost use Rattle.bd_show.specs.Files.{AreStarted, AreTrail, IsStartedFault, has_trail};
ghost use Rattle.bd_show.specs.LetNames.{IsMachineText};
ghost use Rattle.bd_show.specs.Meaning.{IsTrailShown};
ghost use Rattle.bd_show.specs.Trails.{cycle_case, cycle_text, cycles_text, input_text, inputs_text, unstarted};
ghost use Rattle.bd_show.specs.inner.Answered.{HasAnswer, HasDrawn, IsBreaking, IsBreakingIf, IsTrailSeen};
ghost use Rattle.bd_app.specs.Loading.{bytes_of};
ghost use Rattle.bd_show.specs.inner.Loaded.{AreFew, texts_view};
ghost use Rattle.bd_show.specs.inner.Read.{IsRefusedBy};

use crate::answer::{Answer, Ended};
use crate::fault::refused_trail;
use crate::load::Texts;
use crate::names::machine_lets;
use crate::read::{started, trail};
use crate::show::{ShowOptions, Showing, drawn, unseen};
use bd_app::retraced_line;
use bd_model::{
    Case, Condition, Design, Expr, Inputs, Judged, Locals, Port, Scalar, State, Trail, TrailJudged,
};
use bd_picture::{Picture, ShownNames, page_of, text_of};
use bd_sim::{judge_trail, step};
use bd_syntax::Kind;
use bd_typer::DesignFault;
use itoa::Buffer;
use std::alloc::{AllocError, Global};

/// A trail, and what it shows.
#[derive(Drop)]
struct Judging {
    trail: Trail,
    judged: TrailJudged,
}

/// Puts ` NAME=VALUE` after a text.
fn push_input(out: &mut Vec<u8>, port: &Port, value: Scalar) -> Result<(), AllocError>
    ensures { OnOk result (out.new.items ≡ out.old.items ++ input_text (port_view port.now) value) }
{
    let mut buffer = Buffer::new();
    out.push(b' ')?;
    out.extend_from_slice(port.name.as_slice())?;
    out.push(b'=')?;
    match value {
        Scalar::Bool(true) => out.extend_from_slice(b"true"),
        Scalar::Bool(false) => out.extend_from_slice(b"false"),
        Scalar::Word(word) => out.extend_from_slice(buffer.format(word).as_bytes()),
    }
}

/// Puts the inputs of a cycle after a text.
fn push_inputs(out: &mut Vec<u8>, ports: &[Port], inputs: &[Scalar]) -> Result<(), AllocError>
    ensures { OnOk result (out.new.items
        ≡ out.old.items ++ inputs_text (map port_view ports.now) inputs.now) }
{
    for (port, value) in ports.iter().zip(inputs) {
        push_input(out, port, *value)?;
    }
    Ok(())
}

/// Puts the line of a cycle of this number after a text.
fn push_cycle(
    out: &mut Vec<u8>,
    ports: &[Port],
    number: usize,
    inputs: &[Scalar],
) -> Result<(), AllocError>
    ensures { OnOk result (out.new.items
        ≡ out.old.items ++ cycle_text (map port_view ports.now) number inputs.now) }
{
    let mut buffer = Buffer::new();
    out.extend_from_slice(b"cycle ")?;
    out.extend_from_slice(buffer.format(number).as_bytes())?;
    out.push(b':')?;
    push_inputs(out, ports, inputs)?;
    out.push(b'\n')?;
    Ok(())
}

/// Puts the lines of cycles after a text.
fn push_cycles(out: &mut Vec<u8>, ports: &[Port], cycles: &[Inputs]) -> Result<(), AllocError>
    requires { length cycles.now ≤ most_cycles }
    ensures { OnOk result (out.new.items
        ≡ out.old.items ++ cycles_text (map port_view ports.now) 1 cycles.now) }
{
    for (at, inputs) in cycles.iter().enumerate() {
        push_cycle(out, ports, at + 1, inputs.as_slice())?;
    }
    Ok(())
}

/// The line of a judgement, and the lines of the cycles.
fn lines(
    alloc: Global,
    design: &Design,
    trail: &Trail,
    judged: TrailJudged,
) -> Result<Vec<u8>, AllocError>
    requires { length trail.now.inputs ≤ most_cycles }
    ensures { IfOk result (λ text. text.items ≡ retraced_words judged
        ++ 10 ∷ cycles_text (design_view design.now).pipe.ports 1 trail.now.inputs) }
{
    let mut text = retraced_line(alloc, judged)?;
    let ports = design.pipe.ports.as_slice();
    push_cycles(&mut text, ports, trail.inputs.as_slice())?;
    Ok(text)
}

/// The state after the first cycles of a trail.
fn state_after(
    alloc: Global,
    design: &Design,
    trail: &Trail,
    count: usize,
) -> Result<State, AllocError>
    requires lawful { IsLawful (design_view design.now) }
    requires within { count ≤ length trail.now.inputs }
    ensures { IfOk result (λ s. s ≡ state_after (design_view design.now) trail.now count) }
{
    let mut state = trail.state.clone()?;
    for inputs in &trail.inputs.as_slice()[..count] {
        state = step(alloc, design, &trail.interp, &state, inputs)?;
    }
    Ok(state)
}

/// A cycle of a trail as a case, by its place from 0.
fn cycle_case(alloc: Global, design: &Design, trail: &Trail, place: u32) -> Result<Case, AllocError>
    requires lawful { IsLawful (design_view design.now) }
    requires within { place < length trail.now.inputs }
    ensures { IfOk result (λ c. c ≡ cycle_case (design_view design.now) trail.now place) }
{
    let state = state_after(alloc, design, trail, place as usize)?;
    Ok(Case {
        interp: trail.interp.clone()?,
        state,
        inputs: trail.inputs.get(place).clone()?,
    })
}

/// The picture of the cycle of this number, which breaks.
fn picture(
    alloc: Global,
    texts: &Texts,
    design: &Design,
    trail: &Trail,
    cycle: u32,
    whole: bool,
) -> Result<Picture, AllocError>
    requires readable { IsMachineText Pipeline (texts_view texts.now).pipe }
    requires spec_readable { IsMachineText Specification (texts_view texts.now).spec }
    requires lawful { IsLawful (design_view design.now) }
    requires breaking { IsBreaking (design_view design.now) trail.now cycle }
    ensures { IfOk result (λ p. p.sentence.items
        ≡ sentence (design_view design.now) (Judged.Broken Condition.Commute)) }
{
    let lets = machine_lets(alloc, texts.pipe.as_slice(), Kind::Pipeline)?;
    let steps = machine_lets(alloc, texts.spec.as_slice(), Kind::Specification)?;
    let names = ShownNames {
        lets: lets.as_slice(),
        steps: steps.as_slice(),
        claims: &[],
    };
    let case = cycle_case(alloc, design, trail, cycle - 1)?;
    let judged = Judged::Broken(Condition::Commute);
    drawn(alloc, design, &case, judged, whole, names)
}

/// The text of a trail of which the cycle of this number breaks first, of a design without its start.
pub fn broken_text(
    alloc: Global,
    texts: &Texts,
    design: &Design,
    trail: &Trail,
    cycle: u32,
) -> Result<Vec<u8>, AllocError>
    requires lawful { IsLawful (design_view design.now) }
    requires few { length trail.now.inputs ≤ most_cycles }
    requires readable { IsMachineText Pipeline (texts_view texts.now).pipe }
    requires spec_readable { IsMachineText Specification (texts_view texts.now).spec }
    requires breaking { IsBreaking (design_view design.now) trail.now cycle }
    ensures { IfOk result (λ text. IsTrailShown (design_view design.now) trail.now
        (TrailJudged.Broken cycle) text.items) }
{
    let picture = picture(alloc, texts, design, trail, cycle, false)?;
    let shown = text_of(alloc, &picture)?;
    let tables = shown.as_slice();
    let mut text = lines(alloc, design, trail, TrailJudged::Broken(cycle))?;
    text.push(b'\n')?;
    text.extend_from_slice(tables)?;
    Ok(text)
}

/// The answer on a trail of which the cycle of this number breaks.
fn on_break(
    alloc: Global,
    options: ShowOptions<'_>,
    texts: &Texts,
    design: &Design,
    judging: &Judging,
    cycle: u32,
) -> Result<Showing, AllocError>
    requires lawful { IsLawful (design_view design.now) }
    requires few { length judging.now.trail.inputs ≤ most_cycles }
    requires readable { IsMachineText Pipeline (texts_view texts.now).pipe }
    requires spec_readable { IsMachineText Specification (texts_view texts.now).spec }
    requires broken { judging.now.judged ≡ TrailJudged.Broken cycle }
    requires breaking { IsBreaking (design_view design.now) judging.now.trail cycle }
    ensures { IfOk result (λ r. IsTrailSeen (design_view design.now) judging.now.trail
        judging.now.judged r.answer.ended r.answer.text.items (bytes_of r.page)) }
{
    let picture = picture(alloc, texts, design, &judging.trail, cycle, options.whole)?;
    let shown = text_of(alloc, &picture)?;
    let tables = shown.as_slice();
    let page = page_of(alloc, &picture)?;
    let mut text = lines(alloc, design, &judging.trail, judging.judged)?;
    text.push(b'\n')?;
    text.extend_from_slice(tables)?;
    let ended = Ended::Traced(judging.judged);
    Ok(Showing {
        answer: Answer { ended, text },
        page: Some(page),
    })
}

/// The answer on a trail in which no cycle breaks.
#[tactic(auto, using(crate::proofs::Trails::lines_seen))]
fn on_whole(alloc: Global, design: &Design, judging: &Judging) -> Result<Showing, AllocError>
    requires few { length judging.now.trail.inputs ≤ most_cycles }
    requires whole { (cycle : ℕ) → judging.now.judged ≢ TrailJudged.Broken cycle }
    ensures { IfOk result (λ r. IsTrailSeen (design_view design.now) judging.now.trail
        judging.now.judged r.answer.ended r.answer.text.items (bytes_of r.page)) }
{
    let text = lines(alloc, design, &judging.trail, judging.judged)?;
    let ended = Ended::Traced(judging.judged);
    Ok(Showing {
        answer: Answer { ended, text },
        page: None,
    })
}

/// The answer on a trail that is judged so, of a design without its start.
fn on_judged(
    alloc: Global,
    options: ShowOptions<'_>,
    texts: &Texts,
    design: &Design,
    judging: &Judging,
) -> Result<Showing, AllocError>
    requires lawful { IsLawful (design_view design.now) }
    requires few { length judging.now.trail.inputs ≤ most_cycles }
    requires readable { IsMachineText Pipeline (texts_view texts.now).pipe }
    requires spec_readable { IsMachineText Specification (texts_view texts.now).spec }
    requires breaking { IsBreakingIf (design_view design.now) judging.now.trail
        judging.now.judged }
    ensures { IfOk result (λ r. IsTrailSeen (design_view design.now) judging.now.trail
        judging.now.judged r.answer.ended r.answer.text.items (bytes_of r.page)) }
{
    if let TrailJudged::Broken(cycle) = judging.judged {
        on_break(alloc, options, texts, design, judging, cycle)
    } else {
        on_whole(alloc, design, judging)
    }
}

/// The design without its start.
pub fn unstarted(alloc: Global, design: Design) -> Design
    ensures { design_view result ≡ unstarted (design_view design) }
{
    Design {
        inv_locals: Locals::new(alloc),
        inv: Expr::Bool(true),
        ..design
    }
}

/// The trail of texts, of which this is the design, with what it shows.
fn judged_trail(alloc: Global, design: &Design, texts: &Texts) -> Result<Judging, DesignFault>
    requires design { AreStarted (texts_view texts.now) (Ok (design_view design.now)) }
    requires lawful { IsLawful (design_view design.now) }
    requires trail { has_trail (texts_view texts.now) ≡ true }
    ensures read { IfOk result (λ j.
        AreTrail (texts_view texts.now) (design_view design.now) j.trail) }
    ensures short { IfOk result (λ j. length j.trail.inputs ≤ most_cycles) }
    ensures judged { IfOk result (λ j.
        IsTrailJudged (design_view design.now) j.trail j.judged) }
    ensures refused { IfErr result (IsRefusedBy (IsStartedFault (texts_view texts.now))) }
{
    let trail = trail(alloc, design, texts)?;
    let judged = judge_trail(alloc, design, &trail)?;
    Ok(Judging { trail, judged })
}

/// The answer on texts, of which this is the design.
#[tactic(auto, using(crate::proofs::Trails::breaking, crate::proofs::Trails::seen_says))]
fn on_design(
    alloc: Global,
    options: ShowOptions<'_>,
    texts: &Texts,
    design: Design,
) -> Result<Showing, AllocError>
    requires design { AreStarted (texts_view texts.now) (Ok (design_view design)) }
    requires lawful { IsLawful (design_view design) }
    requires alone { (texts_view texts.now).comp ≡ None }
    requires trail { has_trail (texts_view texts.now) ≡ true }
    requires readable { IsMachineText Pipeline (texts_view texts.now).pipe }
    requires spec_readable { IsMachineText Specification (texts_view texts.now).spec }
    ensures says { IfOk result (HasAnswer options.entry (texts_view texts.now)) }
    ensures drawn { IfOk result (HasDrawn (texts_view texts.now)) }
{
    match judged_trail(alloc, &design, texts) {
        Ok(judging) => {
            let design = unstarted(alloc, design);
            on_judged(alloc, options, texts, &design, &judging)
        }
        Err(fault) => unseen(refused_trail(alloc, options.names, texts, fault)),
    }
}

/// The answer on texts with a trail.
pub fn on_trail(
    alloc: Global,
    options: ShowOptions<'_>,
    texts: &Texts,
) -> Result<Showing, AllocError>
    requires few { AreFew (texts_view texts.now) }
    requires alone { (texts_view texts.now).comp ≡ None }
    requires trail { has_trail (texts_view texts.now) ≡ true }
    ensures says { IfOk result (HasAnswer options.entry (texts_view texts.now)) }
    ensures drawn { IfOk result (HasDrawn (texts_view texts.now)) }
{
    match started(alloc, texts) {
        Ok(design) => on_design(alloc, options, texts, design),
        Err(fault) => unseen(refused_trail(alloc, options.names, texts, fault)),
    }
}
