//! Values of expressions, cycles, flushes and steps.
ghost use Rattle.bd_model.specs.DesignView.{design_view};
ghost use Rattle.bd_model.specs.Lawful.{IsLawful};

use crate::checks::{Check, ONE_STAGE, PENDING, TWO_STAGE, check_state, check_texts};
use bd_model::{Case, Design, State};
use bd_sim::{eval, flush, flushed, look, spec_step, step, values_after};
use std::alloc::{AllocError, Global};
use std::process::Abort;

/// A bit, a word and a memory, two entries that hold the values of the two lets, and entries whose next expressions are
/// the forms to be valued.
const FORMS: &str = "(pipeline (function f 1) (predicate p 1)
 (latch b bool) (latch x word) (memory m) (input go bool false) (input w word x)
 (let five word (f x))
 (let written memory (write m five x))
 (next b b) (next x x) (next m m)
 (latch held_five word) (next held_five held_five)
 (memory held_written) (next held_written held_written)
 (latch constant bool) (next constant true)
 (latch input_bit bool) (next input_bit go)
 (latch input_word word) (next input_word w)
 (latch let_word word) (next let_word five)
 (latch not_false bool) (next not_false (not b))
 (latch and_true bool) (next and_true (and go true))
 (latch and_false bool) (next and_false (and go b))
 (latch or_true bool) (next or_true (or b go))
 (latch or_false bool) (next or_false (or b false))
 (latch implies_true bool) (next implies_true (implies b b))
 (latch implies_false bool) (next implies_false (implies go b))
 (latch iff_true bool) (next iff_true (iff go go))
 (latch iff_false bool) (next iff_false (iff go b))
 (latch equal bool) (next equal (= x w))
 (latch unequal bool) (next unequal (= x five))
 (latch ite_true word) (next ite_true (ite go x five))
 (latch ite_false word) (next ite_false (ite b x five))
 (latch read_row word) (next read_row (read m x))
 (latch read_default word) (next read_default (read m five))
 (latch read_written word) (next read_written (read (write m five x) five))
 (memory written_row) (next written_row (write m five x))
 (memory ite_memory) (next ite_memory (ite go m (write m x x)))
 (memory let_memory) (next let_memory written)
 (latch read_let word) (next read_let (read written five))
 (latch apply word) (next apply (f w))
 (latch holds bool) (next holds (p w))
 (latch fails bool) (next fails (p five))
 (flush 0) (steps 0))";

/// The values of the two lets are visible.
const LETS: &str = "(specification (latch held_five word) (memory held_written)
 (next held_five held_five) (next held_written held_written))";

/// The predicate holds of 7, the latch and the input are 7, and the function has 5 there. What stands in the entries of
/// the forms is what none of them has as its value.
const SEVENS: &str = "(case 1 (function f 0 (7 5)) (predicate p false (7 true))
 (latch b false) (latch x 7) (memory m 0 (7 3)) (input go true) (input w 7)
 (latch held_five 5) (memory held_written 0 (5 7) (7 3))
 (latch constant false) (latch input_bit false) (latch input_word 9) (latch let_word 9)
 (latch not_false false) (latch and_true false) (latch and_false true) (latch or_true false)
 (latch or_false true) (latch implies_true false) (latch implies_false true) (latch iff_true false)
 (latch iff_false true) (latch equal false) (latch unequal true) (latch ite_true 9)
 (latch ite_false 9) (latch read_row 9) (latch read_default 9) (latch read_written 9)
 (memory written_row 9) (memory ite_memory 9) (memory let_memory 9) (latch read_let 9)
 (latch apply 9) (latch holds false) (latch fails true))";

/// The values of all next expressions in the case of sevens.
const VALUES: &str = " (latch b false)
 (latch x 7)
 (memory m 0 (7 3))
 (latch held_five 5)
 (memory held_written 0 (5 7) (7 3))
 (latch constant true)
 (latch input_bit true)
 (latch input_word 7)
 (latch let_word 5)
 (latch not_false true)
 (latch and_true true)
 (latch and_false false)
 (latch or_true true)
 (latch or_false false)
 (latch implies_true true)
 (latch implies_false false)
 (latch iff_true true)
 (latch iff_false false)
 (latch equal true)
 (latch unequal false)
 (latch ite_true 7)
 (latch ite_false 5)
 (latch read_row 3)
 (latch read_default 0)
 (latch read_written 7)
 (memory written_row 0 (5 7) (7 3))
 (memory ite_memory 0 (7 3))
 (memory let_memory 0 (5 7) (7 3))
 (latch read_let 7)
 (latch apply 5)
 (latch holds true)
 (latch fails false)
";

/// Checks the values of the forms of a pipeline in a case, after its lets.
fn check_after(rt: &(impl Abort + AllocGlobal), forms: &Design, at: &Case)
    requires { IsLawful (design_view forms.now) }
{
    let (lets, nexts) = (&forms.pipe.locals, &forms.pipe.nexts);
    let found = values_after(rt.alloc(), lets, nexts, &at.interp, &at.state, &at.inputs);
    check_state(rt, forms, &found.expect(rt, "memory"), VALUES);
}

/// Adds the value of each form of a pipeline in a case, valued alone, where the lets have these values.
fn push_values(
    alloc: Global,
    values: &mut State,
    forms: &Design,
    at: &Case,
    lets: &State,
) -> Result<(), AllocError>
    requires { IsLawful (design_view forms.now) }
{
    for form in &forms.pipe.nexts.items {
        values.push(eval(alloc, forms, form, &at.interp, &at.state, &at.inputs, lets)?)?;
    }
    Ok(())
}

/// Checks the values of the forms of a pipeline in a case, where the lets have these values.
fn check_under(rt: &(impl Abort + AllocGlobal), forms: &Design, at: &Case, lets: &State)
    requires { IsLawful (design_view forms.now) }
{
    let mut found = State::new(rt.alloc());
    push_values(rt.alloc(), &mut found, forms, at, lets).expect(rt, "memory");
    check_state(rt, forms, &found, VALUES);
}

/// Checks the values of the forms of a pipeline in a case, of which the values of the lets are visible: after the lets,
/// and with these values for them.
pub(crate) fn check_forms(rt: &(impl Abort + AllocGlobal), forms: &Design, at: &Case)
    requires { IsLawful (design_view forms.now) }
{
    check_after(rt, forms, at);
    let lets = look(rt.alloc(), forms, &at.state).expect(rt, "memory");
    check_under(rt, forms, at, &lets);
}

/// Each form has its value where the lets before it are valued too, and where their values are given.
#[test]
fn forms_are_valued(rt: HostRuntime) {
    check_texts(&rt, FORMS, LETS, SEVENS, Check::Forms);
}

/// The two stages after a cycle: the write to register 7 is made, and that to 8 is pending.
const AFTER_A_CYCLE: &str = " (latch pc 2)
 (memory rf 0 (7 50) (7 40))
 (latch v true)
 (latch d 8)
 (latch o 9)
 (latch a 50)
";

/// The two stages after the cycle and a flush.
const FLUSHED: &str = " (latch pc 2)
 (memory rf 0 (8 60) (7 50) (7 40))
 (latch v false)
 (latch d 0)
 (latch o 0)
 (latch a 0)
";

/// Checks where the flush cycle leads from a state.
fn check_flush(rt: &(impl Abort + AllocGlobal), design: &Design, at: &Case, state: &State)
    requires { IsLawful (design_view design.now) }
{
    let end = flush(rt.alloc(), design, &at.interp, state).expect(rt, "memory");
    check_state(rt, design, &end, FLUSHED);
}

/// Checks where a cycle leads, and the flush after it.
fn check_step(rt: &(impl Abort + AllocGlobal), design: &Design, at: &Case)
    requires { IsLawful (design_view design.now) }
{
    let next = step(rt.alloc(), design, &at.interp, &at.state, &at.inputs).expect(rt, "memory");
    check_state(rt, design, &next, AFTER_A_CYCLE);
    check_flush(rt, design, at, &next);
}

/// Checks what is visible.
fn check_look(rt: &(impl Abort + AllocGlobal), design: &Design, at: &Case) {
    let visible = look(rt.alloc(), design, &at.state).expect(rt, "memory");
    check_state(
        rt,
        design,
        &visible,
        " (latch pc 1)\n (memory rf 0 (7 40))\n",
    );
}

/// Checks where a step of the specification leads from what is visible.
fn check_spec_step(rt: &(impl Abort + AllocGlobal), design: &Design, at: &Case, visible: &State)
    requires { IsLawful (design_view design.now) }
{
    let next = spec_step(rt.alloc(), design, &at.interp, visible).expect(rt, "memory");
    check_state(
        rt,
        design,
        &next,
        " (latch pc 2)\n (memory rf 0 (8 60) (7 50) (7 40))\n",
    );
}

/// Checks what is visible once the pipeline is flushed, and a step of the specification from there.
fn check_flushed(rt: &(impl Abort + AllocGlobal), design: &Design, at: &Case)
    requires { IsLawful (design_view design.now) }
{
    let visible = flushed(rt.alloc(), design, &at.interp, &at.state).expect(rt, "memory");
    check_state(
        rt,
        design,
        &visible,
        " (latch pc 1)\n (memory rf 0 (7 50) (7 40))\n",
    );
    check_spec_step(rt, design, at, &visible);
}

/// Checks each call on the two stages, in the case whose write is pending.
pub(crate) fn check_calls(rt: &(impl Abort + AllocGlobal), design: &Design, at: &Case)
    requires { IsLawful (design_view design.now) }
{
    check_step(rt, design, at);
    check_look(rt, design, at);
    check_flushed(rt, design, at);
}

/// A step, a flush, a look and a step of the specification each give the state written by hand.
#[test]
fn pending_write_is_made(rt: HostRuntime) {
    check_texts(&rt, TWO_STAGE, ONE_STAGE, PENDING, Check::Calls);
}
